//! Lists repeated words and words that are not active, and looks up the grades of words.
ghost use Rattle.std.specs.Prelude.{◌≡◌, ◌<◌, ◌≤◌, length, IfOk, IfErr, take};
ghost use Rattle.xw_words.specs.Dictionary.{index_of_word};
ghost use Rattle.xw_feas.specs.Board.{spelled};
ghost use Rattle.xw_search.specs.OfState.{light_count, spelling, is_listed, is_unlisted, grade_of};
ghost use Rattle.xw_search.specs.Listing.{duplicates_of, unlisted_of};

use crate::lights::{board, first_same, is_entered, light_at, light_count, name_at};
use std::alloc::Global;
use xw_feas::board::{Board, Cells};
use xw_feas::edit::Refusal;
use xw_feas::feasible::Feasible;
use xw_grid::cell::LightName;
use xw_grid::fault::GridFault;
use xw_letters::letter::Letter;
use xw_words::word::LONGEST;

/// A light that spells the same as an earlier light, and the first such earlier light.
#[derive(Clone, Copy, Debug, PartialEq, Eq)]
pub struct Duplicate {
    pub light: LightName,
    pub first: LightName,
}

/// Returns every light that spells the same as an earlier light, in light order, each with the first such earlier
/// light. Only wholly entered lights count. Returns `Memory` if an allocation fails.
pub fn duplicates<E: Feasible>(alloc: Global, engine: &E) -> Result<Vec<Duplicate>, Refusal>
    ensures lists { IfOk result (λ found. found.items ≡ duplicates_of (E.state engine.now)) }
    ensures memory { IfErr result (λ refusal. refusal ≡ Refusal.Grid GridFault.Memory) }
{
    let mut found = Vec::new(alloc);
    for light in 0..light_count(engine) {
        if let Some(first) = first_same(engine, light) {
            found.push(Duplicate {
                light: name_at(engine, light),
                first: name_at(engine, first),
            })?;
        }
    }
    Ok(found)
}

/// Copies the letters of a light to the front of an array.
fn spell(board: &Board<'_>, cells: &Cells) -> [Letter; LONGEST]
    requires { length cells.now ≤ 255 }
    ensures { take (length cells.now) result ≡ spelled board.now cells.now }
{
    let mut letters = [Letter::first(); LONGEST];
    for pos in 0..cells.len() {
        letters[pos] = board.letter(cells.at(pos));
    }
    letters
}

/// Returns the index of the word that a light spells among the known words of its length.
pub fn word_index<E: Feasible>(engine: &E, light: usize) -> Option<usize>
    requires { light < light_count (E.state engine.now) }
    ensures { result ≡ index_of_word (E.state engine.now).words (spelling (E.state engine.now) light) }
{
    let board = board(engine);
    let cells = board.light(light);
    let letters = spell(&board, &cells);
    engine.bank().find(&letters[..cells.len()])
}

/// Returns the number of cells of a light.
pub fn size_of<E: Feasible>(engine: &E, light: usize) -> usize
    requires { light < light_count (E.state engine.now) }
    ensures { result ≡ length (spelling (E.state engine.now) light) }
{
    light_at(engine, light).size as usize
}

/// Returns whether the word that a light spells is active in the dictionary.
fn is_listed<E: Feasible>(engine: &E, light: usize) -> bool
    requires { light < light_count (E.state engine.now) }
    ensures { result ≡ is_listed (E.state engine.now) (spelling (E.state engine.now) light) }
{
    match word_index(engine, light) {
        None => false,
        Some(index) => engine.bank().is_active(size_of(engine, light), index),
    }
}

/// Returns whether a light is wholly entered and its word is not active.
pub fn is_unlisted<E: Feasible>(engine: &E, light: usize) -> bool
    requires { light < light_count (E.state engine.now) }
    ensures { result ≡ is_unlisted (E.state engine.now) light }
{
    is_entered(engine, light) && !is_listed(engine, light)
}

/// Returns the wholly entered lights whose words are not active (unknown, struck or below the least grade), in light
/// order. Returns `Memory` if an allocation fails.
pub fn unlisted<E: Feasible>(alloc: Global, engine: &E) -> Result<Vec<LightName>, Refusal>
    ensures lists { IfOk result (λ lights. lights.items ≡ unlisted_of (E.state engine.now)) }
    ensures memory { IfErr result (λ refusal. refusal ≡ Refusal.Grid GridFault.Memory) }
{
    let mut lights = Vec::new(alloc);
    for light in 0..light_count(engine) {
        if is_unlisted(engine, light) {
            lights.push(name_at(engine, light))?;
        }
    }
    Ok(lights)
}

/// Returns the grade of the word of a light, active or not. Returns `None` if the light is not wholly entered, or if
/// its word is not known.
pub fn grade<E: Feasible>(engine: &E, light: usize) -> Option<u8>
    requires { light < light_count (E.state engine.now) }
    ensures { result ≡ grade_of (E.state engine.now) light }
{
    if !is_entered(engine, light) {
        return None;
    }
    let index = word_index(engine, light)?;
    Some(engine.bank().grade(size_of(engine, light), index))
}
