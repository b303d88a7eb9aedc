//! An iterator over the feasible words of a light.
ghost use Rattle.std.specs.Prelude.{◌≡◌, ◌<◌, length, slice_get};
ghost use Rattle.xw_words.specs.Dictionary.{known_words, entry_at, most_words};
ghost use Rattle.xw_feas.specs.Board.{board_of, spelled, light_at};
ghost use Rattle.xw_feas.specs.Queries.{words_answer};
ghost use Rattle.xw_feas.specs.Spelled.{spelling};

use crate::board::{Board, Cells};
use crate::edit::{Found, Refusal};
use crate::feasible::Feasible;
use std::marker::Model;
use xw_grid::cell::LightName;
use xw_letters::letter::Letter;

/// The word that the letters of a light's cells spell.
#[derive(Drop)]
pub struct Entries<'a> {
    board: Board<'a>,
    cells: Cells,
}

impl<'a> Model for Entries<'a> {
    ghost use Rattle.std.specs.Prelude.{List, ℕ};
    ghost use Rattle.xw_feas.specs.Board.{spelled};

    ghost Value = { List ℕ };

    ghost view = { λ entries. spelled entries.board entries.cells };
}

impl<'a> Entries<'a> {
    /// The number of letters.
    pub fn len(&self) -> usize
        ensures { result ≡ length self.now }
    {
        self.cells.len()
    }

    /// The letter at position `k`, counted from 0; `None` past the last one.
    pub fn letter(&self, k: usize) -> Option<Letter>
        ensures { result ≡ slice_get self.now k }
    {
        if k < self.cells.len() {
            Some(self.board.letter(self.cells.at(k)))
        } else {
            None
        }
    }
}

/// The letters of a feasible word: a known word, or the word entered in a light.
#[derive(Drop)]
pub enum Spelled<'a> {
    Listed(&'a [Letter]),
    Entered(Entries<'a>),
}

impl<'a> Spelled<'a> {
    /// The number of letters.
    pub fn len(&self) -> usize
        ensures { result ≡ length (spelling self.now) }
    {
        match self {
            Spelled::Listed(letters) => letters.len(),
            Spelled::Entered(entries) => entries.len(),
        }
    }

    /// The letter at position `k`, counted from 0; `None` past the last one.
    pub fn letter(&self, k: usize) -> Option<Letter>
        ensures { result ≡ slice_get (spelling self.now) k }
    {
        match self {
            Spelled::Listed(letters) => letters.get(k).copied(),
            Spelled::Entered(entries) => entries.letter(k),
        }
    }
}

/// The remaining feasible words of a light, in dictionary order.
#[derive(Drop)]
pub struct WordIter<'a, E: Feasible> {
    engine: &'a E,
    light: usize,
    from: usize,
}

impl<'a, E: Feasible> Model for WordIter<'a, E> {
    ghost use Rattle.std.specs.Prelude.{List, ℕ, ◌<◌, length};
    ghost use Rattle.xw_grid.specs.Light.{lights_of};
    ghost use Rattle.xw_feas.specs.Board.{board_of};
    ghost use Rattle.xw_feas.specs.Words.{words_from};

    ghost Value = { List (List ℕ) };

    ghost view = { λ words. words_from (board_of (E.state words.engine.now).grid) (E.state words.engine.now).words (E.answers words.engine.now) words.light words.from };

    ghost invariant = { λ words. words.light < length (lights_of (E.state words.engine.now).grid) };
}

/// Iterates over the feasible words of a light. Returns `NoLight` if no light has this name.
pub fn words<E: Feasible>(engine: &E, name: LightName) -> Result<WordIter<'_, E>, Refusal>
    ensures { result ≡ words_answer (E.state engine.now) (E.answers engine.now) name }
{
    match engine.lights().index(name) {
        None => Err(Refusal::NoLight),
        Some(light) => Ok(WordIter {
            engine,
            light,
            from: 0,
        }),
    }
}

/// The word that the letters of a light spell.
fn entries_in<E: Feasible>(engine: &E, light: usize) -> Entries<'_>
    requires { light < length (board_of (E.state engine.now).grid).lights }
    ensures { result ≡ spelled (board_of (E.state engine.now).grid) (light_at (board_of (E.state engine.now).grid) light) }
{
    let board = Board::new(engine.grid(), engine.lights());
    let cells = board.light(light);
    Entries { board, cells }
}

/// The known word at an index, of the length of a light.
fn word_in<E: Feasible>(engine: &E, light: usize, index: usize) -> &[Letter]
    requires light { light < length (board_of (E.state engine.now).grid).lights }
    requires index { index < length (known_words (E.state engine.now).words (length (light_at (board_of (E.state engine.now).grid) light))) }
    ensures word { result.now ≡ (entry_at (known_words (E.state engine.now).words (length (light_at (board_of (E.state engine.now).grid) light))) index).word }
    ensures small { index < most_words }
{
    let board = Board::new(engine.grid(), engine.lights());
    let len = board.light(light).len();
    let bank = engine.bank();
    bank.well_formed();
    bank.word(len, index)
}

impl<'a, E: Feasible> Iterator for WordIter<'a, E> {
    ghost use Rattle.std.specs.Iterator.{YieldsFirstBy, item_count};
    ghost use Rattle.xw_feas.specs.Spelled.{spelling};

    type Item = Spelled<'a>;

    ghost next_gives = { YieldsFirstBy spelling (λ words. words) };

    ghost remaining = { item_count (λ words. words) };

    fn next(&mut self) -> Option<Spelled<'a>> {
        let engine = self.engine;
        match engine.next_word_at(self.light, self.from) {
            None => None,
            Some(Found::Entered) => {
                self.from = 1;
                Some(Spelled::Entered(entries_in(engine, self.light)))
            }
            Some(Found::Listed(index)) => {
                let word = word_in(engine, self.light, index);
                self.from = index + 1;
                Some(Spelled::Listed(word))
            }
        }
    }
}
