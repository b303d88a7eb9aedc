//! The lights of an engine, each by its index in light order.
ghost use Rattle.std.specs.Prelude.{◌≡◌, ◌<◌, length, bytes_eq, slice_index_or};
ghost use Rattle.xw_grid.specs.Light.{lights_of, no_light};
ghost use Rattle.xw_feas.specs.Board.{board_of, spelled};
ghost use Rattle.xw_search.specs.Position.{name_at};
ghost use Rattle.xw_search.specs.OfState.{feasible_words, is_entered, spelling, spell_same, first_same, light_count};

use xw_feas::board::{Board, Cells, has_all_entries};
use xw_feas::feasible::Feasible;
use xw_grid::cell::LightName;
use xw_grid::lights::Light;

/// Returns the engine's grid with its lights, as a view that addresses cells by index.
pub fn board<E: Feasible>(engine: &E) -> Board<'_>
    ensures { result ≡ board_of (E.state engine.now).grid }
{
    Board::new(engine.grid(), engine.lights())
}

#[tactic(auto, using(crate::proofs::StateLemmas::light_steps))]
pub fn light_count<E: Feasible>(engine: &E) -> usize
    ensures { result ≡ light_count (E.state engine.now) }
{
    engine.lights().len()
}

/// Returns the light at an index.
#[tactic(auto, using(crate::proofs::StateLemmas::light_steps))]
pub fn light_at<E: Feasible>(engine: &E, light: usize) -> Light
    requires { light < light_count (E.state engine.now) }
    ensures { result ≡ slice_index_or (lights_of (E.state engine.now).grid) light no_light }
{
    engine.lights().at(light)
}

/// Returns the name of the light at an index.
pub fn name_at<E: Feasible>(engine: &E, light: usize) -> LightName
    requires { light < light_count (E.state engine.now) }
    ensures { result ≡ name_at (E.state engine.now) light }
{
    light_at(engine, light).name
}

/// Returns the number of feasible words of a light.
pub fn word_count<E: Feasible>(engine: &E, light: usize) -> usize
    requires { light < light_count (E.state engine.now) }
    ensures { result ≡ length (feasible_words (E.state engine.now) light) }
{
    engine.word_count_at(light)
}

/// Returns whether two lists of cells hold the same letters.
fn have_same_letters(board: &Board<'_>, cells: &Cells, others: &Cells) -> bool
    ensures { result ≡ bytes_eq (spelled board.now cells.now) (spelled board.now others.now) }
{
    if cells.len() != others.len() {
        return false;
    }
    for pos in 0..cells.len() {
        if board.letter(cells.at(pos)) != board.letter(others.at(pos)) {
            return false;
        }
    }
    true
}

/// Returns whether a light is wholly entered.
pub fn is_entered<E: Feasible>(engine: &E, light: usize) -> bool
    requires { light < light_count (E.state engine.now) }
    ensures { result ≡ is_entered (E.state engine.now) light }
{
    let board = board(engine);
    has_all_entries(&board, &board.light(light))
}

/// Returns whether two lights have the same letters, whether or not they are wholly entered.
pub fn agree<E: Feasible>(engine: &E, light: usize, other: usize) -> bool
    requires light { light < light_count (E.state engine.now) }
    requires other { other < light_count (E.state engine.now) }
    ensures { result ≡ bytes_eq (spelling (E.state engine.now) light) (spelling (E.state engine.now) other) }
{
    let board = board(engine);
    have_same_letters(&board, &board.light(light), &board.light(other))
}

/// Returns whether two lights are wholly entered and spell the same.
pub fn spell_same<E: Feasible>(engine: &E, light: usize, other: usize) -> bool
    requires light { light < light_count (E.state engine.now) }
    requires other { other < light_count (E.state engine.now) }
    ensures { result ≡ spell_same (E.state engine.now) light other }
{
    agree(engine, light, other) && is_entered(engine, light) && is_entered(engine, other)
}

/// Returns the first earlier light that spells the same. Returns `None` if this light is not wholly entered.
pub(crate) fn first_same<E: Feasible>(engine: &E, light: usize) -> Option<usize>
    requires { light < light_count (E.state engine.now) }
    ensures { result ≡ first_same (E.state engine.now) light }
{
    if !is_entered(engine, light) {
        return None;
    }
    for other in 0..light {
        if spell_same(engine, light, other) {
            return Some(other);
        }
    }
    None
}
