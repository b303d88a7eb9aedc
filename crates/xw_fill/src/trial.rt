//! Places a word for a look at what it leaves, and takes it back, without any memory.
ghost use Rattle.std.specs.Prelude.{◌≡◌, ◌<◌, ◌≤◌, length, slice_index_or, []};
ghost use Rattle.xw_feas.specs.State.{State};
ghost use Rattle.xw_search.specs.Position.{position_of, placed, DiffersInEntries};
ghost use Rattle.xw_search.specs.OfState.{light_count};
ghost use Rattle.xw_fill.specs.OfState.{IsTriedAt, spellings_at};
ghost use Rattle.xw_fill.specs.Inner.Trial.{taken_back, AreBlanks, LeadsBack};

use xw_feas::board::{Board, Cells};
use xw_feas::edit::Edit;
use xw_feas::feasible::Feasible;
use xw_grid::cell::Cell;
use xw_search::lights::{board, light_at};
use xw_words::word::LONGEST;

/// A light in which a word was placed, and which of its cells were empty before.
#[derive(Clone, Copy)]
pub struct Trial {
    light: usize,
    blanks: [bool; LONGEST],
}

/// Returns which of the cells are empty.
fn blanks_of(board: &Board<'_>, cells: &Cells) -> [bool; LONGEST]
    requires { length cells.now ≤ 255 }
    ensures { AreBlanks board.now cells.now result }
{
    let mut blanks = [false; LONGEST];
    for pos in 0..cells.len() {
        blanks[pos] = board.entry(cells.at(pos)).is_none();
    }
    blanks
}

/// Places the known word with this index in a light.
fn place_word<E: Feasible>(engine: &mut E, light: usize, index: usize)
    requires light { light < light_count (E.state engine.old) }
    requires index { index < length (spellings_at (E.state engine.old) light) }
    ensures placed { position_of (E.state engine.new) ≡ placed (position_of (E.state engine.old)) light (slice_index_or (spellings_at (E.state engine.old) light) index []) }
    ensures entries { DiffersInEntries (E.state engine.old) (E.state engine.new) }
{
    engine.place_word_at(light, index);
}

/// Clears the cells of a light that were empty before, in one edit.
fn clear_blanks<E: Feasible>(engine: &mut E, trial: &Trial)
    requires { trial.now.light < light_count (E.state engine.old) }
    ensures back { position_of (E.state engine.new) ≡ taken_back (position_of (E.state engine.old)) trial.now }
    ensures entries { DiffersInEntries (E.state engine.old) (E.state engine.new) }
{
    let light = light_at(engine, trial.light);
    let nowhere = Cell { row: 0, col: 0 };
    let mut list = [(nowhere, None); LONGEST];
    let mut count = 0;
    for pos in 0..light.size {
        if trial.blanks[pos as usize] {
            list[count] = (light.cell(pos), None);
            count += 1;
        }
    }
    let _ = engine.edit(&Edit::Write(&list[..count]));
}

impl Trial {
    /// Places a feasible word, by its index.
    pub fn place<E: Feasible>(engine: &mut E, light: usize, index: usize) -> Trial
        requires { IsTriedAt (E.state engine.old) light index }
        ensures placed { position_of (E.state engine.new) ≡ placed (position_of (E.state engine.old)) light (slice_index_or (spellings_at (E.state engine.old) light) index []) }
        ensures leads { LeadsBack result (E.state engine.old) (E.state engine.new) }
    {
        let board = board(engine);
        let blanks = blanks_of(&board, &board.light(light));
        place_word(engine, light, index);
        Trial { light, blanks }
    }

    /// Takes the word back.
    pub fn take_back<E: Feasible>(&self, engine: &mut E)
        requires { (before : State) × LeadsBack self.now before (E.state engine.old) }
        ensures { (before : State) → LeadsBack self.now before (E.state engine.old) → E.state engine.new ≡ before }
    {
        clear_blanks(engine, self);
    }
}
