//! Turns commands into edits of the engine, and answers them.
ghost use Rattle.std.specs.Prelude.{◌≡◌, IfOk};
ghost use Rattle.xw_lines.specs.Sends.{Sends};
ghost use Rattle.xw_session.specs.Answer.{AnswersEdit, Edits, IsBegun, ended_by, lines_in, lines_reply, watched_lines};
ghost use Rattle.xw_session.specs.State.{SessionState, grid_seen, seen};
ghost use Rattle.xw_commands.specs.declared.change.Change.{Change as SpecChange};
ghost use Rattle.xw_commands.specs.declared.change.Change.TheVariants as changes;

use crate::lookup::light_name;
use crate::session::ending::{Ended, accepted};
use crate::session::{Session, cell_in};
use xw_answers::lists;
use xw_answers::refusal::CommandRefusal;
use xw_commands::Change;
use xw_commands::command::{CellArg, LightArg};
use xw_feas::changed::Changed;
use xw_feas::edit::{Edit, Refusal};
use xw_feas::feasible::Feasible;
use xw_grid::{Grid, Side};
use xw_letters::Letter;
use xw_lines::device::{Sink, WriteFailed};
use xw_words::WordFault;

/// What a change asks of the engine, or of a draft.
#[derive(Clone, Copy)]
pub enum Asked<'a> {
    /// Nothing: it is made.
    Nothing,
    /// An edit.
    Edit(Edit<'a>),
    /// To replace the clue of a light.
    Clue(LightArg, &'a [u8]),
    /// To empty the cells of a light.
    Erase(LightArg),
    /// An empty grid of this width and height.
    Size(u64, u64),
}

/// Writes the changed cells of an edit if the watch is on.
fn write_watched<W: Sink>(
    sink: &mut W,
    changed: Changed<'_>,
    is_watched: bool,
) -> Result<(), WriteFailed>
    ensures { Sends W.transcript W.failures sink.old sink.new result (watched_lines is_watched changed.entry) }
{
    if is_watched {
        lists::write_changes(sink, changed)
    } else {
        Ok(())
    }
}

/// Writes what an edit changed, if the watch is on, or returns its refusal.
fn write_edited<W: Sink>(
    sink: &mut W,
    edited: Result<Changed<'_>, Refusal>,
    is_watched: bool,
) -> Result<Ended, WriteFailed>
    ensures sends { (state : SessionState) → Sends W.transcript W.failures sink.old sink.new result (lines_in (lines_reply (watched_lines is_watched) edited.entry state)) }
    ensures ends { (state : SessionState) → IfOk result (λ ended. ended ≡ ended_by (lines_reply (watched_lines is_watched) edited.entry state)) }
{
    match edited {
        Ok(changed) => accepted(write_watched(sink, changed, is_watched)),
        Err(refusal) => Ok(Err(CommandRefusal::Engine(refusal))),
    }
}

fn set<'a>(grid: &Grid, spot: CellArg, letter: u8) -> Result<Asked<'a>, CommandRefusal>
    ensures { (state : SessionState) → state.engine.grid ≡ grid.now → IsBegun state (changes.Set spot letter) result state }
{
    let Some(letter) = Letter::of(letter) else {
        return Err(CommandRefusal::Engine(Refusal::Word(WordFault::BadLetter(1))));
    };
    Ok(Asked::Edit(Edit::Set(cell_in(grid, spot)?, letter)))
}

fn clear<'a>(grid: &Grid, spot: CellArg) -> Result<Asked<'a>, CommandRefusal>
    ensures { (state : SessionState) → state.engine.grid ≡ grid.now → IsBegun state (changes.Clear spot) result state }
{
    Ok(Asked::Edit(Edit::Clear(cell_in(grid, spot)?)))
}

fn place<'a>(grid: &Grid, named: LightArg, word: &'a [u8]) -> Result<Asked<'a>, CommandRefusal>
    ensures { (state : SessionState) → state.engine.grid ≡ grid.now → IsBegun state (changes.Place named word.now) result state }
{
    grid.well_formed();
    match light_name(named) {
        Some(name) => Ok(Asked::Edit(Edit::Place(name, word))),
        None => Err(CommandRefusal::Engine(Refusal::NoLight)),
    }
}

fn block<'a>(grid: &Grid, spot: CellArg) -> Result<Asked<'a>, CommandRefusal>
    ensures { (state : SessionState) → state.engine.grid ≡ grid.now → IsBegun state (changes.Block spot) result state }
{
    Ok(Asked::Edit(Edit::Block(cell_in(grid, spot)?)))
}

fn bar<'a>(grid: &Grid, spot: CellArg, side: Side) -> Result<Asked<'a>, CommandRefusal>
    ensures { (state : SessionState) → state.engine.grid ≡ grid.now → IsBegun state (changes.Bar spot side) result state }
{
    Ok(Asked::Edit(Edit::Bar(cell_in(grid, spot)?, side)))
}

/// Returns how a change ended that asks for nothing more.
fn for_end<'a>(ended: Ended) -> Result<Asked<'a>, CommandRefusal>
    ensures { (state : SessionState) (change : SpecChange) (after : SessionState) → Edits state change ended after → IsBegun state change result after }
{
    match ended {
        Ok(()) => Ok(Asked::Nothing),
        Err(refusal) => Err(refusal),
    }
}

impl<E: Feasible> Session<E> {
    /// The grid of a draft, or that of the engine if there is no draft.
    pub(crate) fn grid_of<'a>(&'a self, draft: Option<&'a Grid>) -> &'a Grid
        ensures { result.now ≡ grid_seen self.now.engine.grid draft.entry }
    {
        match draft {
            Some(grid) => grid,
            None => self.engine.grid(),
        }
    }

    /// Begins a change: makes it, or returns what it asks of the engine, or of a draft. The grid is that of the draft,
    /// if there is one.
    pub(crate) fn begin<'a>(
        &mut self,
        draft: Option<&Grid>,
        change: Change<'a>,
    ) -> Result<Asked<'a>, CommandRefusal>
        ensures begun { IsBegun (seen self.old draft.entry) change.entry result (seen self.new draft.entry) }
        ensures engine { self.new.engine ≡ self.old.engine }
        ensures words { self.new.begun ≡ self.old.begun }
    {
        let grid = self.grid_of(draft);
        match change {
            Change::Size(width, height) => Ok(Asked::Size(width, height)),
            Change::Symmetry(kind) => Ok(Asked::Edit(Edit::Symmetry(kind))),
            Change::Add(word, grade) => Ok(Asked::Edit(Edit::Add(word.bytes(), grade))),
            Change::Strike(word) => Ok(Asked::Edit(Edit::Strike(word.bytes()))),
            Change::Least(grade) => Ok(Asked::Edit(Edit::Least(grade))),
            Change::Set(spot, letter) => set(grid, spot, letter),
            Change::Clear(spot) => clear(grid, spot),
            Change::Place(named, word) => place(grid, named, word.bytes()),
            Change::Erase(named) => Ok(Asked::Erase(named)),
            Change::Block(spot) => block(grid, spot),
            Change::Bar(spot, side) => bar(grid, spot, side),
            Change::Clue(named, text) => Ok(Asked::Clue(named, text.bytes())),
            Change::Write(field, text) => for_end(self.write(field, text.bytes())),
            Change::Circle(spot) => for_end(self.toggle_circle(draft, spot)),
            Change::Watch(is_on) => for_end(self.watch(is_on)),
            Change::Put(putting, field, text) => {
                for_end(self.put(draft, putting, field, text.bytes()))
            }
        }
    }

    /// Applies an edit and answers it.
    pub(crate) fn answer_edit<W: Sink>(
        &mut self,
        edit: &Edit<'_>,
        sink: &mut W,
    ) -> Result<Ended, WriteFailed>
        ensures { AnswersEdit W.transcript W.failures self.old edit.now result self.new sink.old sink.new }
    {
        let is_watched = self.is_watched;
        write_edited(sink, self.engine.edit(edit), is_watched)
    }
}
