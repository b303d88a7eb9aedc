//! Makes the changes of a replay over a draft of the grid.
//!
//! Each edit of the grid updates the answers of the engine, and each block renumbers all lights. A session's file can
//! have thousands of these edits. So a replay makes them in a copy of the grid, and hands the copy to the engine before
//! a line that needs it. If the engine cannot take the copy, the session is as it was before, and the lines are executed
//! one by one; so reports of refused lines are kept until then.
ghost use Rattle.std.specs.Prelude.{◌≡◌, ◌+◌, ◌<◌, ◌^◌, length, true, false, Result, IfSome, IfNone};
ghost use Rattle.xw_grid.specs.Light.{lights_of};
ghost use Rattle.xw_grid.specs.Puzzle.{texts_view};
ghost use Rattle.xw_feas.specs.State.{action_of, letter_set, cell_cleared, word_placed, block_toggled, bar_toggled, symmetry_chosen};
ghost use Rattle.xw_commands.specs.declared.change.Change.{Change as SpecChange};
ghost use Rattle.xw_commands.specs.declared.command.Command.TheVariants as commands;
ghost use Rattle.xw_session.specs.Answer.{Asks, IsExecuted};
ghost use Rattle.xw_session.specs.Drafting.{IsMade, IsRedrawn, is_report as spec_is_report};
ghost use Rattle.xw_session.specs.Resuming.{IsDrawn};
ghost use Rattle.xw_session.specs.Reply.{start_named as spec_start_named};
ghost use Rattle.xw_session.specs.State.{SessionState, drawn};

use crate::resuming::{command_in, note};
use crate::session::Session;
use crate::session::asking::Asked;
use crate::session::changing::start_in;
use crate::session::ending::Ended;
use std::alloc::Global;
use std::marker::Model;
use xw_answers::numbering::{forget_block, start_named};
use xw_answers::refusal::CommandRefusal;
use xw_commands::command::LightArg;
use xw_commands::{Change, Command, Query};
use xw_feas::edit::{Edit, Refusal};
use xw_feas::feasible::Feasible;
use xw_feas::place::place;
use xw_grid::puzzle::{Puzzle, Texts};
use xw_grid::{Cell, Circles, Clues, Grid, LightName, Lights, Side, Symmetry};
use xw_letters::Letter;
use xw_text::lines::first_line;

/// With fewer edits of the grid than this, one update is not faster, since the engine then computes all its answers
/// anew.
const FEW: usize = 16;

/// To find all lights takes as long as to look for about as many.
const MANY: usize = 32;

/// Writes a letter into a cell. The lights stay.
fn set_letter(grid: &mut Grid, cell: Cell, letter: Letter) -> Result<(), Refusal>
    ensures made { IsMade grid.old (letter_set cell letter) result grid.new }
    ensures lights { lights_of grid.new ≡ lights_of grid.old }
{
    grid.well_formed();
    grid.set(cell, letter)?;
    Ok(())
}

/// Empties a cell. The lights stay.
fn clear_cell(grid: &mut Grid, cell: Cell) -> Result<(), Refusal>
    ensures made { IsMade grid.old (cell_cleared cell) result grid.new }
    ensures lights { lights_of grid.new ≡ lights_of grid.old }
{
    grid.well_formed();
    grid.clear(cell)?;
    Ok(())
}

/// A copy of the grid that a replay edits, its lights if they were found, and what is known of the numbers of its cells.
/// `asked` counts the lines that asked for a light since the lights last changed, and `edits` the edits.
#[derive(Drop)]
struct Draft {
    alloc: Global,
    grid: Grid,
    lights: Option<Lights>,
    known: Vec<Option<bool>>,
    asked: usize,
    edits: usize,
}

impl Model for Draft {
    ghost use Rattle.std.specs.Prelude.{◌≡◌, IfSome};
    ghost use Rattle.xw_grid.specs.Grid.{Grid};
    ghost use Rattle.xw_grid.specs.Light.{lights_of};
    ghost use Rattle.xw_answers.specs.Numbering.{AreNumbered};

    ghost Value = { Grid };

    ghost view = { λ draft. draft.grid };

    ghost invariant = { λ draft. IfSome draft.lights (λ lights. lights ≡ lights_of draft.grid) × AreNumbered draft.grid draft.known.items };
}

impl Draft {
    fn new(alloc: Global, grid: Grid) -> Draft
        ensures { result ≡ grid }
    {
        Draft {
            alloc,
            grid,
            lights: None,
            known: Vec::new(alloc),
            asked: 0,
            edits: 0,
        }
    }

    /// Finds the lights, unless they are known or an allocation fails.
    fn find_lights(&mut self)
        ensures { self.new ≡ self.old }
    {
        if self.lights.is_none() {
            self.lights = Lights::of(self.alloc, &self.grid).ok();
        }
    }

    /// Counts a question for a light, and finds the lights if there were many.
    fn ask(&mut self)
        ensures { self.new ≡ self.old }
    {
        if self.asked < MANY {
            self.asked += 1;
            return;
        }
        self.find_lights();
    }

    /// Returns the first cell of the light that a command names.
    fn start(&mut self, named: LightArg) -> Option<Cell>
        ensures start { result ≡ spec_start_named self.old named }
        ensures same { self.new ≡ self.old }
    {
        self.ask();
        match &self.lights {
            Some(lights) => start_in(&self.grid, lights, named),
            None => start_named(self.alloc, &self.grid, &mut self.known, named),
        }
    }

    /// Places a word in a light. Returns `None` if an allocation fails.
    fn place(&mut self, name: LightName, word: &[u8]) -> Option<Result<(), Refusal>>
        ensures some { IfSome result (λ made. IsMade self.old (word_placed name word.now) made self.new) }
        ensures none { IfNone result (self.new ≡ self.old) }
    {
        self.find_lights();
        self.known.clear();
        match &self.lights {
            Some(lights) => Some(place(&mut self.grid, lights, name, word)),
            None => None,
        }
    }

    /// Toggles the block of a cell.
    fn toggle_block(&mut self, cell: Cell) -> Result<(), Refusal>
        ensures { IsMade self.old (block_toggled cell) result self.new }
    {
        self.lights = None;
        self.asked = 0;
        forget_block(&self.grid, &mut self.known, cell);
        self.grid.toggle_block(cell)?;
        Ok(())
    }

    /// Toggles the bar of an edge.
    fn toggle_bar(&mut self, cell: Cell, side: Side) -> Result<(), Refusal>
        ensures { IsMade self.old (bar_toggled cell side) result self.new }
    {
        self.lights = None;
        self.asked = 0;
        self.known.clear();
        self.grid.toggle_bar(cell, side)?;
        Ok(())
    }

    /// Chooses the symmetry of the grid.
    fn set_symmetry(&mut self, kind: Symmetry) -> Result<(), Refusal>
        ensures { IsMade self.old (symmetry_chosen kind) result self.new }
    {
        self.lights = None;
        self.asked = 0;
        self.known.clear();
        self.grid.set_symmetry(kind)?;
        Ok(())
    }

    /// Makes an edit. Returns `None`, and changes nothing, if it needs the engine, or if an allocation fails.
    fn make(&mut self, edit: &Edit<'_>) -> Option<Result<(), Refusal>>
        ensures some { IfSome result (λ made. IsMade self.old (action_of edit.now) made self.new) }
        ensures none { IfNone result (self.new ≡ self.old) }
    {
        self.edits = self.edits.saturating_add(1);
        match *edit {
            Edit::Set(cell, letter) => {
                self.known.clear();
                Some(set_letter(&mut self.grid, cell, letter))
            }
            Edit::Clear(cell) => {
                self.known.clear();
                Some(clear_cell(&mut self.grid, cell))
            }
            Edit::Place(name, word) => self.place(name, word),
            Edit::Block(cell) => Some(self.toggle_block(cell)),
            Edit::Bar(cell, side) => Some(self.toggle_bar(cell, side)),
            Edit::Symmetry(kind) => Some(self.set_symmetry(kind)),
            Edit::Write(_) | Edit::Add(..) | Edit::Strike(_) | Edit::Least(_) => None,
        }
    }

    /// Makes the edit that a change asks for. Returns `None`, and changes nothing, as `make` does.
    fn edit(&mut self, edit: &Edit<'_>) -> Option<Ended>
        ensures some { IfSome result (λ ended. (state : SessionState) (change : SpecChange) → Asks (drawn state self.old) change (Ok edit.now) → IsExecuted (drawn state self.old) (commands.Change change) ended (drawn state self.new)) }
        ensures none { IfNone result (self.new ≡ self.old) }
    {
        match self.make(edit)? {
            Ok(()) => Some(Ok(())),
            Err(refusal) => Some(Err(CommandRefusal::Engine(refusal))),
        }
    }
}

/// Returns whether a query is a report. No session refuses one.
fn is_report(query: &Query<'_>) -> bool
    ensures { result ≡ spec_is_report query.now }
{
    matches!(query, Query::Tell(_))
}

/// Lines that were executed over a draft: how many, how many of them were refused, the reports of these, and the text
/// after them.
#[derive(Drop)]
pub(crate) struct Stretch<'a> {
    pub(crate) taken: usize,
    pub(crate) refused: usize,
    pub(crate) reports: Vec<u8>,
    pub(crate) rest: &'a [u8],
}

impl<E: Feasible> Session<E> {
    /// Makes a change over a draft. Returns `None`, and changes nothing, if it needs the engine, or if an allocation
    /// fails.
    fn draft_change(&mut self, draft: &mut Draft, change: Change<'_>) -> Option<Ended>
        ensures some { IfSome result (λ ended. IsExecuted (drawn self.old draft.old) (commands.Change change.entry) ended (drawn self.new draft.new)) }
        ensures none { IfNone result (drawn self.new draft.new ≡ drawn self.old draft.old) }
        ensures engine { self.new.engine ≡ self.old.engine }
        ensures begun { self.new.begun ≡ self.old.begun }
    {
        match self.begin(Some(&draft.grid), change) {
            Ok(Asked::Nothing) => Some(Ok(())),
            Ok(Asked::Edit(edit)) => draft.edit(&edit),
            Ok(Asked::Clue(named, text)) => Some(self.keep_clue(named, draft.start(named), text)),
            Ok(Asked::Erase(_) | Asked::Size(..)) => None,
            Err(refusal) => Some(Err(refusal)),
        }
    }

    /// Executes a command over a draft. Returns `None`, and changes nothing, if it needs the engine, or if an allocation
    /// fails.
    fn draft_command(&mut self, draft: &mut Draft, command: Command<'_>) -> Option<Ended>
        ensures some { IfSome result (λ ended. IsExecuted (drawn self.old draft.old) command.entry ended (drawn self.new draft.new)) }
        ensures none { IfNone result (drawn self.new draft.new ≡ drawn self.old draft.old) }
        ensures engine { self.new.engine ≡ self.old.engine }
        ensures begun { self.new.begun ≡ self.old.begun }
    {
        match command {
            Command::Ask(query) if is_report(&query) => Some(Ok(())),
            Command::Change(change) => self.draft_change(draft, change),
            _ => None,
        }
    }

    /// Executes a line of a file over a draft, and adds its report if it is refused. Returns 1 if it was refused, 0
    /// otherwise. Returns `None`, and changes nothing, if it is no command, if it needs the engine, or if an allocation
    /// fails.
    fn draft_line(
        &mut self,
        draft: &mut Draft,
        file: &str,
        number: usize,
        line: &[u8],
        reports: &mut Vec<u8>,
    ) -> Option<usize>
        ensures some { IfSome result (λ refused. IsDrawn file.now number (drawn self.old draft.old) line.now refused (drawn self.new draft.new) reports.old.items reports.new.items) }
        ensures none { IfNone result ((drawn self.new draft.new ≡ drawn self.old draft.old) × (reports.new.items ≡ reports.old.items)) }
        ensures engine { self.new.engine ≡ self.old.engine }
        ensures begun { self.new.begun ≡ self.old.begun }
    {
        match command_in(line) {
            Ok(Some(command)) => {
                let ended = self.draft_command(draft, command)?;
                note(self.alloc, reports, file, number, ended)
            }
            Ok(None) => Some(0),
            Err(_fault) => None,
        }
    }

    /// Executes the first lines of a text over a draft, up to the first that it cannot execute. `before` lines of the
    /// file come before them.
    fn draw<'a>(
        &mut self,
        draft: &mut Draft,
        file: &str,
        before: usize,
        text: &'a [u8],
    ) -> Stretch<'a>
        requires { before + length text.now < 2 ^ 64 }
        ensures done { IsRedrawn file.now before text.now (drawn self.old draft.old) result.taken result.refused result.reports.items result.rest.now (drawn self.new draft.new) }
        ensures engine { self.new.engine ≡ self.old.engine }
        ensures begun { self.new.begun ≡ self.old.begun }
    {
        let mut reports = Vec::new(self.alloc);
        let mut rest = text;
        let mut taken = 0;
        let mut refused = 0;
        while !rest.is_empty() {
            let (line, after) = first_line(rest);
            let number = before + taken + 1;
            let Some(more) = self.draft_line(draft, file, number, line, &mut reports) else {
                break;
            };
            refused += more;
            taken += 1;
            rest = after;
        }
        Stretch {
            taken,
            refused,
            reports,
            rest,
        }
    }

    /// Puts the parts of a puzzle other than the grid back.
    fn restore(&mut self, texts: Texts, clues: Clues, circles: Circles, is_watched: bool)
        ensures { self.new ≡ record self.old { texts = texts_view texts; clues = clues; circles = circles; is_watched = is_watched } }
    {
        self.texts = texts;
        self.clues = clues;
        self.circles = circles;
        self.is_watched = is_watched;
    }

    /// Hands a draft to the engine. Returns false, and changes nothing, if an allocation fails.
    fn take(&mut self, draft: Draft) -> bool
        ensures done { result ≡ true → self.new ≡ drawn self.old draft }
        ensures same { result ≡ false → self.new ≡ self.old }
    {
        let is_taken = self.engine.regrid(draft.grid).is_ok();
        self.hints.forget_if(is_taken);
        is_taken
    }

    /// Executes the first lines of a text with one update of the engine; `before` lines of the file come before them.
    /// If there are too few edits among them, or if an allocation fails, it changes nothing. Then `singly` is how many
    /// lines are to be executed one by one before the next try. It is 0 at the beginning.
    pub(crate) fn redraw<'a>(
        &mut self,
        file: &str,
        before: usize,
        text: &'a [u8],
        singly: &mut usize,
    ) -> Option<Stretch<'a>>
        requires { before + length text.now < 2 ^ 64 }
        ensures some { IfSome result (λ drew. IsRedrawn file.now before text.now self.old drew.taken drew.refused drew.reports.items drew.rest.now self.new) }
        ensures many { IfSome result (λ drew. 0 < drew.taken) }
        ensures none { IfNone result (self.new ≡ self.old) }
    {
        if *singly > 0 {
            *singly -= 1;
            return None;
        }
        let Puzzle {
            grid,
            texts,
            clues,
            circles,
        } = self.copied().ok()?;
        let is_watched = self.is_watched;
        let mut draft = Draft::new(self.alloc, grid);
        let drew = self.draw(&mut draft, file, before, text);
        *singly = if draft.edits < FEW { drew.taken } else { 0 };
        if *singly > 0 || drew.taken == 0 || !self.take(draft) {
            self.restore(texts, clues, circles, is_watched);
            return None;
        }
        Some(drew)
    }
}
