//! Commands that change the grid's size, texts, clues, circles or the watch.
ghost use Rattle.std.specs.Prelude.{◌≡◌, IfOk, IfErr, OnOk, OnErr, IsOk, IsOkUnless, [], Some, Err, true, false, not};
ghost use Rattle.xw_grid.specs.Grid.{Grid as SpecGrid, is_inside, is_open as spec_is_open};
ghost use Rattle.xw_grid.specs.Light.{lights_of};
ghost use Rattle.xw_grid.specs.Clue.{is_circled, with_circle};
ghost use Rattle.xw_answers.specs.Escape.{has_nul as spec_has_nul};
ghost use Rattle.xw_session.specs.Reply.{light_named as spec_light_named, start_named, circle_toggled};
ghost use Rattle.xw_session.specs.State.{SessionState, cell_of, drawn, seen, with_text_in};
ghost use Rattle.xw_session.specs.Answer.{Edits};

use crate::lookup::light_name;
use crate::session::ending::Ended;
use crate::session::{Session, cell_in};
use std::alloc::Global;
use xw_answers::lookup::light_named;
use xw_answers::refusal::CommandRefusal;
use xw_commands::command::{CellArg, LightArg, TextField};
use xw_feas::edit::Refusal;
use xw_feas::feasible::Feasible;
use xw_grid::{Cell, Circles, Clues, Grid, GridFault, Light, Lights};

/// Returns whether a text has a NUL.
pub(crate) fn has_nul(text: &[u8]) -> bool
    ensures { result ≡ spec_has_nul text.now }
{
    text.iter().any(|byte| *byte == 0)
}

/// Copies a text. An empty text needs no allocation. Fails only if an allocation fails.
fn kept(alloc: Global, text: &[u8]) -> Result<Vec<u8>, GridFault>
    ensures ok { IfOk result (λ kept. kept.items ≡ text.now) }
    ensures memory { IsOkUnless result GridFault.Memory }
    ensures freed { text.now ≡ [] → IsOk result }
{
    if text.is_empty() {
        return Ok(Vec::new(alloc));
    }
    Ok(Vec::from_slice(alloc, text)?)
}

/// Returns the cell at a row and column, which must be an open one. Returns `OutOfGrid`, then `OnBlock`.
fn circle_cell(grid: &Grid, spot: CellArg) -> Result<Cell, Refusal>
    ensures ok { IfOk result (λ cell. (cell ≡ cell_of spot) × (is_inside grid.now (cell_of spot) ≡ true) × (spec_is_open grid.now (cell_of spot) ≡ true)) }
    ensures refused { (state : SessionState) → state.engine.grid ≡ grid.now → IfErr result (λ refusal. circle_toggled state (cell_of spot) ≡ Err (CommandRefusal.Engine refusal)) }
{
    let cell = cell_in(grid, spot)?;
    if !grid.is_open(cell) {
        return Err(Refusal::Grid(GridFault::OnBlock));
    }
    Ok(cell)
}

/// Returns the light that a command names in a grid with these lights.
fn light_in(grid: &Grid, lights: &Lights, named: LightArg) -> Option<Light>
    requires { lights.now ≡ lights_of grid.now }
    ensures { result ≡ spec_light_named grid.now named }
{
    grid.well_formed();
    match light_name(named) {
        Some(name) => light_named(lights, name),
        None => None,
    }
}

/// Returns the first cell of the light that a command names in a grid with these lights.
pub(crate) fn start_in(grid: &Grid, lights: &Lights, named: LightArg) -> Option<Cell>
    requires { lights.now ≡ lights_of grid.now }
    ensures { result ≡ start_named grid.now named }
{
    Some(light_in(grid, lights, named)?.start)
}

impl<E: Feasible> Session<E> {
    ghost use Rattle.xw_commands.specs.declared.change.Change.TheVariants as changes;

    /// Replaces the grid by an empty one of this size, and removes all clues and circles.
    pub(crate) fn resize(&mut self, width: u64, height: u64) -> Ended
        ensures { Edits self.old (changes.Size width height) result self.new }
    {
        let (Ok(width), Ok(height)) = (u32::try_from(width), u32::try_from(height)) else {
            return Err(CommandRefusal::Engine(Refusal::Grid(GridFault::Size)));
        };
        let grid = Grid::new(self.alloc, width, height)?;
        self.engine.regrid(grid)?;
        self.clues = Clues::new(self.alloc);
        self.circles = Circles::new(self.alloc);
        Ok(())
    }

    pub(crate) fn light(&self, named: LightArg) -> Option<Light>
        ensures { result ≡ spec_light_named self.now.engine.grid named }
    {
        light_in(self.engine.grid(), self.engine.lights(), named)
    }

    /// Returns the first cell of the light that a command names.
    fn start(&self, named: LightArg) -> Option<Cell>
        ensures { result ≡ start_named self.now.engine.grid named }
    {
        start_in(self.engine.grid(), self.engine.lights(), named)
    }

    pub(crate) fn set_clue(&mut self, named: LightArg, text: &[u8]) -> Ended
        ensures { Edits self.old (changes.Clue named text.now) result self.new }
    {
        self.keep_clue(named, self.start(named), text)
    }

    /// Replaces the clue of a light of any grid that begins at a cell, or refuses this if there is no light.
    pub(crate) fn keep_clue(&mut self, named: LightArg, start: Option<Cell>, text: &[u8]) -> Ended
        ensures done { (grid : SpecGrid) → start_named grid named ≡ start → Edits (drawn self.old grid) (changes.Clue named text.now) result (drawn self.new grid) }
        ensures engine { self.new.engine ≡ self.old.engine }
        ensures begun { self.new.begun ≡ self.old.begun }
    {
        let Some(start) = start else {
            return Err(CommandRefusal::Engine(Refusal::NoLight));
        };
        if has_nul(text) {
            return Err(CommandRefusal::NulByte);
        }
        self.clues.set(start, named.direction, text)?;
        Ok(())
    }

    /// Toggles the circle of a cell of the draft, or of the grid if there is no draft.
    pub(crate) fn toggle_circle(&mut self, draft: Option<&Grid>, spot: CellArg) -> Ended
        ensures done { Edits (seen self.old draft.entry) (changes.Circle spot) result (seen self.new draft.entry) }
        ensures engine { self.new.engine ≡ self.old.engine }
        ensures begun { self.new.begun ≡ self.old.begun }
    {
        let cell = circle_cell(self.grid_of(draft), spot)?;
        self.flip_circle(cell)?;
        Ok(())
    }

    /// Toggles the circle of a cell. Fails only if an allocation fails, and then changes nothing.
    fn flip_circle(&mut self, cell: Cell) -> Result<(), GridFault>
        ensures ok { OnOk result (self.new ≡ record self.old { circles = with_circle self.old.circles cell (not (is_circled self.old.circles cell)) }) }
        ensures err { OnErr result (self.new ≡ self.old) }
        ensures memory { IfErr result (λ fault. (fault ≡ GridFault.Memory) × (is_circled self.old.circles cell ≡ false)) }
    {
        let circled = self.circles.has(cell);
        self.circles.set(cell, !circled)
    }

    /// Replaces a text of the puzzle.
    pub(crate) fn write(&mut self, field: TextField, text: &[u8]) -> Ended
        ensures done { (grid : SpecGrid) → Edits (drawn self.old grid) (changes.Write field text.now) result (drawn self.new grid) }
        ensures engine { self.new.engine ≡ self.old.engine }
        ensures begun { self.new.begun ≡ self.old.begun }
    {
        if has_nul(text) {
            return Err(CommandRefusal::NulByte);
        }
        let kept = kept(self.alloc, text)?;
        self.keep_text(field, kept);
        Ok(())
    }

    pub(crate) fn keep_text(&mut self, field: TextField, kept: Vec<u8>)
        ensures { self.new ≡ record self.old { texts = with_text_in self.old.texts field kept.items } }
    {
        match field {
            TextField::Title => self.texts.title = kept,
            TextField::Author => self.texts.author = kept,
            TextField::Copyright => self.texts.copyright = kept,
            TextField::Notes => self.texts.notes = kept,
        }
    }

    pub(crate) fn watch(&mut self, is_on: bool) -> Ended
        ensures done { (grid : SpecGrid) → Edits (drawn self.old grid) (changes.Watch is_on) result (drawn self.new grid) }
        ensures engine { self.new.engine ≡ self.old.engine }
        ensures begun { self.new.begun ≡ self.old.begun }
    {
        self.is_watched = is_on;
        Ok(())
    }
}
