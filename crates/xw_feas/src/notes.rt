//! The notes of a position: what an edit changed.
ghost use Rattle.std.specs.Prelude.{◌≡◌, ℕ, ◌≤◌, false, List, length, map, take, filter, is_some, IfOk, IfSome, IfNone, IsOkUnless};
ghost use Rattle.xw_grid.specs.declared.lights.Light.{Light};
ghost use Rattle.xw_grid.specs.Grid.{cells};
ghost use Rattle.xw_feas.specs.Written.{with_entry_of, is_changed};

use crate::effect::Effect;
use crate::turned::LENGTHS;
use crate::written::Written;
use std::alloc::Global;
use xw_grid::cell::Cell;
use xw_grid::fault::GridFault;
use xw_grid::grid::Grid;
use xw_grid::lights::Lights;
use xw_letters::letter::Letter;

/// What the last edit changed, noted while it was made: the cells that it wrote, those that a list changed, and the lengths
/// in which a least grade made words active or left them out. `effect` says which of them to read.
#[derive(Drop)]
pub struct Notes {
    pub written: Written,
    pub noted: Vec<(Cell, Option<Letter>)>,
    pub turned: [bool; LENGTHS],
    pub effect: Effect,
}

impl Notes {
    ghost use Rattle.xw_feas.specs.Effect.{before_of, cells_of, fields_of, is_idle_by, is_shape_by, of_turned, turned_of, word_of};

    /// No notes, with space for a snapshot.
    pub(crate) fn of(noted: Vec<(Cell, Option<Letter>)>) -> Notes
        ensures { result.noted ≡ noted }
    {
        Notes {
            written: Written::none(),
            noted,
            turned: [false; LENGTHS],
            effect: Effect::Nothing,
        }
    }

    /// Whether no answer changed.
    pub fn is_idle(&self) -> bool
        ensures { result ≡ is_idle_by self.now.effect }
    {
        matches!(self.effect, Effect::Nothing)
    }

    /// The cells that the edit wrote, each with its entry before.
    pub fn cells(&self) -> &[(Cell, Option<Letter>)]
        ensures { result.now ≡ cells_of self.now }
    {
        match self.effect {
            Effect::Cells => self.written.as_slice(),
            Effect::Shape(_) => self.written.as_slice(),
            Effect::List(count) => &self.noted[..count.min(self.noted.len())],
            _ => &self.noted[..0],
        }
    }

    /// The lights before the edit, if it is one of the shape. Any other edit keeps them.
    pub fn before(&self) -> Option<&Lights>
        ensures some { IfSome result (λ before. (lights : List Light) → before_of lights self.now ≡ before.now) }
        ensures shape { is_some result ≡ is_shape_by self.now.effect }
        ensures none { IfNone result ((lights : List Light) → before_of lights self.now ≡ lights) }
    {
        match &self.effect {
            Effect::Shape(before) => Some(before),
            _ => None,
        }
    }

    /// For each length whether the least grade that was chosen made words active or left some out, and whether it may have made
    /// some active; none of another edit.
    pub fn turned(&self) -> Option<(&[bool], bool)>
        ensures some { IfSome result (λ turned. (lights : List Light) → fields_of lights self.now ≡ of_turned lights turned.0.now turned.1) }
        ensures none { IfNone result ((len : ℕ) → turned_of self.now len ≡ false) }
    {
        match self.effect {
            Effect::Least(back) => Some((&self.turned, back)),
            _ => None,
        }
    }

    /// The length and index of the word that was added or struck.
    pub fn word(&self) -> Option<(usize, usize)>
        ensures { result ≡ word_of self.now }
    {
        match self.effect {
            Effect::Word(len, index) => Some((len, index)),
            _ => None,
        }
    }

    /// Notes that no answer changes.
    pub(crate) fn note_nothing(&mut self)
        ensures effect { self.new.effect ≡ Effect.Nothing }
        ensures noted { self.new.noted ≡ self.old.noted }
    {
        self.effect = Effect::Nothing;
    }

    /// Notes all entries, before a list is written.
    pub(crate) fn note_all(&mut self, grid: &Grid)
        requires { length self.old.noted.items ≡ length grid.now.squares }
        ensures room { length self.new.noted.items ≡ length self.old.noted.items }
        ensures noted { self.new.noted.items ≡ map (with_entry_of grid.now) (cells grid.now) }
    {
        note(self.noted.as_mut_slice(), grid);
    }

    /// Keeps of the snapshot the cells whose entry changed, in front, and returns their number.
    pub(crate) fn keep_changed(&mut self, grid: &Grid) -> usize
        ensures room { length self.new.noted.items ≡ length self.old.noted.items }
        ensures count { result ≤ length self.new.noted.items }
        ensures kept { take result self.new.noted.items ≡ filter (is_changed grid.now) self.old.noted.items }
    {
        keep_changed(self.noted.as_mut_slice(), grid)
    }
}

/// Allocates the space for a snapshot of a grid. Returns `Memory` if the allocation fails.
pub fn make_noted(alloc: Global, grid: &Grid) -> Result<Vec<(Cell, Option<Letter>)>, GridFault>
    ensures ok { IfOk result (λ noted. length noted.items ≡ length grid.now.squares) }
    ensures memory { IsOkUnless result GridFault.Memory }
{
    let nowhere = Cell { row: 0, col: 0 };
    Ok(vec![in alloc; (nowhere, None); grid.squares().len()]?)
}

/// Stores each cell with its entry, in reading order.
fn note(noted: &mut [(Cell, Option<Letter>)], grid: &Grid)
    requires { length noted.old ≡ length grid.now.squares }
    ensures len { length noted.new ≡ length noted.old }
    ensures noted { noted.new ≡ map (with_entry_of grid.now) (cells grid.now) }
{
    for index in 0..grid.size() {
        let cell = grid.cell_at(index);
        noted[index] = (cell, grid.entry(cell));
    }
}

/// Whether the entry of a cell differs from this one.
pub(crate) fn is_changed(grid: &Grid, cell: Cell, noted: Option<Letter>) -> bool
    ensures { result ≡ is_changed grid.now (cell, noted) }
{
    match (noted, grid.entry(cell)) {
        (None, None) => false,
        (Some(old), Some(new)) => old.byte() != new.byte(),
        _ => true,
    }
}

/// Moves the cells whose entry changed to the front, in order, and returns their number.
fn keep_changed(noted: &mut [(Cell, Option<Letter>)], grid: &Grid) -> usize
    ensures len { length noted.new ≡ length noted.old }
    ensures count { result ≤ length noted.new }
    ensures kept { take result noted.new ≡ filter (is_changed grid.now) noted.old }
{
    let mut count = 0;
    for index in 0..noted.len() {
        let listed = noted[index];
        if is_changed(grid, listed.0, listed.1) {
            noted[count] = listed;
            count += 1;
        }
    }
    count
}
