//! Circled cells.
ghost use Rattle.std.specs.Prelude.{◌≡◌, IfOk, OnOk, OnErr, IsOk, IsOkUnless, false, true, []};
ghost use Rattle.xw_grid.specs.EditLaws.{CirclesAreKept};
ghost use Rattle.xw_grid.specs.Clue.{is_circled, with_circle};

use crate::cell::Cell;
use crate::fault::GridFault;
use std::alloc::Global;
use std::collections::BTreeSet;
use std::marker::Model;

/// The set of circled cells of a puzzle.
#[derive(Drop)]
pub struct Circles {
    cells: BTreeSet<Cell>,
}

impl Model for Circles {
    ghost use Rattle.std.specs.Prelude.{List};
    ghost use Rattle.xw_grid.specs.declared.cell.Cell.{Cell as SpecCell};

    ghost Value = { List SpecCell };

    ghost view = { λ circles. circles.cells.keys };
}

impl Circles {
    /// No circles.
    pub fn new(alloc: Global) -> Circles
        ensures { result ≡ [] }
    {
        Circles {
            cells: BTreeSet::new(alloc),
        }
    }

    /// A copy of the set. Returns `Memory` if an allocation fails.
    pub fn copy(&self) -> Result<Circles, GridFault>
        ensures ok { IfOk result (λ copy. copy ≡ self.now) }
        ensures memory { IsOkUnless result GridFault.Memory }
    {
        Ok(Circles {
            cells: self.cells.clone()?,
        })
    }

    /// Whether the cell is circled.
    pub fn has(&self, cell: Cell) -> bool
        ensures { result ≡ is_circled self.now cell }
    {
        self.cells.contains(&cell)
    }

    /// Adds or removes the circle of a cell. Returns `Memory` if the allocation for a new circle
    /// fails; removing a circle, or adding one that is there, always succeeds.
    pub fn set(&mut self, cell: Cell, circled: bool) -> Result<(), GridFault>
        ensures ok { OnOk result (self.new ≡ with_circle self.old cell circled) }
        ensures err { OnErr result (self.new ≡ self.old) }
        ensures memory { IsOkUnless result GridFault.Memory }
        ensures freed { circled ≡ false → IsOk result }
        ensures kept { is_circled self.old cell ≡ true → IsOk result }
    {
        if circled {
            self.cells.insert(cell)?;
        } else {
            self.cells.remove(&cell);
        }
        Ok(())
    }
}

/// A cell is circled if and only if the last `set` for it circled it.
pub fn circles_are_kept()
    ensures { CirclesAreKept }
{}
