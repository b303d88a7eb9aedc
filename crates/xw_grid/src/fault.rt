//! Errors of grids and their edits.
use std::alloc::{AllocError, AllocFailed};

/// Why a grid size or an edit was refused.
#[derive(Clone, Copy, Debug, PartialEq, Eq)]
pub enum GridFault {
    /// A side is not from 1 to 255 cells long.
    Size,
    /// The cell is outside the grid.
    OutOfGrid,
    /// The cell is a block.
    OnBlock,
    /// A cell of the orbit holds a letter, so the orbit cannot become blocks.
    Occupied,
    /// Quarter-turn symmetry needs a square grid.
    NotSquare,
    /// The edge is on the border of the grid, so it cannot be barred.
    Border,
    /// An allocation failed.
    Memory,
}

impl From<AllocError> for GridFault {
    ghost use Rattle.std.specs.Prelude.{◌≡◌};
    ghost use Rattle.xw_grid.specs.declared.fault.GridFault.TheVariants.{Memory};

    ghost from_gives = { λ _ fault. fault ≡ Memory };

    fn from(_: AllocError) -> GridFault {
        GridFault::Memory
    }
}

impl<T: Drop> From<AllocFailed<T>> for GridFault {
    ghost use Rattle.std.specs.Prelude.{◌≡◌};
    ghost use Rattle.xw_grid.specs.declared.fault.GridFault.TheVariants.{Memory};

    ghost from_gives = { λ _ fault. fault ≡ Memory };

    fn from(_: AllocFailed<T>) -> GridFault {
        GridFault::Memory
    }
}
