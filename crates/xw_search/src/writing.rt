//! Writes a list of cells in one edit.
ghost use Rattle.std.specs.Prelude.{◌≡◌, All};
ghost use Rattle.xw_search.specs.Position.{DiffersInEntries};
ghost use Rattle.xw_search.specs.Writing.{entries_of, CanBeWritten, by_index, written_in};

use xw_feas::edit::Edit;
use xw_feas::feasible::Feasible;
use xw_grid::cell::Cell;
use xw_letters::letter::Letter;

/// Writes a list of open cells in one edit.
pub fn write<E: Feasible>(engine: &mut E, list: &[(Cell, Option<Letter>)])
    requires { All (CanBeWritten (E.state engine.old).grid) list.now }
    ensures entries { entries_of (E.state engine.new) ≡ written_in (entries_of (E.state engine.old)) (by_index (E.state engine.old).grid list.now) }
    ensures rest { DiffersInEntries (E.state engine.old) (E.state engine.new) }
    ensures count { E.placed engine.new ≡ E.placed engine.old }
{
    let _ = engine.edit(&Edit::Write(list));
}
