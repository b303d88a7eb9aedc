//! Worked examples of lights that have the same cells before and after an edit of the grid.
use xw_grid::cell::{Cell, Side, Symmetry};
use xw_grid::fault::GridFault;
use xw_grid::grid::Grid;
use xw_grid::lights::Lights;

#[test]
fn lights_of_a_parted_row(rt: HostRuntime) -> Result<(), GridFault> {
    let mut grid = Grid::new(rt.alloc(), 4, 1)?;
    let whole = Lights::of(rt.alloc(), &grid)?;
    grid.toggle_bar(Cell { row: 1, col: 2 }, Side::Right)?;
    let parted = Lights::of(rt.alloc(), &grid)?;
    assert!(rt; parted.same(1, &whole).is_none());
    grid.toggle_bar(Cell { row: 1, col: 2 }, Side::Right)?;
    let again = Lights::of(rt.alloc(), &grid)?;
    assert!(rt; whole.same(0, &again) == Some(0));
    Ok(())
}

/// Blocks in two corners, and then one in the centre.
#[test]
fn lights_around_blocks(rt: HostRuntime) -> Result<(), GridFault> {
    let mut grid = Grid::new(rt.alloc(), 3, 3)?;
    grid.set_symmetry(Symmetry::Half)?;
    grid.toggle_block(Cell { row: 1, col: 1 })?;
    let before = Lights::of(rt.alloc(), &grid)?;
    grid.toggle_block(Cell { row: 2, col: 2 })?;
    let after = Lights::of(rt.alloc(), &grid)?;
    assert!(rt; before.same(4, &after) == Some(2));
    assert!(rt; before.same(3, &after).is_none());
    assert!(rt; before.same(6, &after).is_none());
    Ok(())
}
