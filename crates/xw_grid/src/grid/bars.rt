//! Bars: whether an edge is barred, and toggling its orbit.
ghost use Rattle.std.specs.Prelude.{◌≡◌, ◌<◌, ◌&&◌, not, true, length, slice_get, All, Ok, Err, OnOk, IfErr, OnErr, IsOk};
ghost use Rattle.xw_grid.specs.Grid.{IsGrid, is_inside, is_edge, is_open, is_open_square, is_barred as spec_is_barred, beyond as spec_beyond};
ghost use Rattle.xw_grid.specs.Edit.{toggle_bar as spec_toggle_bar, with_bar, with_edges};
ghost use Rattle.xw_grid.specs.Orbit.{moved as spec_moved, images_of, IsEdgeBetween, AreEdgesBetween};

use crate::cell::{Cell, Edge, Side, Square};
use crate::fault::GridFault;
use crate::grid::Grid;
use crate::orbit::edge_between;

impl Grid {
    /// Whether an edge is barred; false on the border and outside the grid.
    pub fn is_barred(&self, cell: Cell, side: Side) -> bool
        ensures { result ≡ spec_is_barred self.now cell side }
    {
        if !self.contains(cell) || !self.contains(self.beyond(cell, side)) {
            return false;
        }
        let index = self.index_inside(cell);
        match side {
            Side::Right => self.right[index],
            Side::Below => self.below[index],
        }
    }

    /// Whether a cell and the next one on a side are open, with no bar between them.
    pub(crate) fn joins(&self, cell: Cell, side: Side) -> bool
        ensures { result ≡ ((is_open self.now cell && is_open self.now (spec_beyond side cell)) && not (spec_is_barred self.now cell side)) }
    {
        if !self.contains(cell) || self.is_last(cell, side) {
            return false;
        }
        let index = self.index_inside(cell);
        let next = self.index_inside(self.beyond(cell, side));
        let is_free = match side {
            Side::Right => !self.right[index],
            Side::Below => !self.below[index],
        };
        is_free && self.is_open_at(index) && self.is_open_at(next)
    }

    /// Whether a cell inside the grid is the last one towards a side.
    fn is_last(&self, cell: Cell, side: Side) -> bool
        requires { is_inside self.now cell ≡ true }
        ensures { result ≡ not (is_inside self.now (spec_beyond side cell)) }
    {
        match side {
            Side::Right => cell.col >= self.width,
            Side::Below => cell.row >= self.height,
        }
    }

    /// Whether the square at an index is open.
    fn is_open_at(&self, index: usize) -> bool
        requires { index < length self.now.squares }
        ensures { result ≡ is_open_square (slice_get self.now.squares index) }
    {
        matches!(self.squares[index], Square::Open(_))
    }

    /// Whether `toggle_bar` would succeed, or why it would not.
    pub fn judge_bar(&self, cell: Cell, side: Side) -> Result<(), GridFault>
        ensures ok { OnOk result (IsOk (spec_toggle_bar self.now cell side)) }
        ensures refused { IfErr result (λ fault. spec_toggle_bar self.now cell side ≡ Err fault) }
    {
        if !self.contains(cell) {
            return Err(GridFault::OutOfGrid);
        }
        if !self.contains(self.beyond(cell, side)) {
            return Err(GridFault::Border);
        }
        Ok(())
    }

    /// Bars the whole orbit of an edge if the edge is free, and otherwise removes all bars of the orbit.
    /// Returns `OutOfGrid`, then `Border` if the edge is on the border of the grid.
    pub fn toggle_bar(&mut self, cell: Cell, side: Side) -> Result<(), GridFault>
        ensures ok { OnOk result (spec_toggle_bar self.old cell side ≡ Ok self.new) }
        ensures refused { IfErr result (λ fault. spec_toggle_bar self.old cell side ≡ Err fault) }
        ensures same { OnErr result (self.new ≡ self.old) }
    {
        self.judge_bar(cell, side)?;
        self.turn_bar(cell, side);
        Ok(())
    }

    /// Toggles the orbit of an edge, as `toggle_bar` does where no rule refuses it.
    #[tactic(auto, using(crate::proofs::AcceptedLemmas::bar_accepted))]
    pub fn turn_bar(&mut self, cell: Cell, side: Side)
        requires { IsOk (spec_toggle_bar self.old cell side) }
        ensures { spec_toggle_bar self.old cell side ≡ Ok self.new }
    {
        let barred = !self.is_barred(cell, side);
        self.bar_orbit(cell, side, barred);
    }

    /// Bars the whole orbit of an edge, or removes all its bars.
    fn bar_orbit(&mut self, cell: Cell, side: Side, barred: bool)
        requires { is_edge self.old cell side ≡ true }
        ensures { self.new ≡ with_edges self.old cell side barred }
    {
        let edges = self.edges(cell, side);
        for edge in &edges {
            self.bar(*edge, barred);
        }
    }

    /// An edge and its images under one, two and three moves.
    fn edges(&self, cell: Cell, side: Side) -> [Edge; 4]
        requires { is_edge self.now cell side ≡ true }
        ensures between { AreEdgesBetween (images_of self.now cell) (images_of self.now (spec_beyond side cell)) result }
        ensures inside { All (λ edge. is_edge self.now edge.cell edge.side ≡ true) result }
        ensures grid { IsGrid self.now }
    {
        let _ = &self.width;
        let first = Edge { cell, side };
        let second = self.moved_edge(first);
        let third = self.moved_edge(second);
        [first, second, third, self.moved_edge(third)]
    }

    /// The image of an edge: the edge between the images of its two cells.
    fn moved_edge(&self, edge: Edge) -> Edge
        requires { is_edge self.now edge.cell edge.side ≡ true }
        ensures between { IsEdgeBetween (spec_moved self.now edge.cell) (spec_moved self.now (spec_beyond edge.side edge.cell)) result }
        ensures inside { is_edge self.now result.cell result.side ≡ true }
    {
        let _ = &self.width;
        let near = self.moved(edge.cell);
        let far = self.moved(self.beyond(edge.cell, edge.side));
        edge_between(near, far)
    }

    fn bar(&mut self, edge: Edge, barred: bool)
        requires { is_edge self.old edge.cell edge.side ≡ true }
        ensures { self.new ≡ with_bar self.old edge.cell edge.side barred }
    {
        let index = self.index_inside(edge.cell);
        match edge.side {
            Side::Right => self.right[index] = barred,
            Side::Below => self.below[index] = barred,
        }
    }

    /// The cell on the other side of an edge.
    #[tactic(auto, using(crate::proofs::GridLemmas::inside_steps))]
    fn beyond(&self, cell: Cell, side: Side) -> Cell
        requires { is_inside self.now cell ≡ true }
        ensures { result ≡ spec_beyond side cell }
    {
        let _ = &self.width;
        match side {
            Side::Right => Cell {
                row: cell.row,
                col: cell.col + 1,
            },
            Side::Below => Cell {
                row: cell.row + 1,
                col: cell.col,
            },
        }
    }
}
