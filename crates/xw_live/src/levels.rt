//! The placements of a search, which can be taken back.
use std::alloc::{AllocError, Global};
use std::snapshot::Snapshot;
use xw_feas::pending::Pending;
use xw_grid::grid::Grid;
use xw_net::level::Level;
use xw_net::net::Net;
use xw_net::trying::Trail;

/// A placement of a search: the grid before it, and what it changed in the net. `net` takes no memory: it tells the prover the net
/// before.
#[derive(Drop)]
pub struct Placement {
    pub(crate) grid: Grid,
    pub(crate) level: Level,
    pub(crate) net: Snapshot<Net>,
}

/// The placements of a search, the last one last, with those that were taken back, whose memory serves others.
#[derive(Drop)]
pub struct Levels {
    alloc: Global,
    pub(crate) made: Vec<Placement>,
    pub(crate) spare: Vec<Placement>,
    pub(crate) trail: Trail,
}

impl Levels {
    ghost use Rattle.std.specs.Prelude.{◌≡◌, ◌≢◌, ◌*◌, [], All, length, IfOk, OnOk, OnErr};
    ghost use Rattle.xw_grid.specs.Grid.{Grid as SpecGrid};
    ghost use Rattle.xw_live.specs.Levels.{HasSizeOf, IsLastOf, seen_after};
    ghost use Rattle.xw_net.specs.Seen.{AreKeptOrNone};

    /// No placements.
    pub fn new(alloc: Global) -> Levels
        ensures made { result.made.items ≡ [] }
        ensures spare { result.spare.items ≡ [] }
        ensures seen { result.trail.seen.items ≡ [] }
    {
        Levels {
            alloc,
            made: Vec::new(alloc),
            spare: Vec::new(alloc),
            trail: Trail::new(alloc),
        }
    }

    /// Forgets all placements, and keeps their memory and the remembered words.
    pub fn clear(&mut self)
        ensures made { self.new.made.items ≡ [] }
        ensures spare { (grid : SpecGrid) → All (HasSizeOf grid) self.old.made.items → All (HasSizeOf grid) self.old.spare.items → All (HasSizeOf grid) self.new.spare.items }
        ensures trail { self.new.trail ≡ self.old.trail }
    {
        while let Some(placement) = self.made.pop() {
            let _ = self.spare.push(placement);
        }
    }

    /// Forgets all placements before an edit. Their memory and the remembered words stay if they fit the grid after the edit: one
    /// that changes the lights or adds a word changes how long rows are, and frees them.
    pub fn clear_before(&mut self, edit: &Pending<'_>)
        ensures made { self.new.made.items ≡ [] }
        ensures spare { (grid : SpecGrid) → All (HasSizeOf grid) self.old.made.items → All (HasSizeOf grid) self.old.spare.items → All (HasSizeOf grid) self.new.spare.items }
        ensures seen { self.new.trail.seen.items ≡ seen_after edit.now self.old.trail.seen.items }
    {
        match edit {
            Pending::InPlace(_) => self.clear(),
            Pending::Shape(_) | Pending::New(..) => *self = Levels::new(self.alloc),
        }
    }

    /// Forgets all placements before a grid of the same shape replaces another one. The remembered words stay if the grids have
    /// the same width: the width decides where the slots of a light are.
    pub fn clear_between(&mut self, before: &Grid, after: &Grid)
        ensures made { self.new.made.items ≡ [] }
        ensures spare { (grid : SpecGrid) → All (HasSizeOf grid) self.old.made.items → All (HasSizeOf grid) self.old.spare.items → All (HasSizeOf grid) self.new.spare.items }
        ensures kept { after.now.width ≡ before.now.width → self.new.trail.seen.items ≡ self.old.trail.seen.items }
        ensures forgotten { after.now.width ≢ before.now.width → self.new.trail.seen.items ≡ [] }
    {
        self.clear();
        if after.width() != before.width() {
            self.trail = Trail::new(self.alloc);
        }
    }

    /// A placement with memory for the grid, which is kept in it.
    fn take(&mut self, grid: &Grid, net: &Net) -> Result<Placement, AllocError>
        requires { All (HasSizeOf grid.now) self.old.spare.items }
        ensures grid { IfOk result (λ placement. placement.grid ≡ grid.now) }
        ensures net { IfOk result (λ placement. placement.net.value ≡ net.now) }
        ensures spare { All (HasSizeOf grid.now) self.new.spare.items }
        ensures rest { self.new ≡ record self.old { spare = self.new.spare } }
    {
        if let Some(mut placement) = self.spare.pop() {
            placement.grid.copy_from(grid);
            placement.net = Snapshot::of(net);
            return Ok(placement);
        }
        let Ok(copy) = grid.copy() else {
            return Err(AllocError);
        };
        Ok(Placement {
            grid: copy,
            level: Level::new(self.alloc),
            net: Snapshot::of(net),
        })
    }

    /// Begins a placement at a grid with a net. Returns an error if an allocation fails, and then begins none.
    pub fn begin(&mut self, grid: &Grid, net: &Net) -> Result<(), AllocError>
        requires { All (HasSizeOf grid.now) self.old.spare.items }
        ensures last { OnOk result (IsLastOf grid.now net.now self.old.made.items self.new.made.items) }
        ensures none { OnErr result (self.new.made.items ≡ self.old.made.items) }
        ensures spare { All (HasSizeOf grid.now) self.new.spare.items }
        ensures long { OnOk result (length self.new.trail.seen.items ≡ 52 * length grid.now.squares) }
        ensures kept { length self.old.trail.seen.items ≡ 52 * length grid.now.squares → self.new.trail.seen.items ≡ self.old.trail.seen.items }
        ensures seen { AreKeptOrNone (length grid.now.squares) self.old.trail.seen.items self.new.trail.seen.items }
    {
        self.trail.begin(grid.size())?;
        let mut placement = self.take(grid, net)?;
        placement.level.forget(&mut self.trail);
        placement.level.begin(net)?;
        self.made.push(placement)?;
        Ok(())
    }
}
