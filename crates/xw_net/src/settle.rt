//! Updates a net after an edit.
use crate::begin::prepare;
use crate::forget::forget_lights;
use crate::net::Net;
use crate::touch::{filled_in, touch};
use xw_feas::board::Board;
use xw_feas::notes::Notes;
use xw_grid::grid::Grid;
use xw_grid::lights::Lights;
use xw_words::rows::Rows;

impl Net {
    ghost use Rattle.std.specs.Prelude.{◌≡◌, ◌≤◌, None, length, vec_len};
    ghost use Rattle.xw_grid.specs.Light.{lights_of};
    ghost use Rattle.xw_feas.specs.Board.{board_of};
    ghost use Rattle.xw_net.specs.Brought.{CostsAtMost};
    ghost use Rattle.xw_net.specs.Begin.{is_read, filled_of};
    ghost use Rattle.xw_net.specs.Change.{before_of, cells_of, word_of, fields_of};
    ghost use Rattle.xw_net.specs.Filled.{AreLong};
    ghost use Rattle.xw_net.specs.Fit.{HasRoomBetween};
    ghost use Rattle.xw_net.specs.Net.{StoodFor};
    ghost use Rattle.xw_net.specs.Nets.{IsShaped, HasBits, IsQueue, IsLeft};
    ghost use Rattle.xw_net.specs.Opened.{arrays_of, IsOpening};
    ghost use Rattle.xw_net.specs.Room.{counts_of, HasRoom};
    ghost use Rattle.xw_net.specs.Update.{AreInside, CanBegin, IsBegun, IsSized, KeepsRoom, Opens, RevivesMoved, RevivesMovedInRegion, Revives, RevivesInRegion, StripsTo, StripsInRegion, Settles, SettlesInRegion};
    ghost use Rattle.xw_net.specs.Worklist.{is_marked, HasSeeds};

    /// Queues the lights that the edit touches. Marks as seeds the lights that may get words back,
    /// and the lights through a cell of a removed light that gets a letter back.
    fn open<R: Rows>(
        &mut self,
        rows: &mut R,
        grid: &Grid,
        board: &Board<'_>,
        lights: &Lights,
        change: &Notes,
    )
        requires cells { length grid.now.squares ≡ length board.now.open_cells }
        requires inside { AreInside grid.now (cells_of change.now) }
        requires lights { length lights.now ≡ length board.now.lights }
        requires long { AreLong board.now (R.entries rows.old) }
        requires sized { IsSized board.now (R.entries rows.old) self.old }
        requires queued { HasSeeds self.old.queue }
        requires seeds { HasSeeds self.old.chain }
        ensures entries { R.entries rows.new ≡ R.entries rows.old }
        ensures risen { R.ticks rows.old ≤ R.ticks rows.new }
        ensures sized { IsSized board.now (R.entries rows.old) self.new }
        ensures room { KeepsRoom self.old self.new }
        ensures rest { self.new ≡ record self.old { rows = self.new.rows; base = self.new.base; letters = self.new.letters; queue = self.new.queue; chain = self.new.chain } }
        ensures opening { IsOpening grid.now board.now lights.now (R.entries rows.old) (fields_of lights.now change.now) (filled_of grid.now board.now change.now) (arrays_of self.old) (arrays_of self.new) }
        ensures cost { CostsAtMost board.now (R.entries rows.old) (is_read board.now (word_of change.now) (is_marked self.new.queue.marks)) (R.ticks rows.old) (R.ticks rows.new) }
    {
        touch(
            grid,
            board,
            lights,
            change,
            &mut self.letters,
            &mut self.queue,
            &mut self.chain,
        );
        prepare(
            rows,
            board,
            change.word(),
            filled_in(grid, board, change),
            &mut self.queue,
            &mut self.base,
            &mut self.rows,
            &mut self.chain,
        );
    }
    /// Prepares a net, which is already adapted to the lights after an edit, for the revival.
    pub(crate) fn begin<R: Rows>(
        &mut self,
        rows: &mut R,
        grid: &Grid,
        board: &Board<'_>,
        lights: &Lights,
        change: &Notes,
    )
        requires { CanBegin grid.now board.now lights.now (R.entries rows.old) (fields_of lights.now change.now) self.old }
        ensures entries { R.entries rows.new ≡ R.entries rows.old }
        ensures risen { R.ticks rows.old ≤ R.ticks rows.new }
        ensures begun { IsBegun board.now (R.entries rows.old) self.old self.new }
        ensures opened { Opens grid.now (R.entries rows.old) (fields_of lights.now change.now) self.old self.new }
        ensures cost { CostsAtMost board.now (R.entries rows.old) (is_read board.now (word_of change.now) (is_marked self.new.queue.marks)) (R.ticks rows.old) (R.ticks rows.new) }
    {
        forget_lights(
            rows,
            board,
            lights,
            change,
            &mut self.held,
            &mut self.pending,
        );
        self.open(rows, grid, board, lights, change);
    }
    /// Revives a net that is already adapted to the lights after an edit.
    fn revive_moved<R: Rows>(
        &mut self,
        rows: &mut R,
        grid: &Grid,
        board: &Board<'_>,
        lights: &Lights,
        change: &Notes,
    )
        requires { CanBegin grid.now board.now lights.now (R.entries rows.old) (fields_of lights.now change.now) self.old }
        ensures entries { R.entries rows.new ≡ R.entries rows.old }
        ensures risen { R.ticks rows.old ≤ R.ticks rows.new }
        ensures shaped { IsShaped board.now self.new }
        ensures bits { HasBits board.now (R.entries rows.old) self.new }
        ensures queue { IsQueue self.new }
        ensures spare { self.new.spare ≡ self.old.spare }
        ensures room { KeepsRoom self.old self.new }
        ensures revived { RevivesMoved grid.now (R.entries rows.old) (fields_of lights.now change.now) board.now self.old self.new }
        ensures cost { RevivesMovedInRegion grid.now (R.entries rows.old) (fields_of lights.now change.now) self.old (R.ticks rows.old) (R.ticks rows.new) }
    {
        self.begin(rows, grid, board, lights, change);
        self.bring_back(board);
        self.unmark();
    }
    /// The first phase of an update. Along the chain of lights that starts at the edit, it puts
    /// back all base words, and all letters that the cells allow. Then the net has all that is
    /// feasible after the edit, and perhaps more.
    pub fn revive<R: Rows>(&mut self, rows: &mut R, change: &Notes, grid: &Grid, lights: &Lights)
        requires lights { lights.now ≡ lights_of grid.now }
        requires inside { AreInside grid.now (cells_of change.now) }
        requires long { AreLong (board_of grid.now) (R.entries rows.old) }
        requires cells { vec_len self.old.letters ≡ length grid.now.squares }
        requires stood { StoodFor (before_of lights.now change.now) (word_of change.now) (counts_of (R.entries rows.old)) self.old }
        requires room { HasRoomBetween (before_of lights.now change.now) lights.now (counts_of (R.entries rows.old)) self.old self.old.spare }
        ensures entries { R.entries rows.new ≡ R.entries rows.old }
        ensures risen { R.ticks rows.old ≤ R.ticks rows.new }
        ensures spare { self.new.spare ≡ None }
        ensures room { HasRoom lights.now (counts_of (R.entries rows.old)) self.new }
        ensures shaped { IsShaped (board_of grid.now) self.new }
        ensures bits { HasBits (board_of grid.now) (R.entries rows.old) self.new }
        ensures queue { IsQueue self.new }
        ensures revived { Revives grid.now (R.entries rows.old) (fields_of lights.now change.now) self.old self.new }
        ensures cost { RevivesInRegion grid.now (R.entries rows.old) (fields_of lights.now change.now) self.old (R.ticks rows.old) (R.ticks rows.new) }
    {
        self.move_to(rows, change, lights);
        let board = Board::new(grid, lights);
        self.revive_moved(rows, grid, &board, lights, change);
    }
    /// The second phase of an update. Removes words and letters without support from a revived net
    /// until none is left.
    pub fn strip<R: Rows>(&mut self, rows: &mut R, grid: &Grid, lights: &Lights)
        requires lights { lights.now ≡ lights_of grid.now }
        requires shaped { IsShaped (board_of grid.now) self.old }
        requires bits { HasBits (board_of grid.now) (R.entries rows.old) self.old }
        requires queue { IsQueue self.old }
        ensures entries { R.entries rows.new ≡ R.entries rows.old }
        ensures risen { R.ticks rows.old ≤ R.ticks rows.new }
        ensures rest { IsLeft self.old self.new }
        ensures settled { StripsTo grid.now (R.entries rows.old) self.old self.new }
        ensures cost { StripsInRegion grid.now (R.entries rows.old) self.old (R.ticks rows.old) (R.ticks rows.new) }
    {
        let board = Board::new(grid, lights);
        self.strip_queued(rows, &board);
    }
    /// Updates the net to the feasible words and letters after an edit. The room must have been
    /// reserved.
    pub fn settle<R: Rows>(&mut self, rows: &mut R, change: &Notes, grid: &Grid, lights: &Lights)
        requires lights { lights.now ≡ lights_of grid.now }
        requires inside { AreInside grid.now (cells_of change.now) }
        requires long { AreLong (board_of grid.now) (R.entries rows.old) }
        requires cells { vec_len self.old.letters ≡ length grid.now.squares }
        requires stood { StoodFor (before_of lights.now change.now) (word_of change.now) (counts_of (R.entries rows.old)) self.old }
        requires room { HasRoomBetween (before_of lights.now change.now) lights.now (counts_of (R.entries rows.old)) self.old self.old.spare }
        ensures entries { R.entries rows.new ≡ R.entries rows.old }
        ensures risen { R.ticks rows.old ≤ R.ticks rows.new }
        ensures spare { self.new.spare ≡ None }
        ensures room { HasRoom lights.now (counts_of (R.entries rows.old)) self.new }
        ensures settled { Settles grid.now (R.entries rows.old) (fields_of lights.now change.now) self.old self.new }
        ensures cost { SettlesInRegion grid.now (R.entries rows.old) (fields_of lights.now change.now) self.old (R.ticks rows.old) (R.ticks rows.new) }
    {
        self.revive(rows, change, grid, lights);
        self.strip(rows, grid, lights);
        self.keep_counts();
    }
}
