//! Computes all answers for a grid and a dictionary, in a new net.
ghost use Rattle.std.specs.Prelude.{◌≡◌, ℕ, length};
ghost use Rattle.xw_feas.specs.Feasible.{may_stand};
ghost use Rattle.xw_feas.specs.Flags.{set_has};
ghost use Rattle.xw_feas.specs.WellFormed.{HasLetterEntries};
ghost use Rattle.xw_net.specs.Marks.{AreByCell};

use crate::base::read_marked;
use crate::net::Net;
use crate::seeds::mark_all;
use std::alloc::Global;
use xw_feas::board::{Board, allowed};
use xw_feas::edit::Refusal;
use xw_grid::fault::GridFault;
use xw_grid::grid::Grid;
use xw_grid::lights::Lights;
use xw_letters::letter_set::LetterSet;
use xw_words::bank::Bank;
use xw_words::counted::Counted;
use xw_words::rows::Rows;

/// Gives each cell all letters that it allows.
fn fill_letters(board: &Board<'_>, letters: &mut [LetterSet])
    requires { AreByCell board.now letters.old }
    ensures len { length letters.new ≡ length letters.old }
    ensures letters { (cell letter : ℕ) → set_has letters.new cell letter ≡ may_stand board.now cell letter }
    ensures entries { HasLetterEntries board.now }
{
    for cell in 0..board.cell_count() {
        letters[cell] = allowed(board.is_open(cell), board.entry(cell));
    }
}

impl Net {
    ghost use Rattle.std.specs.Prelude.{◌≡◌, ℕ, ◌+◌, ◌*◌, ◌^◌, ◌≤◌, false, is_some, IfOk, IfErr};
    ghost use Rattle.xw_words.specs.Dictionary.{Dictionary};
    ghost use Rattle.xw_grid.specs.Light.{lights_of};
    ghost use Rattle.xw_feas.specs.WellFormed.{HasLetterEntries};
    ghost use Rattle.xw_net.specs.Marks.{IsSetting};
    ghost use Rattle.xw_net.specs.Filled.{AreLong, IsFresh, IsUnstripped, IsFilled};
    ghost use Rattle.xw_net.specs.Nets.{IsShaped, HasBits, IsQueue};
    ghost use Rattle.xw_net.specs.Update.{state_of};
    ghost use Rattle.xw_net.specs.Net.{IsSettledFor, HasRoomFor, known_counts};

    /// Gives each cell all letters that it allows and each light all its base words, and queues all
    /// lights.
    fn bring_all<R: Rows>(&mut self, rows: &mut R, board: &Board<'_>)
        requires fresh { IsFresh board.now (R.entries rows.old) self.old }
        requires long { AreLong board.now (R.entries rows.old) }
        ensures entries { R.entries rows.new ≡ R.entries rows.old }
        ensures letters { HasLetterEntries board.now }
        ensures shaped { IsShaped board.now self.new }
        ensures bits { HasBits board.now (R.entries rows.old) self.new }
        ensures queue { IsQueue self.new }
        ensures spare { self.new.spare ≡ self.old.spare }
        ensures unstripped { (dictionary : Dictionary) → IsSetting board.now (R.entries rows.old) dictionary → IsUnstripped board.now dictionary self.new }
    {
        fill_letters(board, &mut self.letters);
        mark_all(board, &mut self.chain);
        read_marked(rows, board, None, None, &self.chain, &mut self.base);
        self.bring_back(board);
        self.unmark();
    }

    /// Computes exactly the feasible words and letters.
    pub(crate) fn fill<R: Rows>(&mut self, rows: &mut R, board: &Board<'_>)
        requires fresh { IsFresh board.now (R.entries rows.old) self.old }
        requires long { AreLong board.now (R.entries rows.old) }
        ensures entries { R.entries rows.new ≡ R.entries rows.old }
        ensures letters { HasLetterEntries board.now }
        ensures spare { self.new.spare ≡ self.old.spare }
        ensures filled { (dictionary : Dictionary) → IsSetting board.now (R.entries rows.old) dictionary → IsFilled board.now dictionary self.new }
    {
        self.bring_all(rows, board);
        self.strip_queued(rows, board);
        self.keep_counts();
    }

    /// A net with the feasible words and letters of a grid and a dictionary. Returns `Memory` if an
    /// allocation fails.
    pub fn of(alloc: Global, grid: &Grid, lights: &Lights, bank: &Bank) -> Result<Net, Refusal>
        requires { lights.now ≡ lights_of grid.now }
        ensures settled { IfOk result (λ net. IsSettledFor (state_of grid.now bank.now.words) net) }
        ensures room { IfOk result (λ net. HasRoomFor lights.now (known_counts bank.now.words) net) }
        ensures none_waits { IfOk result (λ net. is_some net.spare ≡ false) }
        ensures err { IfErr result (λ refusal. refusal ≡ Refusal.Grid GridFault.Memory) }
    {
        let mut net = Net::blank(alloc, grid, lights, bank)?;
        grid.well_formed();
        bank.well_formed();
        let mut rows = Counted::new(bank, 0);
        net.fill(&mut rows, &Board::new(grid, lights));
        Ok(net)
    }
}
