//! The lengths in which a new least grade changes which words are active.
ghost use Rattle.std.specs.Prelude.{◌≡◌, ℕ, ◌<◌, false, length, slice_index_or};
ghost use Rattle.xw_feas.specs.State.{least_chosen};
ghost use Rattle.xw_feas.specs.Written.{turns_words};

use xw_words::bank::Bank;

/// The number of lengths: from 0 to 255.
pub const LENGTHS: usize = 256;

/// For each length, whether choosing this least grade makes a known word active, or leaves out one that is.
pub fn turned_lengths(bank: &Bank, grade: u8) -> [bool; LENGTHS]
    ensures { (len : ℕ) → slice_index_or result len false ≡ turns_words bank.now.words (least_chosen grade) len }
{
    bank.well_formed();
    let mut turned = [false; LENGTHS];
    for len in 0..LENGTHS {
        turned[len] = bank.turns(len, grade);
    }
    turned
}
