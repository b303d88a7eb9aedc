//! An iterator over the indices of set bits.
ghost use Rattle.std.specs.Prelude.{◌≡◌, ℕ, ◌+◌, ◌*◌, ◌/◌, ◌^◌, ◌<◌, ◌≤◌, true, false, length, slice_index_or, IfSome, IfNone};
ghost use Rattle.std.specs.Iterator.{YieldsFirst, item_count};
ghost use Rattle.xw_bits.specs.Bits.{RowOfBits};
ghost use Rattle.xw_bits.specs.SetBits.{set_indices};

use crate::bit_row::BitRow;
use std::marker::Model;

/// The first index from `from` on whose bit is set.
pub(crate) fn next_one(row: &BitRow, from: usize) -> Option<usize>
    ensures set { IfSome result (λ index. (from ≤ index) × (slice_index_or row.now.bits index false ≡ true)) }
    ensures small { IfSome result (λ index. index < 2 ^ 57) }
    ensures first { IfSome result (λ index. (i : ℕ) → from ≤ i → i < index → slice_index_or row.now.bits i false ≡ false) }
    ensures none { IfNone result ((i : ℕ) → from ≤ i → slice_index_or row.now.bits i false ≡ false) }
{
    let _ = row.len();
    let mut at = from;
    while let Some(chunk) = row.next_chunk(at / 64) {
        at = at.max(64 * chunk);
        let word = row.chunk(chunk) >> (at % 64);
        if word != 0 {
            return Some(at + word.trailing_zeros() as usize);
        }
        at = 64 * chunk + 64;
    }
    None
}

/// The indices of the set bits of a row, in ascending order.
#[derive(Drop)]
pub struct Ones<'a> {
    row: &'a BitRow,
    next: usize,
}

impl<'a> Model for Ones<'a> {
    ghost use Rattle.std.specs.Prelude.{List, ℕ};
    ghost use Rattle.xw_bits.specs.SetBits.{set_indices};

    ghost Value = { List ℕ };

    ghost view = { λ indices. set_indices indices.row.now.bits indices.next };
}

impl<'a> Ones<'a> {
    /// An iterator over the set bits of `row`.
    pub(crate) fn new(row: &'a BitRow) -> Self
        ensures { result ≡ set_indices row.now.bits 0 }
    {
        Ones { row, next: 0 }
    }
}

impl<'a> Iterator for Ones<'a> {
    type Item = usize;

    ghost next_gives = { YieldsFirst (λ indices. indices) };

    ghost remaining = { item_count (λ indices. indices) };

    fn next(&mut self) -> Option<usize> {
        match next_one(self.row, self.next) {
            Some(index) => {
                self.next = index + 1;
                Some(index)
            }
            None => {
                self.next = self.row.len();
                None
            }
        }
    }
}
