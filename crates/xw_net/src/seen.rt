//! Looks for the letters that the words of a light have, in a search. For each slot and letter a search remembers a word that had
//! it. Words come back when it goes back, so it does not know of any first word, and looks for another one from the start.
ghost use Rattle.std.specs.Prelude.{◌≡◌, ◌⊎◌, ℕ, ◌+◌, ◌-◌, ◌*◌, ◌^◌, ◌<◌, ◌≤◌, true, false, length, slice_index};
ghost use Rattle.xw_net.specs.Seen.{AreFound, HasWord, IsSeenAt};
ghost use Rattle.xw_net.specs.Support.{supports};

use crate::light_position::LightPosition;
use crate::support::{first_support, is_in};
use xw_bits::bit_row::BitRow;
use xw_letters::letter::Letter;
use xw_letters::letter_set::LetterSet;
use xw_words::rows::Rows;

/// Whether a word of the row has a letter, given by its index in the alphabet, at a position. If the word that is remembered
/// for the letter is not in the row, looks for the first one that has the letter, and remembers it.
fn look_for<R: Rows>(
    rows: &mut R,
    row: &BitRow,
    here: LightPosition,
    number: u32,
    seen: &mut [u32],
) -> bool
    requires number { number < 26 }
    requires slot { 26 * here.slot + 26 ≤ length seen.old }
    requires small { length seen.old < 2 ^ 63 }
    requires row { length row.now.bits ≡ length (R.entries rows.old here.len) }
    requires few { length row.now.bits < 2 ^ 32 }
    requires seen { IsSeenAt (R.entries rows.old here.len) here.position here.slot seen.old }
    ensures entries { R.entries rows.new ≡ R.entries rows.old }
    ensures risen { R.ticks rows.old ≤ R.ticks rows.new }
    ensures seen { IsSeenAt (R.entries rows.old here.len) here.position here.slot seen.new }
    ensures len { length seen.new ≡ length seen.old }
    ensures others { (index : ℕ) → (index < 26 * here.slot) ⊎ (26 * here.slot + 26 ≤ index) → slice_index seen.new index ≡ slice_index seen.old index }
    ensures found { result ≡ true → HasWord row.now.bits (R.entries rows.old here.len) here.position (65 + number) }
    ensures none { result ≡ false → (word : ℕ) → supports row.now.bits (R.entries rows.old here.len) here.position (65 + number) word ≡ false }
{
    let at = 26 * here.slot + number as usize;
    if is_in(row, seen[at] as usize) {
        return true;
    }
    match first_support(rows, row, here.len, here.position, Letter::at(number), 0) {
        Some(word) => {
            seen[at] = word as u32;
            true
        }
        None => false,
    }
}

/// Those of the letters that some word of the row has at a position.
pub(crate) fn found_letters<R: Rows>(
    rows: &mut R,
    row: &BitRow,
    here: LightPosition,
    alive: LetterSet,
    seen: &mut [u32],
) -> LetterSet
    requires slot { 26 * here.slot + 26 ≤ length seen.old }
    requires small { length seen.old < 2 ^ 63 }
    requires row { length row.now.bits ≡ length (R.entries rows.old here.len) }
    requires few { length row.now.bits < 2 ^ 32 }
    requires seen { IsSeenAt (R.entries rows.old here.len) here.position here.slot seen.old }
    ensures entries { R.entries rows.new ≡ R.entries rows.old }
    ensures risen { R.ticks rows.old ≤ R.ticks rows.new }
    ensures seen { IsSeenAt (R.entries rows.old here.len) here.position here.slot seen.new }
    ensures len { length seen.new ≡ length seen.old }
    ensures others { (index : ℕ) → (index < 26 * here.slot) ⊎ (26 * here.slot + 26 ≤ index) → slice_index seen.new index ≡ slice_index seen.old index }
    ensures found { AreFound row.now.bits (R.entries rows.old here.len) here.position alive result }
{
    let mut found = alive;
    let mut left = alive;
    while let Some(number) = left.take_first() {
        if !look_for(rows, row, here, number, seen) {
            found.remove(Letter::at(number));
        }
    }
    found
}
