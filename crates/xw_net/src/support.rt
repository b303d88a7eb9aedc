//! Finds words that support a letter at a position of a light.
ghost use Rattle.std.specs.Prelude.{◌≡◌, ℕ, ◌+◌, ◌-◌, ◌*◌, ◌/◌, ◌^◌, ◌<◌, ◌≤◌, true, false, ◌&&◌, length, slice_index, slice_index_or, IfSome, IfNone, MatchOption, if◌then◌else◌};
ghost use Rattle.xw_letters.specs.Letter.{IsLetter};
ghost use Rattle.xw_letters.specs.LetterSet.{has};
ghost use Rattle.xw_net.specs.Inner.Lost.{IsInRow, IsLost, AreInRow};
ghost use Rattle.xw_net.specs.Region.{chunks_of};
ghost use Rattle.xw_net.specs.Support.{holds, supports, letter_count, Finds, StrikesRow, NoneSupports};

use crate::light_position::LightPosition;
use crate::room::NO_WORD;
use xw_bits::bit_row::BitRow;
use xw_letters::letter::Letter;
use xw_letters::letter_set::LetterSet;
use xw_words::rows::Rows;

/// The first word of the row, from a chunk on, that has the letter at the position. An empty row is not searched: when a
/// light dies, each letter of its cells comes here.
pub(crate) fn first_support<R: Rows>(
    rows: &mut R,
    row: &BitRow,
    len: usize,
    position: usize,
    letter: Letter,
    from: usize,
) -> Option<usize>
    ensures entries { R.entries rows.new ≡ R.entries rows.old }
    ensures risen { R.ticks rows.old ≤ R.ticks rows.new }
    ensures found { IfSome result (λ word. (64 * from ≤ word) × (supports row.now.bits (R.entries rows.old len) position letter word ≡ true)) }
    ensures first { IfSome result (NoneSupports row.now.bits (R.entries rows.old len) position letter (64 * from)) }
    ensures none { IfNone result ((other : ℕ) → 64 * from ≤ other → supports row.now.bits (R.entries rows.old len) position letter other ≡ false) }
    ensures cost { MatchOption result (R.ticks rows.new ≤ R.ticks rows.old + (chunks_of (length row.now.bits) - from)) (λ word. R.ticks rows.new + from ≤ R.ticks rows.old + (word / 64 + 1)) }
{
    if row.count() == 0 {
        return None;
    }
    rows.next_with(len, position, letter, row, from)
}

/// Removes from the row the words that have a pending letter at the position. If fewer letters are
/// left than are pending, it keeps the words with one of the letters left instead, which reads
/// fewer columns. If no letter is left, no word is.
fn strike_words<R: Rows>(
    rows: &mut R,
    row: &mut BitRow,
    len: usize,
    position: usize,
    pending: LetterSet,
    alive: LetterSet,
)
    requires { length row.old.bits ≡ length (R.entries rows.old len) }
    ensures entries { R.entries rows.new ≡ R.entries rows.old }
    ensures risen { R.ticks rows.old ≤ R.ticks rows.new }
    ensures len { length row.new.bits ≡ length row.old.bits }
    ensures strikes { StrikesRow (R.entries rows.old len) position pending alive row.old.bits row.new.bits }
    ensures room { row.new.room ≡ row.old.room }
    ensures cost { R.ticks rows.new ≤ R.ticks rows.old + chunks_of (length row.old.bits) * letter_count pending }
{
    if alive.is_same(LetterSet::new()) {
        row.clear();
        return;
    }
    if alive.len() < pending.len() {
        rows.keep_columns(len, position, alive, row);
    } else {
        rows.strike_columns(len, position, pending, row);
    }
}

/// Removes from the row the words that have a pending letter at the position, and counts those that are left.
pub(crate) fn strike_row<R: Rows>(
    rows: &mut R,
    row: &mut BitRow,
    len: usize,
    position: usize,
    pending: LetterSet,
    alive: LetterSet,
)
    requires { length row.old.bits ≡ length (R.entries rows.old len) }
    ensures entries { R.entries rows.new ≡ R.entries rows.old }
    ensures risen { R.ticks rows.old ≤ R.ticks rows.new }
    ensures len { length row.new.bits ≡ length row.old.bits }
    ensures strikes { StrikesRow (R.entries rows.old len) position pending alive row.old.bits row.new.bits }
    ensures room { row.new.room ≡ row.old.room }
    ensures cost { R.ticks rows.new ≤ R.ticks rows.old + chunks_of (length row.old.bits) * letter_count pending }
{
    if row.count() == 0 {
        return;
    }
    strike_words(rows, row, len, position, pending, alive);
    row.keep_count();
}

/// Whether the row has a word; its index may be past the end of the row.
pub(crate) fn is_in(row: &BitRow, word: usize) -> bool
    ensures there { result ≡ true → IsInRow row.now.bits word }
    ensures lost { result ≡ false → IsLost row.now.bits word }
{
    word < row.len() && row.has(word)
}

/// The first letter of a set, by its index in the alphabet from `from` on, whose held word is not in the row. Most letters
/// keep their support, so stripping looks at them here and no further.
pub(crate) fn next_lost(
    row: &BitRow,
    held: &[u32],
    slot: usize,
    letters: LetterSet,
    from: u32,
) -> Option<u32>
    requires { 26 * slot + 26 ≤ length held.now }
    ensures set { IfSome result (λ index. (from ≤ index) × (index < 26) × (has letters (65 + index) ≡ true)) }
    ensures lost { IfSome result (λ index. IsLost row.now.bits (slice_index held.now (26 * slot + index))) }
    ensures passed { IfSome result (AreInRow row.now.bits held.now slot letters from) }
    ensures none { IfNone result (AreInRow row.now.bits held.now slot letters from 26) }
{
    let mut at = from;
    while let Some(index) = letters.next_index(at) {
        if !is_in(row, held[26 * slot + index as usize] as usize) {
            return Some(index);
        }
        at = index + 1;
    }
    None
}

/// The chunk where the search for another support starts.
fn search_start(row: &BitRow, held: usize, is_new: bool) -> usize
    ensures known { held < length row.now.bits → is_new ≡ false → result ≡ held / 64 }
    ensures past { length row.now.bits ≤ held → result ≡ 0 }
    ensures start { is_new ≡ true → result ≡ 0 }
{
    if is_new || held >= row.len() {
        0
    } else {
        held / 64
    }
}

/// Whether a letter whose held word is not in the row has another support there, which it then holds. No row of words has so
/// many that an index does not fit.
pub(crate) fn find_support<R: Rows>(
    rows: &mut R,
    row: &BitRow,
    here: LightPosition,
    letter: Letter,
    held: &mut [u32],
    restart: &mut [LetterSet],
) -> bool
    requires letter { IsLetter letter }
    requires held { 26 * here.slot + (letter - 65) < length held.old }
    requires restart { here.slot < length restart.old }
    requires small { length held.old < 2 ^ 63 }
    requires lost { IsLost row.now.bits (slice_index held.old (26 * here.slot + (letter - 65))) }
    ensures entries { R.entries rows.new ≡ R.entries rows.old }
    ensures risen { R.ticks rows.old ≤ R.ticks rows.new }
    ensures held { length held.new ≡ length held.old }
    ensures restart { length restart.new ≡ length restart.old }
    ensures finds { length row.now.bits < 2 ^ 32 → Finds row.now.bits (R.entries rows.old here.len) here.position here.slot letter (holds held.old restart.old) (holds held.new restart.new) result (R.ticks rows.new - R.ticks rows.old) }
{
    let at = 26 * here.slot + (letter.byte() - b'A') as usize;
    let from = search_start(row, held[at] as usize, restart[here.slot].has(letter));
    match first_support(rows, row, here.len, here.position, letter, from) {
        Some(word) => {
            held[at] = word.min(NO_WORD as usize) as u32;
            restart[here.slot].remove(letter);
            true
        }
        None => false,
    }
}
