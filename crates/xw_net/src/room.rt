//! Allocates the arrays of a net.
ghost use Rattle.std.specs.Prelude.{◌≡◌, ◌+◌, ◌-◌, ◌*◌, ◌^◌, ◌<◌, ◌≤◌, false, [], length, replicate, IfOk, OnOk};
ghost use Rattle.xw_words.specs.Dictionary.{known_words};
ghost use Rattle.xw_net.specs.Room.{counts_of, with_word, size_at as spec_size_at, AreFalse, AreEmpty, AreRoomier, HaveRoom};

use std::alloc::{AllocError, Global};
use xw_bits::bit_row::BitRow;
use xw_grid::lights::Lights;
use xw_letters::letter_set::LetterSet;
use xw_words::bank::Bank;

/// Stands for the index of a light if there is no such light.
pub(crate) const NOWHERE: usize = usize::MAX;

/// Stands for the index of a word in the lists of supports if there is no such word. These lists are most of a net, so they
/// have 32 bits for each index: a length has at most 1,048,576 known words.
pub(crate) const NO_WORD: u32 = u32::MAX;

/// The most chunks of 64 bits that a row takes at once. No row of words comes near it.
const MOST_CHUNKS: usize = 1 << 40;

/// The number of cells of a light.
#[tactic(auto, using(crate::proofs::Nets::RowRoom::size_nowhere))]
pub(crate) fn size_at(lights: &Lights, light: usize) -> usize
    ensures { result ≡ spec_size_at lights.now light }
{
    match lights.get(light) {
        Some(light) => light.size as usize,
        None => 0,
    }
}

/// The number of known words of a length.
#[tactic(auto, using(crate::proofs::Nets::RowRoom::known_few))]
fn known(bank: &Bank, len: usize) -> usize
    ensures words { result ≡ counts_of (known_words bank.now.words) len }
    ensures few { result ≤ 1048576 }
{
    bank.well_formed();
    bank.known(len)
}

/// The number of known words of a length, after one more word of length `grown`.
fn known_with(bank: &Bank, grown: usize, len: usize) -> usize
    ensures words { result ≡ with_word grown (counts_of (known_words bank.now.words)) len }
    ensures few { result ≤ 1048577 }
{
    let known = known(bank, len);
    if len == grown { known + 1 } else { known }
}

/// Reserves room for `room` bits in total.
fn reserve_row(row: &mut BitRow, room: usize) -> Result<(), AllocError>
    requires { room < 2 ^ 57 }
    ensures bits { row.new.bits ≡ row.old.bits }
    ensures more { row.old.room ≤ row.new.room }
    ensures room { OnOk result (room ≤ row.new.room) }
{
    row.reserve(room)
}

/// An empty row with room for `room` bits.
fn make_empty_row(alloc: Global, room: usize) -> Result<BitRow, AllocError>
    requires { room < 2 ^ 57 }
    ensures bits { IfOk result (λ row. row.bits ≡ []) }
    ensures room { IfOk result (λ row. room ≤ row.room) }
{
    let mut row = BitRow::new(alloc);
    reserve_row(&mut row, room)?;
    Ok(row)
}

/// Appends `chunks` times 64 clear bits to an empty row.
fn push_chunks(row: &mut BitRow, chunks: usize)
    requires empty { row.old.bits ≡ [] }
    requires room { 64 * chunks ≤ row.old.room }
    requires small { chunks ≤ MOST_CHUNKS }
    ensures bits { row.new.bits ≡ replicate (64 * chunks) false }
    ensures room { row.old.room ≤ row.new.room }
{
    for _ in 0..chunks {
        row.push_chunk();
    }
}

/// Appends `bits` clear bits to an empty row, 64 at a time as far as that goes.
pub(crate) fn fill_row(row: &mut BitRow, bits: usize)
    requires empty { row.old.bits ≡ [] }
    requires room { bits ≤ row.old.room }
    ensures bits { row.new.bits ≡ replicate bits false }
    ensures room { row.old.room ≤ row.new.room }
{
    let chunks = (bits / 64).min(MOST_CHUNKS);
    push_chunks(row, chunks);
    for _ in 64 * chunks..bits {
        row.push(false);
    }
}

/// For each light a row with a clear bit for each known word of its length.
pub(crate) fn make_rows(
    alloc: Global,
    lights: &Lights,
    bank: &Bank,
) -> Result<Vec<BitRow>, AllocError>
    ensures { IfOk result (λ rows. AreFalse lights.now (counts_of (known_words bank.now.words)) rows.items) }
{
    let mut rows = Vec::new(alloc);
    for light in 0..lights.len() {
        let bits = known(bank, size_at(lights, light));
        rows.push(BitRow::clear_of(alloc, bits)?)?;
    }
    Ok(rows)
}

/// For each light an empty row, with room for a bit for each known word of its length.
fn make_empty_rows(alloc: Global, lights: &Lights, bank: &Bank) -> Result<Vec<BitRow>, AllocError>
    ensures { IfOk result (λ rows. AreEmpty lights.now (counts_of (known_words bank.now.words)) rows.items) }
{
    let mut rows = Vec::new(alloc);
    for light in 0..lights.len() {
        let room = known(bank, size_at(lights, light));
        rows.push(make_empty_row(alloc, room)?)?;
    }
    Ok(rows)
}

/// `count` flags, all false.
pub(crate) fn make_flags(alloc: Global, count: usize) -> Result<Vec<bool>, AllocError>
    ensures { IfOk result (λ flags. flags.items ≡ replicate count false) }
{
    vec![in alloc; false; count]
}

/// `count` empty sets.
pub(crate) fn make_sets(alloc: Global, count: usize) -> Result<Vec<LetterSet>, AllocError>
    ensures { IfOk result (λ sets. sets.items ≡ replicate count 0) }
{
    vec![in alloc; LetterSet::new(); count]
}

/// `count` entries of `NO_WORD`.
pub(crate) fn make_held(alloc: Global, count: usize) -> Result<Vec<u32>, AllocError>
    ensures { IfOk result (λ held. held.items ≡ replicate count (2 ^ 32 - 1)) }
{
    vec![in alloc; NO_WORD; count]
}

/// Reserves room in each light's row for the known words, and for one more of length `grown`.
pub(crate) fn reserve_rows(
    rows: &mut [BitRow],
    lights: &Lights,
    bank: &Bank,
    grown: usize,
) -> Result<(), AllocError>
    requires { length lights.now ≤ length rows.old }
    ensures roomier { AreRoomier rows.old rows.new }
    ensures room { OnOk result (HaveRoom lights.now (with_word grown (counts_of (known_words bank.now.words))) rows.new) }
{
    for light in 0..lights.len() {
        let room = known_with(bank, grown, size_at(lights, light));
        let row = &mut rows[light];
        reserve_row(row, room)?;
    }
    Ok(())
}

/// The arrays of a net that depend on the lights, reserved for the lights after an edit.
#[derive(Drop)]
pub(crate) struct Spare {
    pub(crate) rows: Vec<BitRow>,
    pub(crate) base: Vec<BitRow>,
    pub(crate) entered: Vec<bool>,
    pub(crate) queue_marks: Vec<bool>,
    pub(crate) chain_marks: Vec<bool>,
}

impl Spare {
    ghost use Rattle.std.specs.Prelude.{IfOk};
    ghost use Rattle.xw_words.specs.Dictionary.{known_words};
    ghost use Rattle.xw_net.specs.Room.{counts_of, IsSpare};

    /// Creates arrays for these lights.
    pub(crate) fn of(alloc: Global, lights: &Lights, bank: &Bank) -> Result<Spare, AllocError>
        ensures { IfOk result (λ spare. IsSpare lights.now (counts_of (known_words bank.now.words)) spare) }
    {
        let count = lights.len();
        Ok(Spare {
            rows: make_empty_rows(alloc, lights, bank)?,
            base: make_empty_rows(alloc, lights, bank)?,
            entered: make_flags(alloc, count)?,
            queue_marks: make_flags(alloc, count)?,
            chain_marks: make_flags(alloc, count)?,
        })
    }
}
