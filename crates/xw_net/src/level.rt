//! The way back of a search: the rows, letters and flags of a net as they were before a level changed them.
ghost use Rattle.std.specs.Prelude.{◌≡◌, ℕ, ◌<◌, ◌≤◌, List, true, false, [], length, IfOk, IfSome, OnOk};
ghost use Rattle.xw_bits.specs.Bits.{RowOfBits};
ghost use Rattle.xw_net.specs.Spread.{bits_in};
ghost use Rattle.xw_net.specs.Room.{KeepRoom};
ghost use Rattle.xw_net.specs.Level.{HasKept, IsWay, LeadBack};

use crate::net::Net;
use crate::trying::Trail;
use std::alloc::{AllocError, Global};
use xw_bits::bit_row::BitRow;
use xw_letters::letter_set::LetterSet;

/// The row of a light as it was before a level changed it.
#[derive(Drop)]
pub struct KeptRow {
    pub(crate) light: usize,
    pub(crate) row: BitRow,
}

/// Rows with equally many bits that no level needs.
#[derive(Drop)]
struct Shelf {
    bits: usize,
    rows: Vec<BitRow>,
}

/// Rows that no level needs. A level takes its copies from here, so going on after going back allocates nothing.
#[derive(Drop)]
pub(crate) struct Pool {
    alloc: Global,
    shelves: Vec<Shelf>,
}

/// Takes a row with so many bits from a shelf.
fn take_from(shelf: &mut Shelf, bits: usize) -> Option<BitRow>
    ensures { IfSome result (λ row. length row.bits ≡ bits) }
{
    if shelf.bits != bits {
        return None;
    }
    let row = shelf.rows.pop()?;
    if row.len() == bits { Some(row) } else { None }
}

impl Pool {
    /// A pool without rows.
    pub(crate) fn new(alloc: Global) -> Pool {
        Pool {
            alloc,
            shelves: Vec::new(alloc),
        }
    }

    /// A copy of a row, in the memory of a row that no level needs if there is one with as many bits.
    fn copy_of(&mut self, row: &BitRow) -> Result<BitRow, AllocError>
        ensures { IfOk result (λ copy. copy.bits ≡ row.now.bits) }
    {
        for index in 0..self.shelves.len() {
            if let Some(mut copy) = take_from(&mut self.shelves[index], row.len()) {
                copy.copy_from(row);
                return Ok(copy);
            }
        }
        row.copy()
    }

    /// The index of the shelf for rows with so many bits, which is made if there is none.
    fn shelf_for(&mut self, bits: usize) -> Result<usize, AllocError>
        ensures { IfOk result (λ index. index < length self.new.shelves.items) }
    {
        for index in 0..self.shelves.len() {
            if self.shelves[index].bits == bits {
                return Ok(index);
            }
        }
        let rows = Vec::new(self.alloc);
        self.shelves.push(Shelf { bits, rows })?;
        Ok(self.shelves.len() - 1)
    }

    /// Keeps a row for later. If an allocation fails, the row is freed.
    fn put(&mut self, row: BitRow) {
        if let Ok(index) = self.shelf_for(row.len()) {
            let _ = self.shelves[index].rows.push(row);
        }
    }
}

/// Whether a row of the light is kept.
fn has_kept(kept: &Vec<KeptRow>, light: usize) -> bool
    ensures found { result ≡ true → HasKept kept.now.items light }
    ensures none { result ≡ false → ¬ HasKept kept.now.items light }
{
    for index in 0..kept.len() {
        if kept[index].light == light {
            return true;
        }
    }
    false
}

/// Keeps the row of a light as it is, unless one is kept already.
pub(crate) fn keep_row(
    kept: &mut Vec<KeptRow>,
    pool: &mut Pool,
    light: usize,
    row: &BitRow,
) -> Result<(), AllocError>
    ensures has { OnOk result (HasKept kept.new.items light) }
    ensures back { (rows before : List RowOfBits) → light < length rows → row.now.bits ≡ bits_in rows light → LeadBack kept.old.items rows before → LeadBack kept.new.items rows before }
{
    if has_kept(kept, light) {
        return Ok(());
    }
    let copy = pool.copy_of(row)?;
    kept.push(KeptRow { light, row: copy })?;
    Ok(())
}

/// Puts a row in the place of another one, and returns a row that is not needed any more. A row with less room is copied, so
/// that no room is lost.
fn exchange(place: &mut BitRow, row: BitRow) -> BitRow
    requires { length place.old.bits ≡ length row.bits }
    ensures bits { place.new.bits ≡ row.bits }
    ensures room { place.old.room ≤ place.new.room }
{
    if row.has_room_of(place) {
        return std::mem::replace(place, row);
    }
    place.copy_from(&row);
    row
}

/// Gives the lights back the rows that are kept.
pub(crate) fn give_back(kept: &mut Vec<KeptRow>, pool: &mut Pool, rows: &mut Vec<BitRow>)
    requires { (before : List RowOfBits) × LeadBack kept.old.items rows.old.items before }
    ensures none { kept.new.items ≡ [] }
    ensures many { length rows.new.items ≡ length rows.old.items }
    ensures back { (before : List RowOfBits) → LeadBack kept.old.items rows.old.items before → (light : ℕ) → bits_in rows.new.items light ≡ bits_in before light }
    ensures room { KeepRoom rows.old.items rows.new.items }
{
    while let Some(last) = kept.pop() {
        let KeptRow { light, row } = last;
        let unneeded = exchange(&mut rows[light], row);
        pool.put(unneeded);
    }
}

/// Forgets the rows that are kept.
pub(crate) fn forget(kept: &mut Vec<KeptRow>, pool: &mut Pool)
    ensures { kept.new.items ≡ [] }
{
    while let Some(last) = kept.pop() {
        let KeptRow { light: _, row } = last;
        pool.put(row);
    }
}

/// What a level of a search changed in a net, as it was before: the rows that it changed, and all letters and flags.
#[derive(Drop)]
pub struct Level {
    pub(crate) rows: Vec<KeptRow>,
    pub(crate) base: Vec<KeptRow>,
    pub(crate) letters: Vec<LetterSet>,
    pub(crate) entered: Vec<bool>,
}

impl Level {
    /// A level that keeps nothing.
    pub fn new(alloc: Global) -> Level
        ensures rows { result.rows.items ≡ [] }
        ensures base { result.base.items ≡ [] }
    {
        Level {
            rows: Vec::new(alloc),
            base: Vec::new(alloc),
            letters: Vec::new(alloc),
            entered: Vec::new(alloc),
        }
    }

    /// Forgets what the level keeps.
    pub fn forget(&mut self, trail: &mut Trail)
        ensures rows { self.new.rows.items ≡ [] }
        ensures base { self.new.base.items ≡ [] }
        ensures seen { trail.new.seen ≡ trail.old.seen }
    {
        forget(&mut self.rows, &mut trail.pool);
        forget(&mut self.base, &mut trail.pool);
    }

    /// Keeps the letters and the flags of a net. Returns an error if an allocation fails.
    pub fn begin(&mut self, net: &Net) -> Result<(), AllocError>
        requires rows { self.old.rows.items ≡ [] }
        requires base { self.old.base.items ≡ [] }
        ensures rows { self.new.rows.items ≡ [] }
        ensures base { self.new.base.items ≡ [] }
        ensures way { OnOk result (IsWay self.new net.now net.now) }
    {
        self.letters.clear();
        self.letters.extend_from_slice(&net.letters)?;
        self.entered.clear();
        self.entered.extend_from_slice(&net.entered)?;
        Ok(())
    }
}
