//! Reads the extra sections after the notes, and the circles in the GEXT section.
ghost use Rattle.std.specs.Prelude.{◌≡◌, ◌≤◌, ◌<◌, ◌+◌, ◌*◌, ◌^◌, length, [], option_map, IfOk, OnOk, IsOkUnless};
ghost use Rattle.xw_files.specs.Puz.Sections.{section_at, section_sized, section_in, is_gext, gext_in, with_mark, with_marks, circles_by};
ghost use Rattle.xw_files.specs.declared.fault.ReadFault.TheVariants as faults;
ghost use Rattle.xw_files.specs.Steps.{GivesOrLacksMemory};
ghost use Rattle.xw_files.specs.Puz.View.{section_view};

use crate::fault::ReadFault;
use crate::puz::sums::sum_from;
use byteorder::{ByteOrder, LittleEndian};
use std::alloc::Global;
use xw_grid::cell::Cell;
use xw_grid::circles::Circles;
use xw_grid::grid::Grid;

/// The number of bytes of a section before its data.
const SECTION_HEADER: usize = 8;

/// The number of bytes of a section without its data.
const SECTION_LEAST: usize = SECTION_HEADER + 1;

/// The bit of a GEXT byte that marks a circled cell. It is the highest bit, so a byte has it exactly if it is at least
/// this value.
pub const CIRCLED: u8 = 0x80;

/// A section, with the checksum that it states for its data.
#[derive(Clone, Copy)]
pub struct Section<'a> {
    pub name: &'a [u8],
    pub sum: u16,
    pub body: &'a [u8],
}

/// Splits the first whole section from the bytes. Returns `None` if there is no whole section at the front.
#[tactic(auto, unfolding(crate::specs::Puz::Sections::section_at))]
pub fn section_of(bytes: &[u8]) -> Option<(Section<'_>, &[u8])>
    ensures { option_map (λ found. (section_view found.0, found.1.now)) result ≡ section_at bytes.now }
{
    if bytes.len() < SECTION_LEAST {
        return None;
    }
    section_sized(usize::from(LittleEndian::read_u16(&bytes[4..])), bytes)
}

/// Splits a section with `size` bytes of data from the bytes, if it is whole.
#[tactic(auto, unfolding(crate::specs::Puz::Sections::section_sized))]
fn section_sized(size: usize, bytes: &[u8]) -> Option<(Section<'_>, &[u8])>
    requires { size < 2 ^ 16 }
    ensures { option_map (λ found. (section_view found.0, found.1.now)) result ≡ section_sized size bytes.now }
{
    if bytes.len() < SECTION_LEAST + size {
        return None;
    }
    if bytes[SECTION_HEADER + size] != 0 {
        return None;
    }
    Some(section_in(size, bytes))
}

/// Splits a section with `size` bytes of data from bytes that have it whole.
#[tactic(auto, unfolding(crate::specs::Puz::Sections::section_in))]
fn section_in(size: usize, bytes: &[u8]) -> (Section<'_>, &[u8])
    requires { 9 + size ≤ length bytes.now }
    ensures { (section_view result.0, result.1.now) ≡ section_in size bytes.now }
{
    let (name, _) = bytes.split_at(4);
    let sum = LittleEndian::read_u16(&bytes[6..]);
    let (_, rest) = bytes.split_at(SECTION_HEADER);
    let (body, _) = rest.split_at(size);
    let (_, rest) = bytes.split_at(SECTION_LEAST + size);
    (Section { name, sum, body }, rest)
}

/// Returns the first section named GEXT. The loop runs at most once per byte, because every section has bytes.
fn gext_of(bytes: &[u8]) -> Option<Section<'_>>
    ensures { option_map section_view result ≡ gext_in bytes.entry.now }
{
    let mut rest = bytes;
    for _ in 0..bytes.len() {
        let (section, others) = section_of(rest)?;
        if is_gext(&section) {
            return Some(section);
        }
        rest = others;
    }
    None
}

fn is_gext(section: &Section<'_>) -> bool
    ensures { result ≡ is_gext (section_view section.now) }
{
    section.name == b"GEXT".as_slice()
}

/// Returns the circles of the GEXT section, and no circles if there is none. Returns `GextSize` if its length differs
/// from the number of cells, and then `GextSum` if its checksum is wrong.
pub fn circles_of(alloc: Global, grid: &Grid, bytes: &[u8]) -> Result<Circles, ReadFault>
    ensures { GivesOrLacksMemory (λ circles. circles) result (circles_by grid.now (gext_in bytes.now)) }
{
    let Some(section) = gext_of(bytes) else {
        return Ok(Circles::new(alloc));
    };
    if section.body.len() != grid.size() {
        return Err(ReadFault::GextSize);
    }
    if sum_from(0, section.body) != section.sum {
        return Err(ReadFault::GextSum);
    }
    marked(alloc, grid, section.body)
}

/// Returns the open cells whose bytes have the circle bit.
fn marked(alloc: Global, grid: &Grid, bytes: &[u8]) -> Result<Circles, ReadFault>
    requires { length bytes.now ≡ grid.now.width * grid.now.height }
    ensures ok { IfOk result (λ circles. circles ≡ with_marks grid.now [] 0 bytes.now) }
    ensures memory { IsOkUnless result faults.Memory }
{
    let mut circles = Circles::new(alloc);
    for (index, byte) in bytes.iter().enumerate() {
        mark(&mut circles, grid, grid.cell_at(index), *byte)?;
    }
    Ok(circles)
}

/// Circles an open cell if its byte has the circle bit.
fn mark(circles: &mut Circles, grid: &Grid, cell: Cell, byte: u8) -> Result<(), ReadFault>
    ensures ok { OnOk result (circles.new ≡ with_mark grid.now circles.old cell byte) }
    ensures memory { IsOkUnless result faults.Memory }
{
    if byte >= CIRCLED && grid.is_open(cell) {
        circles.set(cell, true)?;
    }
    Ok(())
}
