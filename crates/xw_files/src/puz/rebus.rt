//! Rebus cells: cells with more than one letter. A file can have them; a puzzle does not keep them.
ghost use Rattle.std.specs.Prelude.{◌≡◌, ℕ, List, IfOk, IsOkUnless, OnOk};
ghost use Rattle.std.specs.List.{list_any};
ghost use Rattle.xw_files.specs.Puz.Sections.{Section as SpecSection, AreSections};
ghost use Rattle.xw_files.specs.Puz.Rebus.{is_rebus as spec_is_rebus, HasSections};
ghost use Rattle.xw_files.specs.Puz.View.{section_view};
ghost use Rattle.xw_files.specs.declared.fault.ReadFault.TheVariants as faults;

use crate::fault::ReadFault;
use crate::puz::fields;
use crate::puz::sections::{self, Section};
use std::alloc::Global;

/// Whether a section lists rebus cells.
fn is_rebus(section: &Section<'_>) -> bool
    ensures { result ≡ spec_is_rebus (section_view section.now) }
{
    section.name == b"GRBS".as_slice()
}

/// Whether one of the whole sections at the start of the bytes lists rebus cells.
fn is_among(bytes: &[u8]) -> bool
    ensures { (sections : List SpecSection) (tail : List ℕ) → AreSections bytes.now sections tail → result ≡ list_any spec_is_rebus sections }
{
    let mut rest = bytes;
    while let Some((section, others)) = sections::section_of(rest) {
        if is_rebus(&section) {
            return true;
        }
        rest = others;
    }
    false
}

/// Whether a `.puz` file has a section of rebus cells (`GRBS`) after its notes. Returns the first fault of a file that
/// cannot be cut into its fields, and `Memory` if an allocation fails.
pub fn has_rebus(alloc: Global, bytes: &[u8]) -> Result<bool, ReadFault>
    ensures found { IfOk result (λ found. (sections : List SpecSection) → HasSections bytes.now sections → found ≡ list_any spec_is_rebus sections) }
    // Only a file that can be cut into its fields is answered.
    ensures fields { OnOk result ((sections : List SpecSection) × HasSections bytes.now sections) }
    // Such a file is answered, unless an allocation fails.
    ensures only { (sections : List SpecSection) → HasSections bytes.now sections → IsOkUnless result faults.Memory }
{
    let fields = fields::fields_of(alloc, bytes)?;
    Ok(is_among(fields.rest))
}
