//! Writes the fields of a file as bytes.
ghost use Rattle.std.specs.Prelude.{◌≡◌, ◌++◌, [], map, replicate, OnOk, IfOk};
ghost use Rattle.byteorder.specs.Endian.{little_bytes};
ghost use Rattle.xw_files.specs.Puz.Spelling.{file_bytes, texts_bytes, header_bytes, ended, with_nuls};
ghost use Rattle.xw_files.specs.Puz.View.{view};

use crate::puz::fields::Fields;
use crate::puz::header::{self, Header};
use byteorder::{ByteOrder, LittleEndian};
use std::alloc::{AllocError, Global};

/// Returns the bytes of a whole file.
pub fn spell(alloc: Global, fields: &Fields<'_>) -> Result<Vec<u8>, AllocError>
    ensures { IfOk result (λ bytes. bytes.items ≡ file_bytes (view fields.now) (replicate 16 0)) }
{
    let mut out = Vec::new(alloc);
    push_boards(&mut out, fields)?;
    push_texts(&mut out, fields)?;
    Ok(out)
}

/// Appends a little-endian 16-bit number.
pub fn push_number(out: &mut Vec<u8>, number: u16) -> Result<(), AllocError>
    ensures { OnOk result (out.new.items ≡ out.old.items ++ little_bytes 2 number) }
{
    let mut bytes = [0; 2];
    LittleEndian::write_u16(&mut bytes, number);
    out.extend_from_slice(&bytes)
}

/// Appends the header.
fn push_header(out: &mut Vec<u8>, header: &Header) -> Result<(), AllocError>
    ensures { OnOk result (out.new.items ≡ out.old.items ++ header_bytes header.now (replicate 16 0)) }
{
    push_number(out, header.file_sum)?;
    out.extend_from_slice(b"ACROSS&DOWN\0")?;
    push_number(out, header.cib_sum)?;
    out.extend_from_slice(&header.masked)?;
    out.extend_from_slice(b"1.3\0")?;
    out.extend_from_slice(&[0; 16])?;
    out.extend_from_slice(&header::cib_bytes(header))?;
    Ok(())
}

/// Appends a text and its NUL.
pub fn push_text(out: &mut Vec<u8>, text: &[u8]) -> Result<(), AllocError>
    ensures { OnOk result (out.new.items ≡ out.old.items ++ ended text.now) }
{
    out.extend_from_slice(text)?;
    out.push(0)?;
    Ok(())
}

/// Appends the clues, each with its NUL.
fn push_clues(out: &mut Vec<u8>, clues: &[&[u8]]) -> Result<(), AllocError>
    ensures { OnOk result (out.new.items ≡ out.old.items ++ with_nuls (map (λ clue. clue.now) clues.now) []) }
{
    for clue in clues {
        push_text(out, clue)?;
    }
    Ok(())
}

/// Appends the header and both boards.
fn push_boards(out: &mut Vec<u8>, fields: &Fields<'_>) -> Result<(), AllocError>
    ensures { OnOk result (out.new.items ≡ out.old.items ++ header_bytes fields.now.header (replicate 16 0) ++ fields.now.solution.now ++ fields.now.state.now) }
{
    push_header(out, &fields.header)?;
    out.extend_from_slice(fields.solution)?;
    out.extend_from_slice(fields.state)?;
    Ok(())
}

/// Appends the texts and everything after them.
fn push_texts(out: &mut Vec<u8>, fields: &Fields<'_>) -> Result<(), AllocError>
    ensures { OnOk result (out.new.items ≡ out.old.items ++ texts_bytes (view fields.now)) }
{
    push_text(out, fields.title)?;
    push_text(out, fields.author)?;
    push_text(out, fields.copyright)?;
    push_clues(out, &fields.clues)?;
    push_text(out, fields.notes)?;
    out.extend_from_slice(fields.rest)?;
    Ok(())
}
