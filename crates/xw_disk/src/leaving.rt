//! Leaves bytes that a file did not get in another file.
use crate::replacing::{create, kept_name, leads_to};
use std::fs;
use std::io::{self, ErrorKind};
use std::path::PathBuf;
use std::rt::Files;

/// The permissions of a file in which bytes are left: others may use its folder.
const PRIVATE: u32 = 0o600;

/// Leaves bytes that a file did not get in a new file, and returns its name: beside the file unless that is a device or a
/// pipe, in the current folder or in `/tmp`. The name does not lead to `apart`.
pub fn leave<R: Files + AllocGlobal>(
    rt: &R,
    file: &str,
    apart: Option<&str>,
    bytes: &[u8],
) -> io::Result<String> {
    if !is_special(rt, file) {
        if let Ok(name) = leave_as(rt, file, apart, bytes) {
            return Ok(name);
        }
    }
    let path = PathBuf::from_str(rt.alloc(), file)?;
    let Some(last) = path.file_name() else {
        return Err(io::Error::from(ErrorKind::NotFound));
    };
    if let Ok(name) = leave_as(rt, last, apart, bytes) {
        return Ok(name);
    }
    let temporary = format!(in rt.alloc(); "/tmp/{last}")?;
    leave_as(rt, temporary.as_str(), apart, bytes)
}

/// Returns whether a name leads to a device, a pipe or a socket. No file may be made in the folders of such names.
fn is_special<R: Files>(rt: &R, file: &str) -> bool {
    match fs::metadata(rt, file) {
        Ok(found) => !found.is_file() && !found.is_dir(),
        Err(_) => false,
    }
}

/// Leaves bytes in a new file with the first free name under which this file would be kept. Returns the name.
fn leave_as<R: Files + AllocGlobal>(
    rt: &R,
    file: &str,
    apart: Option<&str>,
    bytes: &[u8],
) -> io::Result<String> {
    for number in 1..u32::MAX {
        let name = kept_name(rt.alloc(), file, number)?;
        if !leads_to(rt, name.as_str(), apart)? && create(rt, name.as_str(), PRIVATE, bytes)? {
            return Ok(name);
        }
    }
    Err(io::Error::from(ErrorKind::AlreadyExists))
}
