//! Reads a file whole.
use std::alloc::Global;
use std::fs::{self, OpenOptions};
use std::io::{self, Read};
use std::os::unix::fs::FileTypeExt;
use std::rt::Files;

/// The most bytes that are read from a device.
const MOST: u64 = 16_777_216;

/// The number of the system for a file that is too large.
const TOO_LARGE: i32 = 27;

/// Returns the bytes of a file. A device that gives more than `MOST` bytes, such as `/dev/zero`, is refused.
pub fn read<R: Files + AllocGlobal>(rt: &R, file: &str) -> io::Result<Vec<u8>> {
    let found = fs::metadata(rt, file)?;
    if found.file_type().is_char_device() {
        read_device(rt, file)
    } else {
        fs::read(rt, file)
    }
}

/// Returns the bytes of a device, which may have no end.
fn read_device<R: Files + AllocGlobal>(rt: &R, file: &str) -> io::Result<Vec<u8>> {
    let device = OpenOptions::new().read(true).open(rt, file)?;
    read_some(rt.alloc(), device)
}

/// Returns the rest of standard input, to which this path leads. If it is a device, reads no more than of any device.
pub fn read_input<R: Files + AllocGlobal, I: Read + Drop>(
    rt: &R,
    path: &str,
    mut input: I,
) -> io::Result<Vec<u8>> {
    if is_device(rt, path) {
        return read_some(rt.alloc(), input);
    }
    let mut bytes = Vec::new(rt.alloc());
    input.read_to_end(&mut bytes)?;
    Ok(bytes)
}

/// Returns whether a path leads to a character device.
fn is_device<R: Files>(rt: &R, path: &str) -> bool {
    match fs::metadata(rt, path) {
        Ok(found) => found.file_type().is_char_device(),
        Err(_) => false,
    }
}

/// Returns the bytes of a reader, which may have no end, if they are at most `MOST`.
fn read_some<I: Read + Drop>(alloc: Global, reader: I) -> io::Result<Vec<u8>> {
    let mut bytes = Vec::new(alloc);
    reader.take(MOST + 1).read_to_end(&mut bytes)?;
    if bytes.len() as u64 > MOST {
        return Err(io::Error::from_raw_os_error(TOO_LARGE));
    }
    Ok(bytes)
}
