//! Which file a name leads to, and whether two names lead to one file.
use crate::disk::{CallFile, Standing};
use crate::replacing::{followed, kept_name};
use std::fs::{self, Metadata};
use std::io::{self, ErrorKind};
use std::os::unix::fs::MetadataExt;
use std::path::PathBuf;
use std::rt::Files;

/// The path to whatever standard input is.
pub const INPUT_PATH: &str = "/dev/stdin";

/// The path to whatever standard output is.
const OUTPUT_PATH: &str = "/dev/stdout";

/// What distinguishes a file from all others.
#[derive(Clone, Copy, Debug, PartialEq, Eq)]
pub struct Identity {
    /// The device that the file is on.
    device: u64,
    /// The number of the file on its device.
    number: u64,
}

impl Identity {
    /// Returns the identity of a file that was found or is open.
    pub fn of(found: &Metadata) -> Identity {
        Identity {
            device: found.dev(),
            number: found.ino(),
        }
    }
}

/// A regular file as it is at some moment.
#[derive(Clone, Copy, Debug, PartialEq, Eq)]
pub struct Stamp {
    identity: Identity,
    length: u64,
    /// When it was changed last: seconds, and nanoseconds of the last one.
    changed: (i64, i64),
}

impl Stamp {
    /// Returns what a file that was found is like.
    fn of(found: &Metadata) -> Stamp {
        Stamp {
            identity: Identity::of(found),
            length: found.len(),
            changed: (found.mtime(), found.mtime_nsec()),
        }
    }
}

/// Returns what the regular file that a name leads to is like now, or `None` if there is none.
pub fn stamp_of<R: Files>(rt: &R, file: &str) -> Option<Stamp> {
    match fs::metadata(rt, file) {
        Ok(found) if found.is_file() => Some(Stamp::of(&found)),
        _ => None,
    }
}

/// Returns what the file with a name is before it is written over, if `read` was read last. One that cannot be looked at
/// may be another.
pub fn standing<R: Files>(rt: &R, file: &str, read: Option<Stamp>) -> Standing {
    match fs::metadata(rt, file) {
        Ok(found) if !found.is_file() || found.len() == 0 => Standing::Nothing,
        Ok(found) if Some(Stamp::of(&found)) == read => Standing::AsRead,
        Err(error) if error.kind() == ErrorKind::NotFound => Standing::Nothing,
        _ => Standing::Other,
    }
}

/// Returns the identity of the file that a name leads to, or `None` if there is no such file.
pub fn identity_of<R: Files>(rt: &R, file: &str) -> io::Result<Option<Identity>> {
    match fs::metadata(rt, file) {
        Ok(found) => Ok(Some(Identity::of(&found))),
        Err(error) if error.kind() == ErrorKind::NotFound => Ok(None),
        Err(error) => Err(error),
    }
}

/// Returns whether two files of a call are one.
pub fn is_one_file<R: Files + AllocGlobal>(
    rt: &R,
    one: CallFile<'_>,
    other: CallFile<'_>,
) -> io::Result<bool> {
    match (path_of(rt, one)?, path_of(rt, other)?) {
        (Some(one), Some(other)) => are_one(rt, one.as_str(), other.as_str()),
        _ => Ok(false),
    }
}

/// Returns a path to a file of a call, or `None` if it is a standard stream that is no regular file.
fn path_of<R: Files + AllocGlobal>(rt: &R, file: CallFile<'_>) -> io::Result<Option<String>> {
    match file {
        CallFile::Named(name) => Ok(Some(String::from_str(rt.alloc(), name)?)),
        CallFile::Kept(name) => Ok(Some(kept_name(rt.alloc(), name, 1)?)),
        CallFile::Input => stream_path(rt, INPUT_PATH),
        CallFile::Output => stream_path(rt, OUTPUT_PATH),
    }
}

/// Returns this path to a standard stream if it is a regular file.
fn stream_path<R: Files + AllocGlobal>(rt: &R, path: &str) -> io::Result<Option<String>> {
    match fs::metadata(rt, path) {
        Ok(found) if found.is_file() => Ok(Some(String::from_str(rt.alloc(), path)?)),
        _ => Ok(None),
    }
}

/// Returns whether two names lead to one file, even if it does not exist yet. If the folder of a name cannot be found,
/// compares the names themselves.
pub fn are_one<R: Files + AllocGlobal>(rt: &R, one: &str, other: &str) -> io::Result<bool> {
    match (identity_of(rt, one), identity_of(rt, other)) {
        (Ok(Some(one)), Ok(Some(other))) => Ok(one == other),
        (Ok(None), Ok(None)) => is_one_place(rt, one, other),
        _ => Ok(one == other),
    }
}

/// Returns whether two names of files that do not exist have the same last component in the same folder, with all
/// symbolic links followed.
fn is_one_place<R: Files + AllocGlobal>(rt: &R, one: &str, other: &str) -> io::Result<bool> {
    let (one, other) = (followed(rt, one)?, followed(rt, other)?);
    if one.file_name() != other.file_name() {
        return Ok(false);
    }
    match (folder_of(rt, &one)?, folder_of(rt, &other)?) {
        (Some(folder), Some(same)) => Ok(folder == same),
        _ => Ok(one.as_str() == other.as_str()),
    }
}

/// Returns the identity of the folder of a file, or `None` if there is no such folder.
fn folder_of<R: Files + AllocGlobal>(rt: &R, path: &PathBuf) -> io::Result<Option<Identity>> {
    let folder = path.with_file_name(rt.alloc(), ".")?;
    identity_of(rt, folder.as_str())
}
