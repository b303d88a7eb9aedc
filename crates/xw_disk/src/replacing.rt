//! Replaces a file atomically, or keeps it under another name.
ghost use Rattle.std.specs.Prelude.{◌≡◌, IfOk};
ghost use Rattle.xw_disk.specs.Kept.{kept_name};

use crate::identity::{Identity, are_one, identity_of};
use std::alloc::{AllocError, Global};
use std::fs::{self, Metadata, OpenFile, OpenOptions, Permissions};
use std::io::{self, ErrorKind, Write};
use std::os::unix::fs::{FileTypeExt, OpenOptionsExt, PermissionsExt};
use std::path::PathBuf;
use std::rt::Files;

/// The maximum number of symbolic links followed in a row.
const MOST_LINKS: u32 = 40;

/// The bits of a mode that say who may read, write and execute a file.
const PERMISSION_BITS: u32 = 0o777;

/// Replaces the contents of a file: afterwards it has all the bytes, or is unchanged, even after a full disk, a failed
/// device or a kill. Anything but a regular file that a path leads to is written in place.
pub fn replace<R: Files + AllocGlobal>(rt: &R, file: &str, bytes: &[u8]) -> io::Result<()> {
    match fs::metadata(rt, file) {
        Ok(found) if found.is_file() => {
            // A file without write permission must not be replaced either.
            OpenOptions::new().write(true).open(rt, file)?;
            replace_found(rt, file, &found, bytes)
        }
        Ok(found) if found.file_type().is_fifo() => open_pipe(rt, file)?.write_all(bytes),
        Ok(_) => fs::write(rt, file, bytes),
        Err(error) if error.kind() == ErrorKind::NotFound => put_new(rt, file, None, bytes),
        Err(error) => Err(error),
    }
}

/// Replaces a regular file that was found under a name.
fn replace_found<R: Files + AllocGlobal>(
    rt: &R,
    file: &str,
    found: &Metadata,
    bytes: &[u8],
) -> io::Result<()> {
    match path_to(rt, file, found)? {
        Some(target) => put_at(rt, &target, Some(found.permissions().mode()), bytes),
        None => fs::write(rt, file, bytes),
    }
}

/// Returns the path to a file that was found under a name, with all symbolic links followed. Returns `None` if it does not
/// lead to the file: what a name such as `/dev/fd/3` leads to may have been deleted, or never have had a path.
pub fn path_to<R: Files + AllocGlobal>(
    rt: &R,
    file: &str,
    found: &Metadata,
) -> io::Result<Option<PathBuf>> {
    let target = followed(rt, file)?;
    if identity_of(rt, target.as_str())? == Some(Identity::of(found)) {
        Ok(Some(target))
    } else {
        Ok(None)
    }
}

/// Opens a pipe for writing. If no program reads it, a write to it fails.
fn open_pipe<R: Files>(rt: &R, file: &str) -> io::Result<R::File> {
    // This waits for no program, since it opens both ends. While it is open, the next one waits for none either.
    let _both_ends = OpenOptions::new().read(true).write(true).open(rt, file);
    OpenOptions::new().write(true).open(rt, file)
}

/// Fails if `replace` could not replace a file now. Changes no file, but for a new one that it removes at once. A device
/// or a pipe is not opened, since this can block.
pub fn try_replace<R: Files + AllocGlobal>(rt: &R, file: &str) -> io::Result<()> {
    match fs::metadata(rt, file) {
        Ok(found) if found.is_file() || found.is_dir() => {
            OpenOptions::new().write(true).open(rt, file)?;
            match path_to(rt, file, &found)? {
                Some(target) => try_new(rt, &target),
                None => Ok(()),
            }
        }
        Ok(_) => Ok(()),
        Err(error) if error.kind() == ErrorKind::NotFound && can_be_file(file) => {
            try_new(rt, &followed(rt, file)?)
        }
        Err(error) => Err(error),
    }
}

/// Returns whether a name can be that of a new file.
fn can_be_file(name: &str) -> bool {
    !name.is_empty() && !name.ends_with('/')
}

/// Creates a file beside another, and removes it.
fn try_new<R: Files + AllocGlobal>(rt: &R, target: &PathBuf) -> io::Result<()> {
    let (beside, _opened) = new_file(rt, target, None)?;
    let _ = fs::remove_file(rt, &beside);
    Ok(())
}

/// A file that was not kept: the number of the name that it was to get, and the error.
#[derive(Clone, Copy)]
pub struct NotKept {
    pub number: u32,
    pub error: io::Error,
}

/// Keeps these bytes of a file in a new one beside it, with the same mode, and returns the number of its name. The names
/// are tried in order; one that leads to `apart` is passed over.
pub fn keep<R: Files + AllocGlobal>(
    rt: &R,
    file: &str,
    apart: Option<&str>,
    bytes: &[u8],
) -> Result<u32, NotKept> {
    for number in 1..u32::MAX {
        match keep_as(rt, file, number, apart, bytes) {
            Ok(true) => return Ok(number),
            Ok(false) => {}
            Err(error) => return Err(NotKept { number, error }),
        }
    }
    let error = io::Error::from(ErrorKind::AlreadyExists);
    Err(NotKept { number: 1, error })
}

/// Keeps these bytes of a file under the name with this number, unless the name is taken or leads to `apart`. Returns
/// whether it did.
fn keep_as<R: Files + AllocGlobal>(
    rt: &R,
    file: &str,
    number: u32,
    apart: Option<&str>,
    bytes: &[u8],
) -> io::Result<bool> {
    let name = kept_name(rt.alloc(), file, number)?;
    if leads_to(rt, name.as_str(), apart)? {
        return Ok(false);
    }
    let mode = fs::metadata(rt, file)?.permissions().mode();
    create(rt, name.as_str(), mode, bytes)
}

/// Returns the name with this number, from 1, under which a file is kept.
pub fn kept_name(alloc: Global, file: &str, number: u32) -> Result<String, AllocError>
    ensures { IfOk result (λ name. name.bytes.items ≡ kept_name file.now number) }
{
    if number == 1 {
        return format!(in alloc; "{file}~");
    }
    let name = format!(in alloc; "{file}~{number}")?;
    Ok(name)
}

/// Returns whether a name leads to another file, if there is one.
pub fn leads_to<R: Files + AllocGlobal>(
    rt: &R,
    name: &str,
    other: Option<&str>,
) -> io::Result<bool> {
    match other {
        Some(other) => are_one(rt, name, other),
        None => Ok(false),
    }
}

/// Creates a file with these bytes, unless its name is taken. Returns whether it did. The file is empty until it has all
/// the bytes.
pub fn create<R: Files + AllocGlobal>(
    rt: &R,
    name: &str,
    mode: u32,
    bytes: &[u8],
) -> io::Result<bool> {
    match creating(Some(mode)).open(rt, name) {
        Ok(_) => {}
        Err(error) if error.kind() == ErrorKind::AlreadyExists => return Ok(false),
        Err(error) => return Err(error),
    }
    match put_new(rt, name, Some(mode), bytes) {
        Ok(()) => Ok(true),
        Err(error) => {
            let _ = fs::remove_file(rt, name);
            Err(error)
        }
    }
}

/// Follows one symbolic link. Returns whether the path was a link.
fn follow<R: Files + AllocGlobal>(rt: &R, path: &mut PathBuf) -> io::Result<bool> {
    match fs::symlink_metadata(rt, &*path) {
        Ok(found) if found.is_symlink() => {
            let next = fs::read_link(rt, &*path)?;
            path.pop();
            path.push(&next)?;
            Ok(true)
        }
        Err(error) if error.kind() != ErrorKind::NotFound => Err(error),
        _ => Ok(false),
    }
}

/// Returns the path after following all symbolic links.
pub fn followed<R: Files + AllocGlobal>(rt: &R, file: &str) -> io::Result<PathBuf> {
    let mut path = PathBuf::from_str(rt.alloc(), file)?;
    for _ in 0..MOST_LINKS {
        if !follow(rt, &mut path)? {
            return Ok(path);
        }
    }
    Err(io::Error::from(ErrorKind::FilesystemLoop))
}

/// Writes the bytes to a new file beside the target of a name, and renames it to the target.
fn put_new<R: Files + AllocGlobal>(
    rt: &R,
    file: &str,
    mode: Option<u32>,
    bytes: &[u8],
) -> io::Result<()> {
    put_at(rt, &followed(rt, file)?, mode, bytes)
}

/// Writes the bytes to a new file beside the target, and renames it to the target.
fn put_at<R: Files + AllocGlobal>(
    rt: &R,
    target: &PathBuf,
    mode: Option<u32>,
    bytes: &[u8],
) -> io::Result<()> {
    let (beside, _opened) = new_beside(rt, target, mode, bytes)?;
    put(rt, &beside, target)
}

/// Writes the bytes to a new file in the folder of the target. Returns its path and the open file, or removes it on
/// failure.
pub fn new_beside<R: Files + AllocGlobal>(
    rt: &R,
    target: &PathBuf,
    mode: Option<u32>,
    bytes: &[u8],
) -> io::Result<(PathBuf, R::File)> {
    let (beside, mut opened) = new_file(rt, target, mode)?;
    match fill(&mut opened, mode, bytes) {
        Ok(()) => Ok((beside, opened)),
        Err(error) => {
            let _ = fs::remove_file(rt, &beside);
            Err(error)
        }
    }
}

/// Renames a new file to its target, and syncs the folder to the device. Removes the new file on failure.
pub fn put<R: Files + AllocGlobal>(rt: &R, beside: &PathBuf, target: &PathBuf) -> io::Result<()> {
    if let Err(error) = fs::rename(rt, beside, target) {
        let _ = fs::remove_file(rt, beside);
        return Err(error);
    }
    // The file is already replaced, and not every file system can sync a folder.
    let _ = sync_folder(rt, target);
    Ok(())
}

/// Syncs the folder of a file to the device. Otherwise a power failure could lose the entry of a new file.
pub fn sync_folder<R: Files + AllocGlobal>(rt: &R, target: &PathBuf) -> io::Result<()> {
    let folder = target.with_file_name(rt.alloc(), ".")?;
    let opened = OpenOptions::new().read(true).open(rt, &folder)?;
    opened.sync_all()
}

/// Writes all bytes, syncs the file, and sets the mode of the file that it replaces.
fn fill<F: Write + OpenFile + Drop>(
    file: &mut F,
    mode: Option<u32>,
    bytes: &[u8],
) -> io::Result<()> {
    file.write_all(bytes)?;
    file.sync_all()?;
    match mode {
        Some(mode) => file.set_permissions(Permissions::from_mode(mode)),
        None => Ok(()),
    }
}

/// Returns the options that create a file for appending, with no more permissions than `mode`.
fn creating(mode: Option<u32>) -> OpenOptions {
    let mut options = OpenOptions::new();
    options.append(true).create_new(true);
    if let Some(mode) = mode {
        options.mode(mode & PERMISSION_BITS);
    }
    options
}

/// Returns the path next to the target that has this number in its name.
fn numbered(alloc: Global, target: &PathBuf, number: u32) -> Result<PathBuf, AllocError> {
    let name = format!(in alloc; ".xw-{number}.new")?;
    target.with_file_name(alloc, name.as_str())
}

/// Creates a file next to the target, under a name that is not in use, for appending. It never has more permissions
/// than the file that it replaces.
fn new_file<R: Files + AllocGlobal>(
    rt: &R,
    target: &PathBuf,
    mode: Option<u32>,
) -> io::Result<(PathBuf, R::File)> {
    let options = creating(mode);
    for number in 0..u32::MAX {
        let beside = numbered(rt.alloc(), target, number)?;
        match options.open(rt, &beside) {
            Ok(file) => return Ok((beside, file)),
            Err(error) if error.kind() == ErrorKind::AlreadyExists => {}
            Err(error) => return Err(error),
        }
    }
    Err(io::Error::from(ErrorKind::AlreadyExists))
}
