//! Opens the file of a journal, and prepares it for appending lines.
ghost use Rattle.std.specs.Prelude.{◌≡◌, [], IfOk};
ghost use Rattle.std.specs.Io.Buffered.{writer_inner};

use crate::appended::{Appended, JournalName, JournalWriter};
use crate::disk::{DiskFault, Start};
use crate::identity::{Identity, identity_of};
use crate::locks::Locks;
use crate::replacing::{followed, new_beside, path_to, put, sync_folder};
use std::alloc::{AllocError, Global};
use std::fs::{self, OpenFile, OpenOptions};
use std::io::{self, ErrorKind, Read, Write};
use std::os::unix::fs::PermissionsExt;
use std::path::PathBuf;
use std::rt::Files;

/// A fault of a disk, with the error that caused it.
#[derive(Clone, Copy)]
pub struct Failed {
    pub fault: DiskFault,
    /// `None` if the file is the journal of another program.
    pub error: Option<io::Error>,
}

/// Returns why a file cannot be read.
pub fn unreadable(error: io::Error) -> Failed {
    with_error(DiskFault::Unreadable, error)
}

/// Returns why a file cannot be written.
pub fn unwritable(error: io::Error) -> Failed {
    with_error(DiskFault::Unwritable, error)
}

/// Returns a fault with its error; the fault is `Memory` if the error says so.
fn with_error(fault: DiskFault, error: io::Error) -> Failed {
    let fault = match error.kind() {
        ErrorKind::OutOfMemory => DiskFault::Memory,
        _ => fault,
    };
    Failed {
        fault,
        error: Some(error),
    }
}

/// Returns the fault of a file that is the journal of another program.
pub fn in_use() -> Failed {
    Failed {
        fault: DiskFault::InUse,
        error: None,
    }
}

/// Opens a journal, or creates it, and locks it. Returns the open file and its bytes.
pub fn open_journal<R: Locks + AllocGlobal>(
    rt: &R,
    file: &str,
) -> Result<(R::File, Vec<u8>), Failed> {
    let mut opened = open_regular(rt, file).map_err(unwritable)?;
    match lock(rt, file, &opened) {
        Ok(true) => {}
        Ok(false) => return Err(in_use()),
        Err(error) => return Err(unwritable(error)),
    }
    match read_whole(rt.alloc(), &mut opened) {
        Ok(bytes) => Ok((opened, bytes)),
        Err(error) => Err(unreadable(error)),
    }
}

/// Opens a file for reading and appending, or creates it. Anything but a regular file is refused and not opened, since
/// opening a pipe can block.
fn open_regular<R: Files>(rt: &R, file: &str) -> io::Result<R::File> {
    match fs::metadata(rt, file) {
        Ok(found) if found.is_dir() => return Err(io::Error::from(ErrorKind::InvalidInput)),
        Ok(found) if !found.is_file() => return Err(io::Error::from(ErrorKind::Unsupported)),
        Err(error) if error.kind() != ErrorKind::NotFound => return Err(error),
        _ => {}
    }
    OpenOptions::new()
        .read(true)
        .append(true)
        .create(true)
        .open(rt, file)
}

/// Locks an open file. Returns `false` if another program holds the lock, or held it and has replaced the file
/// meanwhile.
fn lock<R: Locks>(rt: &R, file: &str, opened: &R::File) -> io::Result<bool> {
    if !rt.try_lock(opened)? {
        return Ok(false);
    }
    let own = Identity::of(&opened.metadata()?);
    Ok(identity_of(rt, file)? == Some(own))
}

/// Returns the bytes of an open file.
fn read_whole<F: Read>(alloc: Global, file: &mut F) -> io::Result<Vec<u8>> {
    let mut bytes = Vec::new(alloc);
    file.read_to_end(&mut bytes)?;
    Ok(bytes)
}

/// Makes an open file a journal, and returns the writer that appends to it.
pub fn begin_journal<R: Locks + AllocGlobal + Clone + Drop>(
    rt: &R,
    file: &str,
    opened: R::File,
    start: Start<'_>,
    is_synced: bool,
) -> Result<JournalWriter<R::File, JournalName<R>>, Failed>
    ensures transcript { IfOk result (λ journal. journal.sink.transcript.transcript ≡ []) }
    ensures failures { IfOk result (λ journal. journal.sink.failures ≡ 0) }
    ensures synced { IfOk result (λ journal. (writer_inner journal.sink.writer).is_synced ≡ is_synced) }
{
    match begin(rt, file, opened, start) {
        Ok(begun) => match appending(rt, file, begun, is_synced) {
            Ok(journal) => Ok(journal),
            Err(error) => Err(unwritable(error)),
        },
        Err(error) => Err(unwritable(error)),
    }
}

/// Gives an open file the bytes of `start`. Returns the file that then has the name.
fn begin<R: Locks + AllocGlobal>(
    rt: &R,
    file: &str,
    opened: R::File,
    start: Start<'_>,
) -> io::Result<R::File> {
    match start {
        Start::Anew(bytes) => write_anew(opened, bytes),
        Start::Cut(whole) => cut(opened, whole.len()),
        Start::Put(first, others) => put_first(rt, file, &opened, first, others),
    }
}

/// Empties a file, and writes these bytes.
fn write_anew<F: Write + OpenFile + Drop>(mut opened: F, bytes: &[u8]) -> io::Result<F> {
    opened.set_len(0)?;
    if let Err(error) = opened.write_all(bytes) {
        let _ = opened.set_len(0);
        return Err(error);
    }
    Ok(opened)
}

/// Cuts a file to a length, if it is longer.
fn cut<F: OpenFile + Drop>(opened: F, whole: usize) -> io::Result<F> {
    if (whole as u64) < opened.metadata()?.len() {
        opened.set_len(whole as u64)?;
    }
    Ok(opened)
}

/// Replaces a file by a new one with the bytes `first` and `others`. The new file is locked before it gets the name.
/// Returns the new file.
fn put_first<R: Locks + AllocGlobal>(
    rt: &R,
    file: &str,
    opened: &R::File,
    first: &[u8],
    others: &[u8],
) -> io::Result<R::File> {
    let found = opened.metadata()?;
    let Some(target) = path_to(rt, file, &found)? else {
        return Err(io::Error::from(ErrorKind::NotFound));
    };
    let whole = joined(rt.alloc(), first, others)?;
    put_locked(rt, &target, found.permissions().mode(), whole.as_slice())
}

/// Returns the bytes `first`, and behind them `others`.
fn joined(alloc: Global, first: &[u8], others: &[u8]) -> Result<Vec<u8>, AllocError> {
    let mut whole = Vec::with_capacity(alloc, first.len().saturating_add(others.len()))?;
    whole.extend_from_slice(first)?;
    whole.extend_from_slice(others)?;
    Ok(whole)
}

/// Replaces a file by a new one with these bytes, which is locked before it gets the name. Returns the new file.
fn put_locked<R: Locks + AllocGlobal>(
    rt: &R,
    target: &PathBuf,
    mode: u32,
    bytes: &[u8],
) -> io::Result<R::File> {
    let (beside, renamed) = new_beside(rt, target, Some(mode), bytes)?;
    if let Err(error) = rt.try_lock(&renamed) {
        let _ = fs::remove_file(rt, &beside);
        return Err(error);
    }
    put(rt, &beside, target)?;
    Ok(renamed)
}

/// Returns a writer that appends to the open file of a journal. If `is_synced` is set, syncs the folder of the file to
/// the device.
fn appending<R: Locks + AllocGlobal + Clone + Drop>(
    rt: &R,
    file: &str,
    opened: R::File,
    is_synced: bool,
) -> io::Result<JournalWriter<R::File, JournalName<R>>>
    ensures transcript { IfOk result (λ journal. journal.sink.transcript.transcript ≡ []) }
    ensures failures { IfOk result (λ journal. journal.sink.failures ≡ 0) }
    ensures synced { IfOk result (λ journal. (writer_inner journal.sink.writer).is_synced ≡ is_synced) }
{
    let found = opened.metadata()?;
    if is_synced {
        // Not every file system can sync a folder.
        let _ = sync_entry(rt, file);
    }
    let place = JournalName {
        rt: rt.clone()?,
        file: String::from_str(rt.alloc(), file)?,
        identity: Identity::of(&found),
    };
    let appended = Appended::new(opened, place, found.len(), is_synced);
    Ok(JournalWriter::new(rt.alloc(), appended)?)
}

fn sync_entry<R: Files + AllocGlobal>(rt: &R, file: &str) -> io::Result<()> {
    sync_folder(rt, &followed(rt, file)?)
}
