//! The file of a journal, open for appending, and the writer for its lines.
ghost use Rattle.std.specs.Prelude.{◌≡◌, [], ◌≤◌, length, IfOk};
ghost use Rattle.std.specs.Io.KnownBytes.{Keeps, WriteAppends};
ghost use Rattle.std.specs.Io.Buffered.{writer_inner};

use crate::identity::Identity;
use std::alloc::{AllocError, Global};
use std::fs::{self, OpenFile};
use std::io::{self, BufWriter, ErrorKind, Write};
use std::rt::Files;
use xw_lines::history::History;
use xw_lines::{DeviceFault, Sink, ToWrite};

/// The size of the buffer in bytes. The lines of almost any command fit, so they are written in one call.
const GATHERED: usize = 65536;

/// The name of an open file.
pub trait Place {
    /// Returns whether the name still leads to the file, and the file has this length.
    fn is_there(&self, length: u64) -> io::Result<bool>;
}

/// The name of an open journal.
#[derive(Drop)]
pub struct JournalName<R: Files + Drop> {
    pub rt: R,
    pub file: String,
    pub identity: Identity,
}

impl<R: Files + Drop> Place for JournalName<R> {
    fn is_there(&self, length: u64) -> io::Result<bool> {
        match fs::metadata(&self.rt, &self.file) {
            Ok(found) => Ok(Identity::of(&found) == self.identity && found.len() == length),
            Err(error) if error.kind() == ErrorKind::NotFound => Ok(false),
            Err(error) => Err(error),
        }
    }
}

/// A file that is open for appending. If a write or a flush fails, everything written since the last flush is removed.
/// If `is_synced` is set, a flush also syncs the file to the device.
#[derive(Drop)]
pub struct Appended<F: Drop, P: Drop> {
    file: F,
    place: P,
    is_synced: bool,
    /// The length of the file at the last flush.
    length: u64,
    /// The number of bytes written since then.
    written: u64,
    is_lost: bool,
    /// The error of the last write or flush that failed.
    error: Option<io::Error>,
}

impl<F: Write + OpenFile + Drop, P: Place + Drop> Appended<F, P> {
    /// Appends to an open file of this length.
    pub fn new(file: F, place: P, length: u64, is_synced: bool) -> Appended<F, P>
        ensures file { result.file ≡ file }
        ensures synced { result.is_synced ≡ is_synced }
    {
        Appended {
            file,
            place,
            is_synced,
            length,
            written: 0,
            is_lost: false,
            error: None,
        }
    }

    /// Returns whether a write failed because the name no longer led to the file, or another program had changed its
    /// length.
    pub fn is_lost(&self) -> bool {
        self.is_lost
    }

    /// Returns the error of the last write or flush that failed.
    pub fn error(&self) -> Option<io::Error> {
        self.error
    }

    /// Returns whether the name still leads to the file, and no other program has changed its length.
    pub fn is_there(&self) -> io::Result<bool> {
        self.place.is_there(self.own_length())
    }

    /// Returns the length that the file has unless another program changes it.
    fn own_length(&self) -> u64 {
        self.length.saturating_add(self.written)
    }

    /// Writes to the file if its name still leads to it, and no other program has changed its length.
    fn append(&mut self, bytes: &[u8]) -> io::Result<usize>
        ensures bound { IfOk result (λ count. count ≤ length bytes.now) }
        ensures bytes { WriteAppends (F.contents self.old.file) (F.contents self.new.file) result bytes.now }
    {
        if !self.is_there()? {
            self.is_lost = true;
            return Err(io::Error::from(ErrorKind::NotFound));
        }
        match self.file.write(bytes)? {
            0 if !bytes.is_empty() => Err(io::Error::from(ErrorKind::WriteZero)),
            count => Ok(count),
        }
    }

    /// Flushes the file, and syncs it to the device if `is_synced` is set.
    fn bring(&mut self) -> io::Result<()>
        ensures { Keeps (F.contents self.old.file) (F.contents self.new.file) }
    {
        self.file.flush()?;
        if self.is_synced {
            self.file.sync_data()?;
        }
        Ok(())
    }

    /// Removes what was written since the last flush, and keeps the error of the call that failed.
    fn fail(&mut self, error: io::Error)
        ensures { self.new.file ≡ self.old.file }
    {
        self.take_back();
        self.error = Some(error);
    }

    /// Cuts the file to its length at the last flush, unless another program has changed its length. If this fails too,
    /// the next start drops what is left of the line.
    fn take_back(&mut self)
        ensures { self.new.file ≡ self.old.file }
    {
        if self.written > 0 && !self.is_changed() {
            let _ = self.file.set_len(self.length);
        }
        self.written = 0;
    }

    /// Returns whether another program has changed the length of the file.
    fn is_changed(&self) -> bool {
        match self.file.metadata() {
            Ok(found) => found.len() != self.own_length(),
            Err(_) => false,
        }
    }
}

impl<F: Write + OpenFile + Drop, P: Place + Drop> Write for Appended<F, P> {
    ghost contents = { λ appended. F.contents appended.file };

    fn write(&mut self, bytes: &[u8]) -> io::Result<usize> {
        match self.append(bytes) {
            Ok(count) => {
                self.written = self.written.saturating_add(count as u64);
                Ok(count)
            }
            Err(error) => {
                if error.kind() != ErrorKind::Interrupted {
                    self.fail(error);
                }
                Err(error)
            }
        }
    }

    fn flush(&mut self) -> io::Result<()> {
        match self.bring() {
            Ok(()) => {
                self.length = self.length.saturating_add(self.written);
                self.written = 0;
                Ok(())
            }
            Err(error) => {
                self.fail(error);
                Err(error)
            }
        }
    }
}

/// The writer of a journal.
#[derive(Drop)]
pub struct JournalWriter<F: Write + OpenFile + Drop, P: Place + Drop> {
    sink: ToWrite<BufWriter<Appended<F, P>>>,
}

impl<F: Write + OpenFile + Drop, P: Place + Drop> JournalWriter<F, P> {
    /// Appends to a file, one flush at a time.
    pub fn new(alloc: Global, appended: Appended<F, P>) -> Result<JournalWriter<F, P>, AllocError>
        ensures transcript { IfOk result (λ journal. journal.sink.transcript.transcript ≡ []) }
        ensures failures { IfOk result (λ journal. journal.sink.failures ≡ 0) }
        ensures file { IfOk result (λ journal. writer_inner journal.sink.writer ≡ appended) }
    {
        match BufWriter::with_capacity(alloc, GATHERED, appended) {
            Ok(writer) => Ok(JournalWriter {
                sink: ToWrite::new(writer),
            }),
            Err(_) => Err(AllocError),
        }
    }

    /// Returns the record of what was written, for proofs only.
    pub fn transcript(&self) -> &History
        ensures { result.now ≡ self.now.sink.transcript }
    {
        self.sink.transcript()
    }

    /// Returns the file. This discards the unwritten bytes, since their write failed.
    pub fn into_appended(self) -> Appended<F, P> {
        let (appended, _unwritten) = self.sink.into_writer().into_parts();
        appended
    }
}

impl<F: Write + OpenFile + Drop, P: Place + Drop> Sink for JournalWriter<F, P> {
    ghost transcript = { λ journal. journal.sink.transcript.transcript };

    ghost failures = { λ journal. journal.sink.failures };

    fn write(&mut self, bytes: &[u8]) -> Result<usize, DeviceFault> {
        self.sink.write(bytes)
    }

    fn flush(&mut self) -> Result<(), DeviceFault> {
        self.sink.flush()
    }
}
