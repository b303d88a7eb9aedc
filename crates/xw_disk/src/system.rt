//! The disk of the operating system.
ghost use Rattle.std.specs.Prelude.{◌≡◌, [], ◌∷◌, ◌++◌, MatchResult, IfOk};
ghost use Rattle.std.specs.Io.Buffered.{writer_inner};
ghost use Rattle.xw_disk.specs.CallFile.{IsSource};
ghost use Rattle.xw_disk.specs.Disk.{begin, started};

use crate::appended::{Appended, JournalName, JournalWriter, Place};
use crate::asked::Asked;
use crate::disk::{CallFile, Disk, DiskFault, SameFile, Standing, Start, Unkept};
use crate::identity::{INPUT_PATH, Stamp, is_one_file, stamp_of, standing};
use crate::leaving::leave;
use crate::locks::{Held, Locks, System, hold};
use crate::log::DiskLog;
use crate::opening::{self, Failed, in_use, unreadable, unwritable};
use crate::reading;
use crate::replacing::{NotKept, keep, replace, try_replace};
use std::alloc::AllocError;
use std::fs::OpenFile;
use std::io::{self, ErrorKind, Write};

/// The name that stands for standard input.
const INPUT: &str = "-";

/// The files of the operating system as a `Disk`.
#[derive(Drop)]
pub struct SystemDisk<'a, R: System + Drop> {
    rt: &'a R,
    /// The regular file that `read` was asked for last, as it was then.
    read: Option<Stamp>,
    /// The journal after `close_journal`. It is still locked.
    closed: Option<Appended<R::File, JournalName<R>>>,
    /// The error of the call that failed last.
    error: Option<io::Error>,
    log: DiskLog,
}

impl<'a, R: System + AllocGlobal + Clone + Drop> SystemDisk<'a, R> {
    pub fn new(rt: &'a R) -> SystemDisk<'a, R>
        ensures { result.log.events ≡ [] }
    {
        SystemDisk {
            rt,
            read: None,
            closed: None,
            error: None,
            log: DiskLog::new(),
        }
    }

    /// Keeps the error of a call that failed, and returns its fault.
    fn failed(&mut self, failed: Failed) -> DiskFault
        ensures { self.new.log ≡ self.old.log }
    {
        self.error = failed.error;
        failed.fault
    }

    /// Keeps the error of a call if it failed, and returns its answer.
    fn answer(&mut self, done: Result<(), Failed>) -> Result<(), DiskFault>
        ensures { self.new.log ≡ self.old.log }
    {
        match done {
            Ok(()) => Ok(()),
            Err(failed) => Err(self.failed(failed)),
        }
    }
}

/// Returns the regular file that is read by a name, as it is now. The name `-` stands for standard input.
fn stamp_to_read<R: System>(rt: &R, name: &str) -> Option<Stamp> {
    if name == INPUT {
        stamp_of(rt, INPUT_PATH)
    } else {
        stamp_of(rt, name)
    }
}

/// Returns the bytes of a file, or the rest of standard input.
fn bytes_of<R: System + AllocGlobal>(rt: &R, name: &str) -> io::Result<Vec<u8>> {
    if name == INPUT {
        rt.read_input()
    } else {
        reading::read(rt, name)
    }
}

/// Returns the file that is read by a name. The name `-` stands for standard input.
pub fn source<'a>(name: &'a str) -> CallFile<'a>
    ensures { IsSource name.entry.now result }
{
    if name == INPUT {
        CallFile::Input
    } else {
        CallFile::Named(name)
    }
}

/// Returns whether two files are named alike.
fn have_one_name(one: CallFile<'_>, other: CallFile<'_>) -> bool {
    match (one, other) {
        (CallFile::Named(one), CallFile::Named(other)) => one == other,
        _ => false,
    }
}

/// Returns whether two files of a call are one. If that cannot be found, compares their names.
fn is_found_one<R: System + AllocGlobal>(
    rt: &R,
    one: CallFile<'_>,
    other: CallFile<'_>,
) -> Result<bool, AllocError> {
    match is_one_file(rt, one, other) {
        Ok(is_one) => Ok(is_one),
        Err(error) if error.kind() == ErrorKind::OutOfMemory => Err(AllocError),
        Err(_) => Ok(have_one_name(one, other)),
    }
}

/// Replaces a file by these bytes, unless another program has it as its journal.
fn replace_free<R: Locks + AllocGlobal>(rt: &R, name: &str, bytes: &[u8]) -> Result<(), Failed> {
    match hold(rt, name) {
        Held::Free(_file) => replace(rt, name, bytes).map_err(unwritable),
        Held::InUse => Err(in_use()),
    }
}

/// Fails if the name of a journal no longer leads to it, or another program has changed its length.
fn found<F: Write + OpenFile + Drop, P: Place + Drop>(
    journal: &Option<Appended<F, P>>,
) -> Result<(), DiskFault> {
    let Some(journal) = journal else {
        return Ok(());
    };
    match journal.is_there() {
        Ok(true) => Ok(()),
        Ok(false) => Err(DiskFault::Replaced),
        Err(error) => Err(unwritable(error).fault),
    }
}

impl<'a, R: System + AllocGlobal + Clone + Drop> Disk for SystemDisk<'a, R> {
    type Opened = R::File;

    type Journal = JournalWriter<R::File, JournalName<R>>;

    ghost log = { λ disk. disk.log.events };

    fn read(&mut self, name: &str) -> Result<Vec<u8>, DiskFault> {
        self.read = stamp_to_read(self.rt, name);
        match bytes_of(self.rt, name) {
            Ok(bytes) => {
                self.log.note(&Asked::Read(name, bytes.as_slice()));
                Ok(bytes)
            }
            Err(error) => {
                let fault = self.failed(unreadable(error));
                self.log.note(&Asked::Unread(name, fault));
                Err(fault)
            }
        }
    }

    fn read_own(&mut self, name: &str) -> Result<Vec<u8>, DiskFault> {
        match reading::read(self.rt, name) {
            Ok(bytes) => {
                self.log.note(&Asked::Read(name, bytes.as_slice()));
                Ok(bytes)
            }
            Err(error) => {
                let fault = self.failed(unreadable(error));
                self.log.note(&Asked::Unread(name, fault));
                Err(fault)
            }
        }
    }

    fn replace(&mut self, name: &str, bytes: &[u8]) -> Result<(), DiskFault> {
        let answer = self.answer(replace_free(self.rt, name, bytes));
        self.log.note(&Asked::Replace(name, bytes, answer));
        answer
    }

    fn try_replace(&mut self, name: &str) -> Result<(), DiskFault> {
        let answer = self.answer(try_replace(self.rt, name).map_err(unwritable));
        self.log.note(&Asked::Try(name, answer));
        answer
    }

    fn keep(&mut self, name: &str, apart: Option<&str>, bytes: &[u8]) -> Result<u32, Unkept> {
        match keep(self.rt, name, apart, bytes) {
            Ok(number) => {
                self.log.note(&Asked::Keep(name, bytes, number));
                Ok(number)
            }
            Err(NotKept { number, error }) => {
                let fault = self.failed(unwritable(error));
                let unkept = Unkept { number, fault };
                self.log.note(&Asked::Unkept(name, bytes, unkept));
                Err(unkept)
            }
        }
    }

    fn standing(&mut self, name: &str) -> Standing {
        let found = standing(self.rt, name, self.read);
        self.log.note(&Asked::Stands(name, found));
        found
    }

    fn leave(
        &mut self,
        name: &str,
        apart: Option<&str>,
        bytes: &[u8],
    ) -> Result<String, DiskFault> {
        match leave(self.rt, name, apart, bytes) {
            Ok(place) => {
                self.log.note(&Asked::Leave(name, bytes, place.as_str()));
                Ok(place)
            }
            Err(error) => {
                let fault = unwritable(error).fault;
                self.log.note(&Asked::Unleft(name, bytes, fault));
                Err(fault)
            }
        }
    }

    fn open_journal(&mut self, name: &str) -> Result<(R::File, Vec<u8>), DiskFault> {
        match opening::open_journal(self.rt, name) {
            Ok((opened, bytes)) => {
                self.log.note(&Asked::Open(name, bytes.as_slice()));
                Ok((opened, bytes))
            }
            Err(failed) => {
                let fault = self.failed(failed);
                self.log.note(&Asked::Unopened(name, fault));
                Err(fault)
            }
        }
    }

    fn begin_journal(
        &mut self,
        name: &str,
        opened: R::File,
        start: Start<'_>,
        is_synced: bool,
    ) -> Result<JournalWriter<R::File, JournalName<R>>, DiskFault>
        ensures log { MatchResult result
            (λ _. self.new.log.events ≡ self.old.log.events ++ begin name.now (started start.entry) is_synced (Ok tt) ∷ [])
            (λ fault. self.new.log.events ≡ self.old.log.events ++ begin name.now (started start.entry) is_synced (Err fault) ∷ []) }
        ensures transcript { IfOk result (λ journal. journal.sink.transcript.transcript ≡ []) }
        ensures failures { IfOk result (λ journal. journal.sink.failures ≡ 0) }
        ensures synced { IfOk result (λ journal. (writer_inner journal.sink.writer).is_synced ≡ is_synced) }
    {
        match opening::begin_journal(self.rt, name, opened, start, is_synced) {
            Ok(journal) => {
                self.log.note(&Asked::Begin(name, start, is_synced, Ok(())));
                Ok(journal)
            }
            Err(failed) => {
                let fault = self.failed(failed);
                self.log
                    .note(&Asked::Begin(name, start, is_synced, Err(fault)));
                Err(fault)
            }
        }
    }

    fn close_journal(&mut self, name: &str, journal: JournalWriter<R::File, JournalName<R>>) {
        self.log.note(&Asked::TakeLines(name, journal.transcript()));
        self.closed = Some(journal.into_appended());
    }

    fn is_lost(&self) -> bool {
        match &self.closed {
            Some(journal) => journal.is_lost(),
            None => false,
        }
    }

    fn find_journal(&mut self, name: &str) -> Result<(), DiskFault> {
        let answer = found(&self.closed);
        self.log.note(&Asked::Find(name, answer));
        answer
    }

    fn end_journal(&mut self, name: &str, bytes: &[u8]) -> Result<(), DiskFault> {
        let answer = self.answer(replace(self.rt, name, bytes).map_err(unwritable));
        self.log.note(&Asked::End(name, bytes, answer));
        answer
    }

    fn same_file<'f>(
        &self,
        one: CallFile<'f>,
        other: CallFile<'f>,
    ) -> Result<Option<SameFile<'f>>, AllocError> {
        if is_found_one(self.rt, one, other)? {
            return Ok(Some(SameFile::new(one, other)));
        }
        Ok(None)
    }

    fn is_free(&self, name: &str) -> bool {
        match hold(self.rt, name) {
            Held::Free(_file) => true,
            Held::InUse => false,
        }
    }

    fn error(&self) -> Option<io::Error> {
        match &self.closed {
            Some(journal) if journal.error().is_some() => journal.error(),
            _ => self.error,
        }
    }
}
