//! The trait of a disk. Its ghost log records what was asked of it and what it answered.
ghost use Rattle.std.specs.Prelude.{◌≡◌, List, [], ◌∷◌, ◌++◌, Result, Ok, Err, MatchResult, IfOk, IfSome};
ghost use Rattle.xw_disk.specs.Disk.{Event, read, try_, replace, keep, stands, leave, open_, begin, take_lines, find, end, started};

use std::alloc::AllocError;
use std::io;
use xw_lines::Sink;

/// Why a disk did not do what it was asked.
#[derive(Clone, Copy, Debug, PartialEq, Eq)]
pub enum DiskFault {
    /// An allocation failed.
    Memory,
    /// The file cannot be read.
    Unreadable,
    /// The file cannot be written.
    Unwritable,
    /// Another program has the file as its journal.
    InUse,
    /// The name no longer leads to the journal that was opened under it, or another program has changed its length.
    Replaced,
}

/// A file that was not kept: the number of the name that it was to get, and the fault.
#[derive(Clone, Copy, Debug)]
pub struct Unkept {
    pub number: u32,
    pub fault: DiskFault,
}

/// A file of a call: one that is named, or the one behind a standard stream.
#[derive(Clone, Copy, Debug)]
pub enum CallFile<'a> {
    Named(&'a str),
    /// The file that this one is kept as, beside it, if none is yet.
    Kept(&'a str),
    /// The file that standard input is read from, if it is a regular file.
    Input,
    /// The file that standard output goes to, if it is a regular file.
    Output,
}

/// Two files of a call that are one. Only a disk makes these.
#[derive(Clone, Copy, Debug)]
pub struct SameFile<'a> {
    one: CallFile<'a>,
    other: CallFile<'a>,
}

impl<'a> SameFile<'a> {
    pub(crate) fn new(one: CallFile<'a>, other: CallFile<'a>) -> SameFile<'a>
        ensures one { result.one ≡ one.entry }
        ensures other { result.other ≡ other.entry }
    {
        SameFile { one, other }
    }
}

/// What a file is before it is written over.
#[derive(Clone, Copy, Debug, PartialEq, Eq)]
pub enum Standing {
    /// There is no such file, it is empty, or it is not a regular file.
    Nothing,
    /// The file that `read` was asked for last, as it was then.
    AsRead,
    /// Another file, or the file that was read last if it has changed since.
    Other,
}

/// How an open file becomes a journal.
#[derive(Clone, Copy, Debug)]
pub enum Start<'a> {
    /// Empties the file and writes these bytes.
    Anew(&'a [u8]),
    /// Cuts the file to these bytes, which are its first ones.
    Cut(&'a [u8]),
    /// Replaces the file by a new one: the first bytes, and then the others.
    Put(&'a [u8], &'a [u8]),
}

/// The files of a call. The ghost `log` lists what was asked and what was answered. It does not say what a device
/// keeps.
pub trait Disk {
    /// An open file that no other program can use as its journal.
    type Opened: Drop;

    /// A journal that takes lines.
    type Journal: Sink + Drop;

    // all that was asked so far, with the answers
    ghost log: { Self → List Event };

    /// Returns the bytes of a file. The name `-` stands for standard input.
    fn read(&mut self, name: &str) -> Result<Vec<u8>, DiskFault>
        ensures { MatchResult result
            (λ bytes. log self.new ≡ log self.old ++ read name.now (Ok bytes.items) ∷ [])
            (λ fault. log self.new ≡ log self.old ++ read name.now (Err fault) ∷ []) };

    /// Returns the bytes of a file that is to be replaced. The name `-` is a name like any other.
    fn read_own(&mut self, name: &str) -> Result<Vec<u8>, DiskFault>
        ensures { MatchResult result
            (λ bytes. log self.new ≡ log self.old ++ read name.now (Ok bytes.items) ∷ [])
            (λ fault. log self.new ≡ log self.old ++ read name.now (Err fault) ∷ []) };

    /// Replaces a file by these bytes, unless another program has it as its journal.
    fn replace(&mut self, name: &str, bytes: &[u8]) -> Result<(), DiskFault>
        ensures { log self.new ≡ log self.old ++ replace name.now bytes.now result ∷ [] };

    /// Fails if `replace` could not replace a file now. Changes no file.
    fn try_replace(&mut self, name: &str) -> Result<(), DiskFault>
        ensures { log self.new ≡ log self.old ++ try_ name.now result ∷ [] };

    /// Keeps these bytes of a file in a new one beside it, with the same mode. Its name is the name of the file and `~`,
    /// or `~2`, `~3` and so on: the first that no file has and that does not lead to `apart`. Returns the number of this
    /// name, from 1.
    fn keep(&mut self, name: &str, apart: Option<&str>, bytes: &[u8]) -> Result<u32, Unkept>
        ensures { MatchResult result
            (λ number. log self.new ≡ log self.old ++ keep name.now bytes.now number (Ok tt) ∷ [])
            (λ unkept. log self.new ≡ log self.old ++ keep name.now bytes.now unkept.number (Err unkept.fault) ∷ []) };

    /// Returns what the file with a name is before it is written over.
    fn standing(&mut self, name: &str) -> Standing
        ensures { log self.new ≡ log self.old ++ stands name.now result ∷ [] };

    /// Leaves bytes that a file did not get in a new file, which nobody else may read, and returns its name. It is beside the
    /// file unless that is a device or a pipe, in the current folder or in `/tmp`, is named as a file that is kept, and does
    /// not lead to `apart`.
    fn leave(&mut self, name: &str, apart: Option<&str>, bytes: &[u8]) -> Result<String, DiskFault>
        ensures { MatchResult result
            (λ place. log self.new ≡ log self.old ++ leave name.now bytes.now (Ok place.bytes.items) ∷ [])
            (λ fault. log self.new ≡ log self.old ++ leave name.now bytes.now (Err fault) ∷ []) };

    /// Opens a journal, or creates it, and returns its bytes. No other program can then use it.
    fn open_journal(&mut self, name: &str) -> Result<(Self::Opened, Vec<u8>), DiskFault>
        ensures { MatchResult result
            (λ opened. log self.new ≡ log self.old ++ open_ name.now (Ok opened.1.items) ∷ [])
            (λ fault. log self.new ≡ log self.old ++ open_ name.now (Err fault) ∷ []) };

    /// Makes an open file a journal that lines can be appended to. If `is_synced` is set, each flush syncs the lines
    /// to the device.
    fn begin_journal(
        &mut self,
        name: &str,
        opened: Self::Opened,
        start: Start<'_>,
        is_synced: bool,
    ) -> Result<Self::Journal, DiskFault>
        ensures log { MatchResult result
            (λ _. log self.new ≡ log self.old ++ begin name.now (started start.entry) is_synced (Ok tt) ∷ [])
            (λ fault. log self.new ≡ log self.old ++ begin name.now (started start.entry) is_synced (Err fault) ∷ []) }
        ensures transcript { IfOk result (λ journal. Self.Journal.transcript journal ≡ []) }
        ensures failures { IfOk result (λ journal. Self.Journal.failures journal ≡ 0) };

    /// Closes a journal for writing. No other program can use it as long as the disk lives. Unwritten lines are lost,
    /// since their write failed.
    fn close_journal(&mut self, name: &str, journal: Self::Journal)
        ensures { log self.new ≡ log self.old ++ take_lines name.now (Self.Journal.transcript journal) ∷ [] };

    /// Returns whether a write to the journal failed because its name no longer led to it, or another program had changed
    /// its length.
    fn is_lost(&self) -> bool;

    /// Fails if the name of the journal no longer leads to it, or another program has changed its length.
    fn find_journal(&mut self, name: &str) -> Result<(), DiskFault>
        ensures { log self.new ≡ log self.old ++ find name.now result ∷ [] };

    /// Replaces a journal by these bytes.
    fn end_journal(&mut self, name: &str, bytes: &[u8]) -> Result<(), DiskFault>
        ensures { log self.new ≡ log self.old ++ end name.now bytes.now result ∷ [] };

    /// Returns two files of a call as one, or `None` if they are two. Their names may differ all the same.
    fn same_file<'a>(
        &self,
        one: CallFile<'a>,
        other: CallFile<'a>,
    ) -> Result<Option<SameFile<'a>>, AllocError>
        ensures { IfOk result (λ found. IfSome found (λ same. (same.one ≡ one.entry) × (same.other ≡ other.entry))) };

    /// Returns whether no other program has a file as its journal.
    fn is_free(&self, name: &str) -> bool;

    /// Returns the error of the call that failed last. After a write to the journal failed, returns the error of that
    /// write.
    fn error(&self) -> Option<io::Error>;
}
