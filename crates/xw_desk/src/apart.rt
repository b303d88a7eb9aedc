//! Keeps the files of a call apart: a file that is written must be no other file of the call, nor the journal of
//! another program.
ghost use Rattle.std.specs.Prelude.{◌≡◌, is_some, option_map, IfErr, IfSome, OnOk};
ghost use Rattle.xw_disk.specs.CallFile.{IsKeptAs, IsNamed, IsSource};
ghost use Rattle.xw_desk.specs.Apart.{AreInUse, AreUnwritable, AreWritable, CanWrite, has, is_input, name_of, conflict_of, reads_input, conflict_with_journal, conflict_with_puzzle, conflict_with_read, conflict_with_session, IsFileOf, IsNotApart, IsReadTwice, IsRefused, IsRefusedJournal, IsRefusedPuz, IsRefusedWrite};
ghost use Rattle.xw_desk.specs.Files.{IfNamed};
ghost use Rattle.xw_desk.specs.Failures.{reason};

use crate::desk::Desk;
use crate::failure::Failure;
use crate::names::kind_by_name;
use crate::outlet::Outlet;
use xw_arguments::SessionFiles;
use xw_disk::identity::INPUT_PATH;
use xw_disk::system::source;
use xw_disk::{CallFile, Disk};
use xw_files::Kind;
use xw_lines::{Sink, Source};

/// What a call does with a file.
#[derive(Clone, Copy, Debug, PartialEq, Eq)]
pub enum FileRole {
    /// The file that standard output goes to.
    Output,
    /// The file that is kept beside the session.
    Kept,
    /// The word list.
    List,
    /// The puzzle to start with.
    Puzzle,
    /// The commands to start with.
    Start,
    /// The file of the commands that come on standard input.
    Commands,
    /// Whatever standard input is.
    Input,
    /// The puzzle to write.
    Written,
    /// The session to write.
    Session,
    /// The journal.
    Journal,
}

/// All roles.
const ROLES: [FileRole; 10] = [
    FileRole::Output,
    FileRole::Kept,
    FileRole::List,
    FileRole::Puzzle,
    FileRole::Start,
    FileRole::Commands,
    FileRole::Input,
    FileRole::Written,
    FileRole::Session,
    FileRole::Journal,
];

/// Two files of a call that must not be one.
#[derive(Clone, Copy, Debug, PartialEq, Eq)]
pub enum FileConflict {
    /// The word list, and a file to write.
    ListAndWritten,
    /// The puzzle and the session to write.
    PuzzleAndSession,
    /// The puzzle to start with, and the session to write.
    StartAndSession,
    /// The commands to start with, and the puzzle to write.
    StartAndPuzzle,
    /// Standard input, and a file to write.
    InputAndWritten,
    /// Standard output, and another file.
    OutputAndOther,
    /// Another file, and the journal.
    OtherAndJournal,
}

impl FileConflict {
    /// Returns why the files must not be one, as it follows the name of the second in a message.
    pub fn reason(self) -> &'static str
        ensures { result.now ≡ reason self }
    {
        match self {
            FileConflict::ListAndWritten => ": the word list cannot be the file to write",
            FileConflict::PuzzleAndSession => {
                ": the puzzle and the session cannot be written into one file"
            }
            FileConflict::StartAndSession => {
                ": the session cannot be written over the puzzle to start with"
            }
            FileConflict::StartAndPuzzle => {
                ": the puzzle cannot be written over the session to start with"
            }
            FileConflict::InputAndWritten => ": standard input cannot be the file to write",
            FileConflict::OutputAndOther => ": standard output cannot be another file of the call",
            FileConflict::OtherAndJournal => ": the journal cannot be another file of the call",
        }
    }
}

/// Returns why files with these roles must not be one, or `None` if they may be.
fn conflict_of(one: FileRole, other: FileRole) -> Option<FileConflict>
    ensures { result ≡ conflict_of one other }
{
    match other {
        FileRole::Journal => conflict_with_journal(one),
        FileRole::Session => conflict_with_session(one),
        FileRole::Written => conflict_with_puzzle(one),
        FileRole::List => conflict_with_read(one, true),
        FileRole::Puzzle | FileRole::Start | FileRole::Commands => conflict_with_read(one, false),
        _ => None,
    }
}

/// Returns why a file must not be the journal.
fn conflict_with_journal(one: FileRole) -> Option<FileConflict>
    ensures { result ≡ conflict_with_journal one }
{
    match one {
        FileRole::Output
        | FileRole::Input
        | FileRole::List
        | FileRole::Written
        | FileRole::Session => { Some(FileConflict::OtherAndJournal) }
        _ => None,
    }
}

/// Returns why a file must not be the session to write.
fn conflict_with_session(one: FileRole) -> Option<FileConflict>
    ensures { result ≡ conflict_with_session one }
{
    match one {
        FileRole::Output => Some(FileConflict::OutputAndOther),
        FileRole::List => Some(FileConflict::ListAndWritten),
        FileRole::Puzzle => Some(FileConflict::StartAndSession),
        FileRole::Commands => Some(FileConflict::InputAndWritten),
        FileRole::Written => Some(FileConflict::PuzzleAndSession),
        _ => None,
    }
}

/// Returns why a file must not be the puzzle to write.
fn conflict_with_puzzle(one: FileRole) -> Option<FileConflict>
    ensures { result ≡ conflict_with_puzzle one }
{
    match one {
        FileRole::Output => Some(FileConflict::OutputAndOther),
        FileRole::Kept => Some(FileConflict::PuzzleAndSession),
        FileRole::List => Some(FileConflict::ListAndWritten),
        FileRole::Start => Some(FileConflict::StartAndPuzzle),
        FileRole::Commands => Some(FileConflict::InputAndWritten),
        _ => None,
    }
}

/// Returns why a file must not be one that is read.
fn conflict_with_read(one: FileRole, is_list: bool) -> Option<FileConflict>
    ensures { result ≡ conflict_with_read one is_list }
{
    match one {
        FileRole::Output => Some(FileConflict::OutputAndOther),
        FileRole::Kept if is_list => Some(FileConflict::ListAndWritten),
        _ => None,
    }
}

/// Returns the file of a call with a role, if there is one.
fn file_of<'a>(files: SessionFiles<'a>, role: FileRole) -> Option<CallFile<'a>>
    ensures has { is_some result ≡ has files.entry role }
    ensures file { IfSome result (IsFileOf files.entry role) }
{
    match role {
        FileRole::Output => Some(CallFile::Output),
        FileRole::Kept => kept(files.save_file),
        FileRole::List => read(files.dict),
        FileRole::Puzzle => read(files.from_file),
        FileRole::Start => read(files.resume_file),
        FileRole::Commands if reads_input(files) => None,
        FileRole::Commands => Some(CallFile::Input),
        FileRole::Input => Some(CallFile::Named(INPUT_PATH)),
        FileRole::Written => named(files.to_file),
        FileRole::Session => named(files.save_file),
        FileRole::Journal => named(files.journal_file),
    }
}

/// Returns the file that one to write is kept as, if that is named.
fn kept<'a>(name: Option<&'a str>) -> Option<CallFile<'a>>
    ensures some { is_some result ≡ is_some name.entry }
    ensures file { IfSome result (λ file. IfNamed name.entry (λ name. IsKeptAs name file)) }
{
    match name {
        Some(name) => Some(CallFile::Kept(name)),
        None => None,
    }
}

/// Returns a file to write, if it is named.
fn named<'a>(name: Option<&'a str>) -> Option<CallFile<'a>>
    ensures some { is_some result ≡ is_some name.entry }
    ensures file { IfSome result (λ file. IfNamed name.entry (λ name. IsNamed name file)) }
{
    match name {
        Some(name) => Some(CallFile::Named(name)),
        None => None,
    }
}

/// Returns a file to read, if it is named.
fn read<'a>(name: Option<&'a str>) -> Option<CallFile<'a>>
    ensures some { is_some result ≡ is_some name.entry }
    ensures file { IfSome result (λ file. IfNamed name.entry (λ name. IsSource name file)) }
{
    match name {
        Some(name) => Some(source(name)),
        None => None,
    }
}

/// Returns the name of the file with a role in the call, if it has one. Standard input has the name `-`.
fn name_of<'a>(named: SessionFiles<'a>, role: FileRole) -> Option<&'a str>
    ensures { option_map (λ name. name.now) result ≡ name_of named.entry role }
{
    match role {
        FileRole::List => named.dict,
        FileRole::Puzzle => named.from_file,
        FileRole::Start => named.resume_file,
        FileRole::Commands => Some("-"),
        FileRole::Written => named.to_file,
        FileRole::Session => named.save_file,
        FileRole::Journal => named.journal_file,
        _ => None,
    }
}

/// Refuses to read two files from standard input, to write the session as `.puz`, and to use one file for two roles in
/// which its bytes would be lost.
pub fn keep_apart<'a, D: Disk>(disk: &D, named: SessionFiles<'a>) -> Result<(), Failure<'a>>
    ensures { IfErr result (λ failure. IsNotApart named.entry failure) }
{
    refuse_input_twice(named)?;
    refuse_puz(named.save_file)?;
    for one in ROLES {
        refuse_with(disk, named, one)?;
    }
    Ok(())
}

/// Refuses another file with each role if it must not be this one.
fn refuse_with<'a, D: Disk>(
    disk: &D,
    named: SessionFiles<'a>,
    one: FileRole,
) -> Result<(), Failure<'a>>
    ensures { IfErr result (λ failure. IsRefused named.entry failure) }
{
    for other in ROLES {
        refuse(disk, named, one, other)?;
    }
    Ok(())
}

/// Refuses the files with two roles if they must not be one and are one. The failure names the second.
fn refuse<'a, D: Disk>(
    disk: &D,
    named: SessionFiles<'a>,
    one: FileRole,
    other: FileRole,
) -> Result<(), Failure<'a>>
    ensures { IfErr result (λ failure. IsRefused named.entry failure) }
{
    let (Some(conflict), Some(name)) = (conflict_of(one, other), name_of(named, other)) else {
        return Ok(());
    };
    let (Some(first), Some(second)) = (file_of(named, one), file_of(named, other)) else {
        return Ok(());
    };
    match disk.same_file(first, second)? {
        Some(same) => Err(Failure::SameFile {
            conflict,
            file: name,
            same,
        }),
        None => Ok(()),
    }
}

/// Refuses to write the session over another file of the call that is not written itself.
pub fn keep_session_apart<'a, D: Disk>(disk: &D, named: SessionFiles<'a>) -> Result<(), Failure<'a>>
    ensures { IfErr result (λ failure. IsNotApart named.entry failure) }
{
    for role in ROLES {
        if role != FileRole::Written {
            refuse(disk, named, role, FileRole::Session)?;
            refuse(disk, named, FileRole::Session, role)?;
        }
    }
    Ok(())
}

/// Returns whether the name of a file stands for standard input.
pub fn is_input(name: Option<&str>) -> bool
    ensures { result ≡ is_input name.entry }
{
    match name {
        Some(name) => name == "-",
        None => false,
    }
}

/// Refuses to read the word list and another file from standard input.
fn refuse_input_twice<'a>(named: SessionFiles<'a>) -> Result<(), Failure<'a>>
    ensures { IfErr result (λ failure. IsReadTwice named.entry failure) }
{
    if is_input(named.dict) && (is_input(named.from_file) || is_input(named.resume_file)) {
        return Err(Failure::InputTwice);
    }
    Ok(())
}

/// Returns whether a call reads a file from standard input.
fn reads_input(named: SessionFiles<'_>) -> bool
    ensures { result ≡ reads_input named.entry }
{
    is_input(named.dict) || is_input(named.from_file) || is_input(named.resume_file)
}

/// Refuses a name for the session that asks for `.puz`.
fn refuse_puz<'a>(saved: Option<&'a str>) -> Result<(), Failure<'a>>
    ensures { IfErr result (λ failure. IsRefusedPuz saved.entry failure) }
{
    match saved {
        Some(file) if kind_by_name(file) == Kind::Puz => Err(Failure::SavedAsPuz { file }),
        _ => Ok(()),
    }
}

/// Refuses to write over the journal of another program.
pub fn keep_free<'a, D: Disk>(disk: &D, named: SessionFiles<'a>) -> Result<(), Failure<'a>>
    ensures { IfErr result (λ failure. AreInUse named.entry failure) }
{
    refuse_journal(disk, named.save_file)?;
    refuse_journal(disk, named.to_file)
}

/// Refuses a file if another program has it as its journal.
pub fn refuse_journal<'a, D: Disk>(disk: &D, written: Option<&'a str>) -> Result<(), Failure<'a>>
    ensures { IfErr result (λ failure. IsRefusedJournal written.entry failure) }
{
    match written {
        Some(file) if !disk.is_free(file) => Err(Failure::InUse { file }),
        _ => Ok(()),
    }
}

/// Refuses a file to write at the end that cannot be written now.
pub fn keep_writable<'a, D: Disk, I: Source, O: Outlet, E: Sink>(
    desk: &mut Desk<D, I, O, E>,
    named: SessionFiles<'a>,
) -> Result<(), Failure<'a>>
    ensures ok { OnOk result (AreWritable named.entry desk.old desk.new) }
    ensures err { IfErr result (λ failure. AreUnwritable named.entry failure desk.old desk.new) }
{
    refuse_unwritable(desk, named.save_file)?;
    refuse_unwritable(desk, named.to_file)
}

/// Refuses a file that cannot be written now.
fn refuse_unwritable<'a, D: Disk, I: Source, O: Outlet, E: Sink>(
    desk: &mut Desk<D, I, O, E>,
    written: Option<&'a str>,
) -> Result<(), Failure<'a>>
    ensures ok { OnOk result (CanWrite written.entry desk.old desk.new) }
    ensures err { IfErr result (λ failure. IsRefusedWrite written.entry failure desk.old desk.new) }
{
    match written {
        Some(file) => desk.try_file(file),
        None => Ok(()),
    }
}
