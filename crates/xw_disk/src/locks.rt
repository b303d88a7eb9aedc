//! Locks of open files: a journal is locked by the program that writes it.
use crate::identity::INPUT_PATH;
use crate::reading::read_input;
use std::fs::{self, File, OpenOptions, TryLockError};
use std::io;
use std::rt::Files;

/// A file system whose open files can be locked.
pub trait Locks: Files {
    /// Takes an exclusive lock on an open file until it is closed. Returns `false` if another handle of the file holds
    /// a lock of either kind.
    fn try_lock(&self, file: &Self::File) -> io::Result<bool>;

    /// Takes a shared lock on an open file until it is closed. Returns `false` if another handle of the file holds an
    /// exclusive lock.
    fn try_lock_shared(&self, file: &Self::File) -> io::Result<bool>;
}

/// The files of the operating system, and standard input.
pub trait System: Locks {
    /// Returns the rest of standard input.
    fn read_input(&self) -> io::Result<Vec<u8>>;
}

impl System for HostRuntime {
    fn read_input(&self) -> io::Result<Vec<u8>> {
        read_input(self, INPUT_PATH, self.stdin())
    }
}

impl Locks for HostRuntime {
    fn try_lock(&self, file: &File) -> io::Result<bool> {
        is_locked(file.try_lock())
    }

    fn try_lock_shared(&self, file: &File) -> io::Result<bool> {
        is_locked(file.try_lock_shared())
    }
}

fn is_locked(answer: Result<(), TryLockError>) -> io::Result<bool> {
    match answer {
        Ok(()) => Ok(true),
        Err(TryLockError::WouldBlock) => Ok(false),
        Err(TryLockError::Error(error)) => Err(error),
    }
}

/// What keeps another program from beginning a journal in a file.
#[derive(Drop)]
pub enum Held<F: Drop> {
    /// The file is not the journal of another program, and does not become one while this is held. `None` if there is
    /// no such file, or if it cannot be locked.
    Free(Option<F>),
    /// The file is the journal of another program.
    InUse,
}

/// Keeps other programs from beginning a journal in a file, unless one has it as its journal. Anything but a regular
/// file is not opened, since opening a pipe can block.
pub fn hold<R: Locks>(rt: &R, file: &str) -> Held<R::File> {
    match fs::metadata(rt, file) {
        Ok(found) if found.is_file() => {}
        _ => return Held::Free(None),
    }
    let Ok(opened) = OpenOptions::new().read(true).open(rt, file) else {
        return Held::Free(None);
    };
    match rt.try_lock_shared(&opened) {
        Ok(true) => Held::Free(Some(opened)),
        Ok(false) => Held::InUse,
        Err(_) => Held::Free(None),
    }
}
