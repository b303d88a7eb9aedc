//! What a call works with: the disk, the streams, and the allocator.
ghost use Rattle.std.specs.Prelude.{◌≡◌, ◌∷◌, ◌++◌, [], IfOk, IfErr, OnOk, OnErr, Ok};
ghost use Rattle.xw_disk.specs.Disk.{read, replace, try_};
ghost use Rattle.xw_lines.specs.Device.{flushed};
ghost use Rattle.xw_lines.specs.Sends.{Sends};
ghost use Rattle.xw_desk.specs.Desk.{Asks, FailsToShow, Reports, Shows};
ghost use Rattle.xw_desk.specs.Files.{IsUnreadFile, IsUnreplaced, IsUntried};

use crate::failure::{Failure, failure_of};
use crate::outlet::Outlet;
use std::alloc::Global;
use std::marker::Model;
use xw_disk::Disk;
use xw_lines::{Sink, Source, WriteFailed, device};

/// What a call works with.
#[derive(Drop)]
pub struct Desk<D: Disk, I: Source, O: Outlet, E: Sink> {
    pub alloc: Global,
    pub disk: D,
    pub input: I,
    pub output: O,
    /// Takes the messages.
    pub errors: E,
    /// Whether messages go to a terminal.
    pub is_terminal: bool,
    /// Whether messages go to a terminal and lines come from one.
    pub is_dialogue: bool,
    /// Whether failures are explained.
    pub explains: bool,
}

impl<D: Disk, I: Source, O: Outlet, E: Sink> Model for Desk<D, I, O, E> {
    ghost use Rattle.xw_desk.specs.Desk.{Moment};

    ghost Value = { Moment };

    ghost view = { λ desk. record {
      asked = D.log desk.disk;
      read = I.transcript desk.input;
      is_at_end = I.is_at_end desk.input;
      read_failures = I.failures desk.input;
      told = O.transcript desk.output;
      write_failures = O.failures desk.output;
      is_closed = O.is_closed desk.output;
      reported = E.transcript desk.errors;
      report_failures = E.failures desk.errors;
      is_terminal = desk.is_terminal;
      is_dialogue = desk.is_dialogue;
      explains = desk.explains;
    } };
}

impl<D: Disk, I: Source, O: Outlet, E: Sink> Desk<D, I, O, E> {
    /// Writes a message. Write errors are ignored.
    pub fn report(&mut self, text: &[u8])
        ensures { Reports text.now self.old self.new }
    {
        let _ = device::write_all(&mut self.errors, text);
    }

    /// Writes a text to the output, and flushes it.
    pub fn show(&mut self, text: &[u8]) -> Result<(), WriteFailed>
        ensures ok { OnOk result (Shows text.now self.old self.new) }
        ensures err { OnErr result (FailsToShow text.now self.old self.new) }
    {
        send(&mut self.output, text)
    }

    /// Returns whether the output failed because its reader is gone.
    pub fn is_closed(&self) -> bool
        ensures { result ≡ self.now.is_closed }
    {
        self.output.is_closed()
    }

    /// Returns the bytes of a file.
    pub fn read_file<'a>(&mut self, file: &'a str) -> Result<Vec<u8>, Failure<'a>>
        ensures ok { IfOk result (λ bytes. Asks (read file.entry.now (Ok bytes.items)) self.old self.new) }
        ensures err { IfErr result (λ failure. IsUnreadFile file.entry.now failure self.old self.new) }
    {
        match self.disk.read(file) {
            Ok(bytes) => Ok(bytes),
            Err(fault) => Err(failure_of(fault, file)),
        }
    }

    /// Returns the bytes of a file that is to be replaced. The name `-` is a name like any other.
    pub fn read_own_file<'a>(&mut self, file: &'a str) -> Result<Vec<u8>, Failure<'a>>
        ensures ok { IfOk result (λ bytes. Asks (read file.entry.now (Ok bytes.items)) self.old self.new) }
        ensures err { IfErr result (λ failure. IsUnreadFile file.entry.now failure self.old self.new) }
    {
        match self.disk.read_own(file) {
            Ok(bytes) => Ok(bytes),
            Err(fault) => Err(failure_of(fault, file)),
        }
    }

    /// Fails if a file could not be replaced now. Changes no file.
    pub fn try_file<'a>(&mut self, file: &'a str) -> Result<(), Failure<'a>>
        ensures ok { OnOk result (Asks (try_ file.entry.now (Ok tt)) self.old self.new) }
        ensures err { IfErr result (λ failure. IsUntried file.entry.now failure self.old self.new) }
    {
        match self.disk.try_replace(file) {
            Ok(()) => Ok(()),
            Err(fault) => Err(failure_of(fault, file)),
        }
    }

    /// Replaces a file by these bytes.
    pub fn write_file<'a>(&mut self, file: &'a str, bytes: &[u8]) -> Result<(), Failure<'a>>
        ensures ok { OnOk result (Asks (replace file.entry.now bytes.now (Ok tt)) self.old self.new) }
        ensures err { IfErr result (λ failure. IsUnreplaced file.entry.now bytes.now failure self.old self.new) }
    {
        match self.disk.replace(file, bytes) {
            Ok(()) => Ok(()),
            Err(fault) => Err(failure_of(fault, file)),
        }
    }
}

/// Writes a text and flushes the writer.
fn send<O: Sink>(output: &mut O, text: &[u8]) -> Result<(), WriteFailed>
    ensures { Sends O.transcript O.failures output.old output.new result (text.now ++ flushed ∷ []) }
{
    device::write_all(output, text)?;
    match output.flush() {
        Ok(()) => Ok(()),
        Err(_) => Err(WriteFailed),
    }
}
