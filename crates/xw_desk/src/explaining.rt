//! Prints help, usage errors and failures.
ghost use Rattle.std.specs.Prelude.{◌≡◌, ◌&&◌, List, ℕ, IfOk, IfErr};
ghost use Rattle.xw_desk.specs.Desk.{Reports};
ghost use Rattle.xw_desk.specs.ExitStatus.{status_of};
ghost use Rattle.xw_desk.specs.Explained.{is_of_disk, is_quiet, IsExplained, IsHelp, IsMessage, IsReason, IsReported, IsTold};

use crate::desk::Desk;
use crate::failure::{ExitStatus, Failure};
use crate::outlet::Outlet;
use crate::sentences::sentence_line;
use std::alloc::{AllocError, Global};
use std::io::{self, ErrorKind};
use xw_arguments::Usage;
use xw_disk::Disk;
use xw_lines::{Sink, Source};

impl<D: Disk, I: Source, O: Outlet, E: Sink> Desk<D, I, O, E> {
    /// Prints the text of a call that is not executed, and returns the exit status. Help goes to the output, and an error
    /// to the messages. If the reader of the output is gone, nothing is reported.
    pub fn explain(&mut self, usage: &Usage) -> ExitStatus
        ensures { IsExplained usage.now self.old self.new result }
    {
        match usage {
            Usage::Help(text) => self.help(text.as_bytes()),
            Usage::Wrong(text) => {
                self.report(text.as_bytes());
                ExitStatus::Usage
            }
            Usage::Memory => {
                self.report(b"xw: memory\n");
                ExitStatus::Failed
            }
        }
    }

    /// Shows help, and returns the exit status.
    fn help(&mut self, text: &[u8]) -> ExitStatus
        ensures { IsHelp text.now self.old self.new result }
    {
        match self.show(text) {
            Ok(()) => ExitStatus::Accepted,
            Err(_) if self.is_closed() => ExitStatus::Failed,
            Err(_) => {
                self.report(b"xw: output fault\n");
                ExitStatus::Failed
            }
        }
    }

    /// Reports the failure that ends a call, and returns the exit status. Nothing is reported if the reader of the output
    /// is gone.
    pub fn end(&mut self, failure: &Failure<'_>) -> ExitStatus
        ensures { IsReported failure.now self.old self.new result }
    {
        if is_quiet(failure, self.is_closed()) {
            return ExitStatus::Failed;
        }
        self.tell(failure)
    }

    /// Prints the message of a failure, and returns the exit status. If the message cannot be allocated, prints
    /// `xw: memory` and returns `Failed`.
    pub fn tell(&mut self, failure: &Failure<'_>) -> ExitStatus
        ensures { IsTold failure.now self.old self.new result }
    {
        match self.tell_in_turn(failure) {
            Ok(status) => status,
            Err(_) => {
                self.report(b"xw: memory\n");
                ExitStatus::Failed
            }
        }
    }

    /// Prints the message of a failure after which the call goes on, and returns its status. Fails, with nothing printed, if
    /// the message cannot be allocated.
    pub fn tell_in_turn(&mut self, failure: &Failure<'_>) -> Result<ExitStatus, AllocError>
        ensures ok { IfOk result (λ status. (status ≡ status_of failure.now) × (text : List ℕ) × IsMessage self.old.explains failure.now text × Reports text self.old self.new) }
        ensures err { IfErr result (λ _. self.new ≡ self.old) }
    {
        let text = self.message(failure)?;
        self.report(text.as_bytes());
        Ok(failure.status())
    }

    /// Returns the message of a failure. If failures are explained, more lines follow: the error of the system after a
    /// fault of the disk, and the sentence for the failure.
    fn message(&self, failure: &Failure<'_>) -> Result<String, AllocError>
        ensures { IfOk result (λ text. IsMessage self.now.explains failure.now text.bytes.items) }
    {
        message(self.alloc, failure, self.explains, self.disk.error())
    }
}

/// Returns whether a failure has no message: the output failed because its reader is gone.
fn is_quiet(failure: &Failure<'_>, is_closed: bool) -> bool
    ensures { result ≡ is_quiet failure.now is_closed }
{
    match failure {
        Failure::Output => is_closed,
        _ => false,
    }
}

/// Returns the message of a failure. If `explain` is set, more lines follow: the error of the system after a fault of
/// the disk, and the sentence for the failure.
fn message(
    alloc: Global,
    failure: &Failure<'_>,
    explain: bool,
    error: Option<io::Error>,
) -> Result<String, AllocError>
    ensures { IfOk result (λ text. IsMessage explain failure.now text.bytes.items) }
{
    let reason = reason_line(alloc, is_reason_due(failure, explain), error)?;
    let sentence = sentence_line(alloc, failure, explain)?;
    format!(in alloc; "{failure}\n{reason}{sentence}")
}

/// Returns whether an error of the system may follow the message of a failure.
fn is_reason_due(failure: &Failure<'_>, explain: bool) -> bool
    ensures { result ≡ (explain && is_of_disk failure.now) }
{
    explain && failure.is_of_disk()
}

/// Returns the line with the error of the system, or no bytes if it is not due or there is none.
fn reason_line(alloc: Global, is_due: bool, error: Option<io::Error>) -> Result<String, AllocError>
    ensures { IfOk result (λ line. IsReason is_due line.bytes.items) }
{
    match error {
        Some(error) if is_due => match reason_of(alloc, error)? {
            Some(reason) => format!(in alloc; "xw: {reason}\n"),
            None => Ok(String::new(alloc)),
        },
        _ => Ok(String::new(alloc)),
    }
}

/// Returns the text of an error of the system, without its number, or that a journal is not a regular file. Returns `None`
/// for other errors.
fn reason_of(alloc: Global, error: io::Error) -> Result<Option<String>, AllocError> {
    if error.kind() == ErrorKind::Unsupported && error.raw_os_error().is_none() {
        return Ok(Some(String::from_str(alloc, "not a regular file")?));
    }
    let Some(code) = error.raw_os_error() else {
        return Ok(None);
    };
    let text = format!(in alloc; "{error}")?;
    let number = format!(in alloc; " (os error {code})")?;
    let reason = text.strip_suffix(number.as_str()).unwrap_or(text.as_str());
    Ok(Some(String::from_str(alloc, reason)?))
}
