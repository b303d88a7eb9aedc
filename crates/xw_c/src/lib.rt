//! Sessions for programs in other languages. `include/xw.h` is what they see.
#![tactic(auto)]

mod box_at;
mod handle;
mod held;
mod open_session;
mod status;

ghost use Rattle.std.specs.Prelude.{◌≡◌, None, length};
ghost use denote.RawPtr.{InBlock};
ghost use Rattle.xw_files.specs.declared.kind.Kind.TheVariants.{Puz, Text};
ghost use Rattle.xw_c.specs.OpenSession.{IsFileMade, IsLineDone, IsRecordMade, IsResumed};
ghost use Rattle.xw_c.specs.Status.{code_of};
ghost use Rattle.xw_c.specs.declared.status.Status.TheVariants.{Closed};
ghost use Rattle.xw_c.specs.Calls.{Opens, Calls, answer_of, copied};
ghost use Rattle.xw_commands.specs.declared.version.TheConstants.{VERSION};

use crate::handle::Handle;
use crate::status::{Status, name_of_code};
use std::alloc::Global;
use std::ptr::from_ref;
use xw_commands::version::VERSION;

/// The code of a call without an open session.
fn closed() -> u32
    ensures { result ≡ code_of Closed }
{
    Status::Closed.code()
}

/// Opens a session over the words of a list. It starts on the puzzle in the bytes of a file or, if there are no bytes,
/// on an empty grid. Each call returns the code of a status; `include/xw.h` lists those of each.
#[unsafe(no_mangle)]
pub extern "C" fn xw_open(alloc: Global, handle: &mut Handle, list: &[u8], puzzle: &[u8]) -> u32
    ensures { Opens list.now puzzle.now handle.old.held.session result handle.new.held.session }
{
    if handle.is_open() {
        return Status::Open.code();
    }
    match handle::open(alloc, list, puzzle) {
        Ok(opened) => {
            *handle = opened;
            Status::Accepted.code()
        }
        Err(status) => status.code(),
    }
}

/// Replays the lines of a record, up to the first that is not a command.
#[unsafe(no_mangle)]
pub extern "C" fn xw_resume(alloc: Global, handle: &mut Handle, record: &[u8]) -> u32
    ensures { Calls (IsResumed record.now) handle.old.held.session result handle.new.held.session }
{
    let Some(mut session) = handle.take(alloc) else {
        return closed();
    };
    let status = session.resume(record);
    *handle = Handle::of(session);
    status.code()
}

/// Answers a line.
#[unsafe(no_mangle)]
pub extern "C" fn xw_line(alloc: Global, handle: &mut Handle, line: &[u8]) -> u32
    ensures { Calls (IsLineDone line.now) handle.old.held.session result handle.new.held.session }
{
    let Some(mut session) = handle.take(alloc) else {
        return closed();
    };
    let status = session.line(line);
    *handle = Handle::of(session);
    status.code()
}

/// Makes the puzzle as a `.puz` file the answer.
#[unsafe(no_mangle)]
pub extern "C" fn xw_puz(alloc: Global, handle: &mut Handle) -> u32
    ensures { Calls (IsFileMade Puz) handle.old.held.session result handle.new.held.session }
{
    let Some(mut session) = handle.take(alloc) else {
        return closed();
    };
    let status = session.puz();
    *handle = Handle::of(session);
    status.code()
}

/// Makes the puzzle as a text file the answer.
#[unsafe(no_mangle)]
pub extern "C" fn xw_text(alloc: Global, handle: &mut Handle) -> u32
    ensures { Calls (IsFileMade Text) handle.old.held.session result handle.new.held.session }
{
    let Some(mut session) = handle.take(alloc) else {
        return closed();
    };
    let status = session.text();
    *handle = Handle::of(session);
    status.code()
}

/// Makes the record of the session the answer.
#[unsafe(no_mangle)]
pub extern "C" fn xw_record(alloc: Global, handle: &mut Handle) -> u32
    ensures { Calls IsRecordMade handle.old.held.session result handle.new.held.session }
{
    let Some(mut session) = handle.take(alloc) else {
        return closed();
    };
    let status = session.record();
    *handle = Handle::of(session);
    status.code()
}

/// Copies the answer to the last call, as much of it as there is room for, and returns its length. Without an open
/// session the answer is empty.
#[unsafe(no_mangle)]
pub extern "C" fn xw_answer(alloc: Global, handle: &mut Handle, out: &mut [u8]) -> usize
    ensures length { result ≡ length (answer_of handle.old.held.session) }
    ensures copied { out.new ≡ copied (answer_of handle.old.held.session) out.old }
    ensures same { handle.new.held.session ≡ handle.old.held.session }
{
    let Some(session) = handle.take(alloc) else {
        return 0;
    };
    let count = copy(session.answer(), out);
    *handle = Handle::of(session);
    count
}

/// Copies as much of a text as there is room for, and returns its length.
fn copy(text: &[u8], out: &mut [u8]) -> usize
    ensures length { result ≡ length text.now }
    ensures copied { out.new ≡ copied text.now out.old }
{
    let count = text.len().min(out.len());
    out[..count].copy_from_slice(&text[..count]);
    text.len()
}

/// Copies the version of the library and of the protocol, as much of it as there is room for, and returns its length.
#[unsafe(no_mangle)]
pub extern "C" fn xw_version(out: &mut [u8]) -> usize
    ensures length { result ≡ length VERSION.now }
    ensures copied { out.new ≡ copied VERSION.now out.old }
{
    copy(VERSION.as_bytes(), out)
}

/// Writes the address of the name of the status with a code, and `Unknown` for any other code: the bytes of `name_of_code`, which end with a NUL and never
/// change. C calls it by `xw_status_name` (link/status_name.ll), since an export may not return an address.
#[unsafe(no_mangle)]
pub extern "C" fn xw_own_name(address: &mut *const u8, code: u32)
    ensures not_null { InBlock address.new }
{
    *address = from_ref(&name_of_code(code)[0]);
}

/// Closes a session, if one is open.
#[unsafe(no_mangle)]
pub extern "C" fn xw_close(alloc: Global, handle: &mut Handle)
    ensures { handle.new.held.session ≡ None }
{
    let _engine = handle.take(alloc);
}
