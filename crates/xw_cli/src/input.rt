//! Answers the input of a call, of which the last line may have no LF.
ghost use Rattle.std.specs.Prelude.{◌≡◌, ◌≢◌, [], Some, IfOk, OnErr, MatchOption, option_map};
ghost use Rattle.xw_cli.specs.Answered.{AnswersInput, HasBefore};
ghost use Rattle.xw_cli.specs.SessionFiles.{file_of};

use crate::saving::Saved;
use std::alloc::{AllocError, Global};
use xw_desk::desk::Desk;
use xw_desk::outlet::Outlet;
use xw_disk::Disk;
use xw_lines::run::{Rest, answer_ended, answer_rest};
use xw_lines::{RunEnd, Sink, Source};

/// How the input of a call was answered.
#[derive(Drop)]
pub struct Answered {
    pub end: RunEnd,
    /// The file of the session before the last line, if this line has no LF.
    pub before: Option<Vec<u8>>,
}

impl Answered {
    /// The input was answered, and no last line without an LF was.
    fn ended(end: RunEnd) -> Answered
        ensures end { result.end ≡ end }
        ensures before { result.before ≡ None }
    {
        Answered { end, before: None }
    }
}

/// Returns the file of a session if the last line, which is to be answered, has no LF.
fn file_before<H: Saved>(
    alloc: Global,
    handler: &H,
    rest: &Rest,
) -> Result<Option<Vec<u8>>, AllocError>
    ensures ok { IfOk result (λ before. MatchOption before
        (rest.now.piece ≡ Some [])
        (λ bytes. (rest.now.piece ≢ Some []) × (bytes.items ≡ file_of (H.state handler.now)))) }
    ensures err { OnErr result (rest.now.piece ≢ Some []) }
{
    if rest.piece.is_empty() {
        return Ok(None);
    }
    Ok(Some(handler.saved(alloc)?))
}

/// Answers the lines of the input. If the last one has no LF, returns the file of the session before it too, and does not
/// answer it if this file cannot be allocated.
pub fn answer_input<H: Saved, D: Disk, I: Source, O: Outlet, E: Sink>(
    desk: &mut Desk<D, I, O, E>,
    handler: &mut H,
) -> Answered
    ensures input { AnswersInput H.answers H.stops result.end handler.old handler.new desk.old desk.new }
    ensures before { HasBefore H.answers H.state (option_map (λ bytes. bytes.items) result.before) result.end handler.old desk.old desk.new }
{
    let alloc = desk.alloc;
    let rest = match answer_ended(alloc, handler, &mut desk.input, &mut desk.output) {
        Ok(rest) => rest,
        Err(end) => return Answered::ended(end),
    };
    match file_before(alloc, handler, &rest) {
        Ok(before) => Answered {
            end: answer_rest(handler, rest, &mut desk.output),
            before,
        },
        Err(_) => Answered::ended(RunEnd::Memory),
    }
}
