//! Starts the program on its arguments and the standard streams.
ghost use Rattle.std.specs.Prelude.{map};
ghost use Rattle.xw_cli.specs.Called.{AnswersWords};

use crate::perform::perform;
use crate::progress::ProgressLine;
use std::cell::Cell;
use std::convert::AsStr;
use std::fs::OpenOptions;
use std::io::{self, BufWriter, ErrorKind, IsTerminal};
use std::os::fd::{AsRawFd, IntoRawFd};
use xw_arguments::Usage;
use xw_arguments::arguments::arguments;
use xw_desk::desk::Desk;
use xw_desk::failure::ExitStatus;
use xw_desk::outlet::{Outlet, Output, PipeWriter};
use xw_desk::shown::Shown;
use xw_disk::{Disk, SystemDisk};
use xw_feas::progress::Observer;
use xw_feas::searchable::Searchable;
use xw_lines::{Sink, Source, device};
use xw_session::{FromRead, ToWrite};

/// The size of the output buffer in bytes.
const GATHERED: usize = 65536;

/// The number of standard streams. Their descriptors are 0, 1 and 2.
const STREAMS: i32 = 3;

/// Opens each standard stream that is closed on the null device, for writing. Otherwise the next file that is opened
/// would become that stream. A read from such a stream fails.
fn open_closed_streams(rt: &HostRuntime) {
    for _ in 0..STREAMS {
        match OpenOptions::new().write(true).open(rt, "/dev/null") {
            Ok(stream) if stream.as_raw_fd() < STREAMS => {
                // It stays open to the end of the program.
                let _ = stream.into_raw_fd();
            }
            _ => return,
        }
    }
}

/// Runs the program and returns its exit status.
pub fn start<F: Searchable>(rt: &HostRuntime) -> ExitStatus {
    open_closed_streams(rt);
    match start_gathered::<F>(rt) {
        Ok(status) => status,
        Err(_) => {
            let _ = device::write_all(&mut ToWrite::new(rt.stderr()), b"xw: memory\n");
            ExitStatus::Failed
        }
    }
}

/// Makes the call that the words of a command line describe, or explains why they are none. The first word is the
/// program's name. The observer may be told how far a long search is. Returns the exit status.
pub fn answer_words<F: Searchable, S: AsStr, D: Disk, I: Source, O: Outlet, E: Sink, W: Observer>(
    desk: &mut Desk<D, I, O, E>,
    words: &[S],
    observer: W,
) -> ExitStatus
    ensures { AnswersWords (map S.text words.now) result desk.old desk.new }
{
    match arguments(desk.alloc, words) {
        Ok(call) => perform::<F, D, I, O, E, W>(desk, call, observer),
        Err(usage) => desk.explain(&usage),
    }
}

/// Runs the program with buffered output. Fails if an allocation for the setup fails.
fn start_gathered<F: Searchable>(rt: &HostRuntime) -> io::Result<ExitStatus> {
    let mark = Cell::new(false);
    let stdout = PipeWriter::new(rt.stdout(), &mark);
    let is_output_terminal = rt.stdout().is_terminal();
    let shown = Shown::new(stdout, is_output_terminal);
    let writer = BufWriter::with_capacity(rt.alloc(), GATHERED, shown)?;
    let is_terminal = rt.stderr().is_terminal();
    let mut desk = Desk {
        alloc: rt.alloc(),
        disk: SystemDisk::new(rt),
        input: FromRead::new(rt.stdin()),
        output: Output::new(ToWrite::new(writer), &mark),
        errors: ToWrite::new(Shown::new(rt.stderr(), is_terminal)),
        is_terminal,
        is_dialogue: is_terminal && rt.stdin().is_terminal(),
        explains: false,
    };
    let words: Vec<String> = match std::env::args(rt) {
        Ok(words) => words.collect(rt.alloc())?,
        Err(error) if error.kind() == ErrorKind::OutOfMemory => return Err(error),
        Err(_) => {
            let text = String::from_str(rt.alloc(), "xw: arguments are not valid UTF-8\n")?;
            return Ok(desk.explain(&Usage::Wrong(text)));
        }
    };
    let observer = ProgressLine::new(rt.stderr(), is_output_terminal);
    let status = answer_words::<F, _, _, _, _, _, _>(&mut desk, words.as_slice(), observer);
    // This discards the unwritten bytes: their write failed, and is not tried again.
    let (_writer, _held) = desk.output.into_sink().into_writer().into_parts();
    Ok(status)
}
