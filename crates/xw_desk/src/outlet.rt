//! Standard output, which may lose its reader.
ghost use Rattle.std.specs.Prelude.{◌≡◌, Bool, false};

use std::cell::Cell;
use std::io::{self, ErrorKind, Write};
use xw_lines::{DeviceFault, Sink};

/// A writer that knows whether its reader is gone.
pub trait Outlet: Sink {
    // whether a call failed because nobody reads any more
    ghost is_closed: { Self → Bool };

    /// Returns whether a call failed because the pipe has no reader.
    fn is_closed(&self) -> bool
        ensures { result ≡ is_closed self.now };
}

/// A writer that sets a mark when its pipe has no reader.
#[derive(Drop)]
pub struct PipeWriter<'a, W: Drop> {
    writer: W,
    mark: &'a Cell<bool>,
}

impl<'a, W: Write + Drop> PipeWriter<'a, W> {
    pub fn new(writer: W, mark: &'a Cell<bool>) -> PipeWriter<'a, W> {
        PipeWriter { writer, mark }
    }

    /// Sets the mark if the error says so, and returns the error.
    fn marked(&self, error: io::Error) -> io::Error {
        if error.kind() == ErrorKind::BrokenPipe {
            self.mark.set(true);
        }
        error
    }
}

impl<'a, W: Write + Drop> Write for PipeWriter<'a, W> {
    fn write(&mut self, bytes: &[u8]) -> io::Result<usize> {
        match self.writer.write(bytes) {
            Ok(count) => Ok(count),
            Err(error) => Err(self.marked(error)),
        }
    }

    fn flush(&mut self) -> io::Result<()> {
        match self.writer.flush() {
            Ok(()) => Ok(()),
            Err(error) => Err(self.marked(error)),
        }
    }
}

/// A sink over a `PipeWriter` with this mark, as an `Outlet`.
#[derive(Drop)]
pub struct Output<'a, S: Sink + Drop> {
    sink: S,
    mark: &'a Cell<bool>,
    is_closed: bool,
}

impl<'a, S: Sink + Drop> Output<'a, S> {
    pub fn new(sink: S, mark: &'a Cell<bool>) -> Output<'a, S>
        ensures sink { result.sink ≡ sink }
        ensures open { result.is_closed ≡ false }
    {
        Output {
            sink,
            mark,
            is_closed: false,
        }
    }

    /// Returns the sink.
    pub fn into_sink(self) -> S
        ensures { result ≡ self.entry.sink }
    {
        self.sink
    }
}

impl<'a, S: Sink + Drop> Sink for Output<'a, S> {
    ghost transcript = { λ output. S.transcript output.sink };

    ghost failures = { λ output. S.failures output.sink };

    fn write(&mut self, bytes: &[u8]) -> Result<usize, DeviceFault> {
        let answer = self.sink.write(bytes);
        self.is_closed = self.mark.get();
        answer
    }

    fn flush(&mut self) -> Result<(), DeviceFault> {
        let answer = self.sink.flush();
        self.is_closed = self.mark.get();
        answer
    }
}

impl<'a, S: Sink + Drop> Outlet for Output<'a, S> {
    ghost is_closed = { λ output. output.is_closed };

    fn is_closed(&self) -> bool {
        self.is_closed
    }
}
