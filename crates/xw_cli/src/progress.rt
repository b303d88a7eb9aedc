//! The line on standard error that says how far a search is. It is written over, and cleared when the search has ended.
use itoa::Buffer;
use std::cell::Cell;
use std::io::Write;
use xw_feas::progress::{Observer, Progress, Task};

/// The capacity of a line in bytes. The longest one has 115.
const MOST: usize = 128;

/// A line that is being made. What does not fit is left out.
#[derive(Drop)]
struct Line {
    bytes: [u8; MOST],
    length: usize,
}

impl Line {
    fn new() -> Line {
        Line {
            bytes: [0; MOST],
            length: 0,
        }
    }

    fn push(&mut self, byte: u8) {
        if self.length < MOST {
            self.bytes[self.length] = byte;
            self.length += 1;
        }
    }

    fn push_all(&mut self, bytes: &[u8]) {
        for byte in bytes {
            self.push(*byte);
        }
    }

    /// Adds a number, with a comma before each three digits.
    fn push_number(&mut self, number: u64) {
        let mut buffer = Buffer::new();
        let digits = buffer.format(number).as_bytes();
        for at in 0..digits.len() {
            if at > 0 && (digits.len() - at) % 3 == 0 {
                self.push(b',');
            }
            self.push(digits[at]);
        }
    }

    /// Adds spaces up to a width.
    fn pad(&mut self, width: usize) {
        for _ in self.length..width {
            self.push(b' ');
        }
    }

    fn as_slice(&self) -> &[u8] {
        &self.bytes[..self.length.min(MOST)]
    }
}

/// The command of a search.
fn name(task: Task) -> &'static [u8] {
    match task {
        Task::Fill => b"fill",
        Task::Autofill => b"autofill",
        Task::Best => b"best",
        Task::Choices => b"choices",
    }
}

/// Adds how far a search is.
fn tell(line: &mut Line, progress: &Progress) {
    line.push_all(name(progress.task));
    line.push_all(b": ");
    line.push_number(progress.made);
    line.push_all(b" of ");
    line.push_number(progress.limit);
    line.push_all(b" placements");
    if let Some(worst) = progress.worst {
        line.push_all(b", worst ");
        line.push_number(u64::from(worst));
    }
    if let Some(best) = best_grade(progress.bound) {
        line.push_all(b", no fill is better than ");
        line.push_number(u64::from(best));
    }
}

/// The grade that no fill has a better worst word than, if the bound says something.
fn best_grade(bound: Option<u8>) -> Option<u8> {
    match bound {
        Some(bound) if bound <= 100 => bound.checked_sub(1),
        _ => None,
    }
}

/// Writes how far a search is to a stream.
/// - `width`: the width of the line that stands there.
/// - `is_output_terminal`: whether answers go to a terminal, perhaps the same one.
#[derive(Drop)]
pub struct ProgressLine<S: Write + Copy + Drop> {
    stream: S,
    width: Cell<usize>,
    is_output_terminal: bool,
}

impl<S: Write + Copy + Drop> ProgressLine<S> {
    pub fn new(stream: S, is_output_terminal: bool) -> ProgressLine<S> {
        ProgressLine {
            stream,
            width: Cell::new(0),
            is_output_terminal,
        }
    }

    /// Writes bytes at once. If the stream takes only some of them, or none, nothing is done about it.
    fn write(&self, bytes: &[u8]) {
        let mut stream = self.stream;
        let _ = stream.write(bytes);
    }

    /// Writes a line over the one that stands there.
    fn show(&self, line: &mut Line) {
        let width = line.length;
        line.pad(self.width.get());
        self.write(line.as_slice());
        self.width.set(width);
    }
}

impl<S: Write + Copy + Drop> Observer for ProgressLine<S> {
    /// Shows the progress, but not that of `choices` on a terminal: its lines come while it works.
    fn observe(&self, progress: &Progress) {
        if self.is_output_terminal && progress.task == Task::Choices {
            return;
        }
        let mut line = Line::new();
        line.push(b'\r');
        tell(&mut line, progress);
        self.show(&mut line);
    }

    fn end(&self) {
        if self.width.get() == 0 {
            return;
        }
        let mut line = Line::new();
        line.push(b'\r');
        line.pad(self.width.get());
        line.push(b'\r');
        self.write(line.as_slice());
        self.width.set(0);
    }
}
