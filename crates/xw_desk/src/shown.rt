//! What a terminal is shown: control bytes of texts and names as escapes, so that they move no cursor.
ghost use Rattle.std.specs.Prelude.{◌≤◌, length, IfOk, IsTrue};

use std::io::{self, Write};

/// The byte with which UTF-8 begins the control characters of two bytes.
const LEAD: u8 = 0xC2;

/// A writer that shows each control byte but a line feed as an escape such as `\x1b`, if it writes to a terminal.
#[derive(Drop)]
pub struct Shown<W: Drop> {
    writer: W,
    is_terminal: bool,
    /// Whether the byte written last may begin a control character of two bytes.
    is_led: bool,
}

impl<W: Write + Drop> Shown<W> {
    pub fn new(writer: W, is_terminal: bool) -> Shown<W> {
        Shown {
            writer,
            is_terminal,
            is_led: false,
        }
    }

    /// Writes the bytes before the first control, of which there are some. Returns how many were written.
    fn write_plain(&mut self, bytes: &[u8]) -> io::Result<usize>
        ensures { IfOk result (λ count. count ≤ length bytes.now) }
    {
        let count = self.writer.write(bytes)?;
        if count > 0 {
            self.is_led = bytes[count - 1] == LEAD;
        }
        Ok(count)
    }

    /// Writes a control as an escape.
    fn write_escape(&mut self, control: u8) -> io::Result<()> {
        self.is_led = false;
        self.writer.write_all(&escape(control))
    }
}

impl<W: Write + Drop> Write for Shown<W> {
    fn write(&mut self, bytes: &[u8]) -> io::Result<usize> {
        if !self.is_terminal || bytes.is_empty() {
            return self.writer.write(bytes);
        }
        let first = bytes[0];
        if is_control(first) || (self.is_led && is_late_control(first)) {
            self.write_escape(first)?;
            return Ok(1);
        }
        if begins_with_pair(bytes) {
            self.write_escape(bytes[1])?;
            return Ok(2);
        }
        self.write_plain(&bytes[..plain_length(bytes)])
    }

    fn flush(&mut self) -> io::Result<()> {
        self.writer.flush()
    }
}

/// Returns whether a byte is a control character: not a line feed, which ends a line.
fn is_control(byte: u8) -> bool {
    (byte < 0x20 && byte != b'\n') || byte == 0x7F
}

/// Returns whether a byte is the second one of a control character of two bytes.
fn is_late_control(byte: u8) -> bool {
    0x80 <= byte && byte <= 0x9F
}

/// Returns whether bytes begin with a control character of two bytes.
fn begins_with_pair(bytes: &[u8]) -> bool
    ensures { IsTrue result → 2 ≤ length bytes.now }
{
    bytes.len() >= 2 && bytes[0] == LEAD && is_late_control(bytes[1])
}

/// Returns how many bytes come before the first control, if the first byte begins none.
fn plain_length(bytes: &[u8]) -> usize
    ensures { result ≤ length bytes.now }
{
    for at in 0..bytes.len() {
        if is_control(bytes[at]) || begins_with_pair(&bytes[at..]) {
            return at;
        }
    }
    bytes.len()
}

/// Returns how a control is shown.
fn escape(control: u8) -> [u8; 4] {
    [b'\\', b'x', digit(control / 16), digit(control % 16)]
}

/// Returns the digit of a number below 16.
fn digit(number: u8) -> u8 {
    if number < 10 {
        b'0'.wrapping_add(number)
    } else {
        b'a'.wrapping_add(number.wrapping_sub(10))
    }
}
