//! Adapters from `Read` to `Source` and from `Write` to `Sink`.
ghost use Rattle.std.specs.Prelude.{◌≡◌, ◌≤◌, ◌<◌, ◌||◌, [], ◌∷◌, ◌++◌, length, take, Ok, IfOk, OnErr, MatchResult, false};
ghost use Rattle.std.specs.Io.KnownBytes.{ReadConsumes, WriteAppends, Keeps};
ghost use Rattle.xw_lines.specs.Device.{flushed, failures_after, counted_up, is_end};
ghost use Rattle.xw_lines.specs.Tries.{calls, is_interrupted, AreRetries};

use crate::device::{DeviceFault, Sink, Source};
use crate::history::History;
use crate::tries::{Tries, is_interrupted};
use std::io::{self, ErrorKind, Read, Write};

/// A `Read` as a `Source`.
#[derive(Drop)]
pub struct FromRead<R> {
    reader: R,
    transcript: History,
    failures: u64,
    is_at_end: bool,
}

impl<R: Read> FromRead<R> {
    pub fn new(reader: R) -> FromRead<R>
        ensures reader { result.reader ≡ reader }
        ensures transcript { result.transcript.transcript ≡ [] }
        ensures failures { result.failures ≡ 0 }
        ensures end { result.is_at_end ≡ false }
    {
        FromRead {
            reader,
            transcript: History::new(),
            failures: 0,
            is_at_end: false,
        }
    }
}

impl<R: Read> Source for FromRead<R> {
    ghost transcript = { λ source. source.transcript.transcript };

    ghost failures = { λ source. source.failures };

    ghost is_at_end = { λ source. source.is_at_end };

    /// Reads once from the reader. What it returns is what the reader gave, and it is at its end only where the reader
    /// is. A failed read takes nothing.
    fn read(&mut self, buffer: &mut [u8]) -> Result<usize, DeviceFault>
        ensures bound { IfOk result (λ count. count ≤ length buffer.new) }
        ensures transcript { MatchResult result
            (λ count. self.new.transcript.transcript ≡ self.old.transcript.transcript ++ take count buffer.new)
            (λ _. self.new.transcript.transcript ≡ self.old.transcript.transcript) }
        ensures end { self.new.is_at_end ≡ (self.old.is_at_end || is_end result buffer.new) }
        ensures failures { self.new.failures ≡ failures_after result self.old.failures }
        ensures taken { ReadConsumes (R.remaining self.old.reader) (R.remaining self.new.reader) result buffer.new }
    {
        match read_retrying(&mut self.reader, buffer) {
            Ok(count) => {
                self.transcript.note(&buffer[..count]);
                if count == 0 && !buffer.is_empty() {
                    self.is_at_end = true;
                }
                Ok(count)
            }
            Err(fault) => {
                self.failures = self.failures.saturating_add(1);
                Err(fault)
            }
        }
    }
}

/// Reads once, and retries when a signal interrupts the read.
fn read_retrying<R: Read>(reader: &mut R, buffer: &mut [u8]) -> Result<usize, DeviceFault>
    ensures bound { IfOk result (λ count. count ≤ length buffer.new) }
    ensures bytes { ReadConsumes (R.remaining reader.old) (R.remaining reader.new) result buffer.new }
{
    for _ in 0..u64::MAX {
        match reader.read(buffer) {
            Ok(count) => return Ok(count),
            Err(fault) => {
                if fault.kind() != ErrorKind::Interrupted {
                    return Err(DeviceFault);
                }
            }
        }
    }
    Err(DeviceFault)
}

/// A `Write` as a `Sink`.
#[derive(Drop)]
pub struct ToWrite<W> {
    writer: W,
    tries: Tries,
    transcript: History,
    failures: u64,
}

impl<W: Write> ToWrite<W> {
    pub fn new(writer: W) -> ToWrite<W>
        ensures writer { result.writer ≡ writer }
        ensures transcript { result.transcript.transcript ≡ [] }
        ensures failures { result.failures ≡ 0 }
    {
        ToWrite {
            writer,
            tries: Tries::new(),
            transcript: History::new(),
            failures: 0,
        }
    }

    /// Returns the record of what the writer took, for proofs only.
    pub fn transcript(&self) -> &History
        ensures { result.now ≡ self.now.transcript }
    {
        &self.transcript
    }

    /// The writer, with whatever it still holds.
    pub fn into_writer(self) -> W
        ensures { result ≡ self.writer }
    {
        self.writer
    }
}

impl<W: Write> Sink for ToWrite<W> {
    ghost transcript = { λ sink. sink.transcript.transcript };

    ghost failures = { λ sink. sink.failures };

    /// Writes once to the writer. A failed write appends nothing.
    fn write(&mut self, bytes: &[u8]) -> Result<usize, DeviceFault>
        ensures bound { IfOk result (λ count. count ≤ length bytes.now) }
        ensures transcript { MatchResult result
            (λ count. self.new.transcript.transcript ≡ self.old.transcript.transcript ++ take count bytes.now)
            (λ _. self.new.transcript.transcript ≡ self.old.transcript.transcript) }
        ensures ok { IfOk result (λ count. 0 < count → self.new.failures ≡ self.old.failures) }
        ensures none_taken { IfOk result (λ count. count ≡ 0 → 0 < length bytes.now → self.new.failures ≡ counted_up self.old.failures) }
        ensures none_due { IfOk result (λ count. length bytes.now ≡ 0 → self.new.failures ≡ self.old.failures) }
        ensures err { OnErr result (self.new.failures ≡ counted_up self.old.failures) }
        ensures written { WriteAppends (W.contents self.old.writer) (W.contents self.new.writer) result bytes.now }
        ensures retried { AreRetries result (calls self.old.tries) (calls self.new.tries) }
    {
        match write_retrying(&mut self.writer, &mut self.tries, bytes) {
            Ok(count) => {
                self.transcript.note(&bytes[..count]);
                if count == 0 && !bytes.is_empty() {
                    self.failures = self.failures.saturating_add(1);
                }
                Ok(count)
            }
            Err(fault) => {
                self.failures = self.failures.saturating_add(1);
                Err(fault)
            }
        }
    }

    /// Flushes the writer, which keeps its bytes.
    fn flush(&mut self) -> Result<(), DeviceFault>
        ensures transcript { MatchResult result
            (λ _. self.new.transcript.transcript ≡ self.old.transcript.transcript ++ flushed ∷ [])
            (λ _. self.new.transcript.transcript ≡ self.old.transcript.transcript) }
        ensures failures { self.new.failures ≡ failures_after result self.old.failures }
        ensures kept { Keeps (W.contents self.old.writer) (W.contents self.new.writer) }
    {
        if self.writer.flush().is_err() {
            self.failures = self.failures.saturating_add(1);
            return Err(DeviceFault);
        }
        self.transcript.note_flush();
        Ok(())
    }
}

/// Writes once, and retries when a signal interrupts the write.
fn write_retrying<W: Write>(
    writer: &mut W,
    tries: &mut Tries,
    bytes: &[u8],
) -> Result<usize, DeviceFault>
    ensures bound { IfOk result (λ count. count ≤ length bytes.now) }
    ensures bytes { WriteAppends (W.contents writer.old) (W.contents writer.new) result bytes.now }
    ensures tries { AreRetries result (calls tries.old) (calls tries.new) }
{
    for _ in 0..u64::MAX {
        let taken = write_once(writer, tries, bytes);
        if !is_interrupted(&taken) {
            return taken_of(taken);
        }
    }
    Err(DeviceFault)
}

/// Returns how many bytes a write took.
fn taken_of(taken: io::Result<usize>) -> Result<usize, DeviceFault>
    ensures { MatchResult taken (λ count. result ≡ Ok count) (λ _. IfOk result (λ _. ⊥)) }
{
    match taken {
        Ok(count) => Ok(count),
        Err(_) => Err(DeviceFault),
    }
}

/// Writes once.
fn write_once<W: Write>(writer: &mut W, tries: &mut Tries, bytes: &[u8]) -> io::Result<usize>
    ensures bound { IfOk result (λ count. count ≤ length bytes.now) }
    ensures bytes { WriteAppends (W.contents writer.old) (W.contents writer.new) result bytes.now }
    ensures tries { calls tries.new ≡ is_interrupted result ∷ calls tries.old }
{
    let taken = writer.write(bytes);
    tries.note(&taken);
    taken
}
