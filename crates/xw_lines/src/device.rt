//! The reader and writer traits of a run. Their ghost state records the bytes that passed and counts the failures.
ghost use Rattle.std.specs.Prelude.{◌≡◌, ℕ, ◌+◌, ◌<◌, ◌≤◌, List, [], ◌∷◌, ◌++◌, length, take, drop, MatchResult, IfOk, OnOk, OnErr, IsTrue, Bool};
ghost use Rattle.xw_lines.specs.Device.{flushed, failures_after, counted_up};
ghost use Rattle.xw_lines.specs.Sends.{Sends};

/// A reader or writer call failed.
#[derive(Clone, Copy, Debug, PartialEq, Eq)]
pub struct DeviceFault;

/// A write or flush failed, or a write took no bytes.
#[derive(Clone, Copy, Debug, PartialEq, Eq)]
pub struct WriteFailed;

/// A reader. The ghost `transcript` is the list of all bytes that it returned.
pub trait Source {
    // all bytes that reads returned so far
    ghost transcript: { Self → List ℕ };

    // the number of failed reads, which stops at `u64::MAX`
    ghost failures: { Self → ℕ };

    // a read into a non-empty buffer returned 0
    ghost is_at_end: { Self → Bool };

    /// Reads the next bytes into the front of the buffer and returns their count. Returns 0 only at the end, unless
    /// the buffer is empty.
    fn read(&mut self, buffer: &mut [u8]) -> Result<usize, DeviceFault>
        ensures bound { IfOk result (λ count. count ≤ length buffer.new) }
        ensures transcript { MatchResult result
            (λ count. transcript self.new ≡ transcript self.old ++ take count buffer.new)
            (λ _. transcript self.new ≡ transcript self.old) }
        ensures end { IfOk result (λ count. count ≡ 0 → 0 < length buffer.new → IsTrue (is_at_end self.new)) }
        ensures going { IfOk result (λ count. 0 < count → is_at_end self.new ≡ is_at_end self.old) }
        ensures failures { failures self.new ≡ failures_after result (failures self.old) };
}

/// A writer. The ghost `transcript` is the list of all bytes that it took, with a mark for each flush.
pub trait Sink {
    // all bytes that writes took so far, with `flushed` after the bytes that each flush covered
    ghost transcript: { Self → List ℕ };

    // the number of calls that failed or took none of a non-empty buffer, which stops at `u64::MAX`
    ghost failures: { Self → ℕ };

    /// Writes some bytes from the front of the buffer and returns their count. A failed call writes none.
    fn write(&mut self, bytes: &[u8]) -> Result<usize, DeviceFault>
        ensures bound { IfOk result (λ count. count ≤ length bytes.now) }
        ensures transcript { MatchResult result
            (λ count. transcript self.new ≡ transcript self.old ++ take count bytes.now)
            (λ _. transcript self.new ≡ transcript self.old) }
        ensures ok { IfOk result (λ count. 0 < count → failures self.new ≡ failures self.old) }
        ensures none_taken { IfOk result (λ count. count ≡ 0 → 0 < length bytes.now → failures self.new ≡ counted_up (failures self.old)) }
        ensures none_due { IfOk result (λ count. length bytes.now ≡ 0 → failures self.new ≡ failures self.old) }
        ensures err { OnErr result (failures self.new ≡ counted_up (failures self.old)) };

    /// Flushes the bytes that were taken.
    fn flush(&mut self) -> Result<(), DeviceFault>
        ensures transcript { MatchResult result
            (λ _. transcript self.new ≡ transcript self.old ++ flushed ∷ [])
            (λ _. transcript self.new ≡ transcript self.old) }
        ensures failures { failures self.new ≡ failures_after result (failures self.old) };
}

impl<W: Sink> Sink for &mut W {
    ghost transcript = { λ sink. W.transcript sink.now };

    ghost failures = { λ sink. W.failures sink.now };

    fn write(&mut self, bytes: &[u8]) -> Result<usize, DeviceFault> {
        Sink::write(&mut **self, bytes)
    }

    fn flush(&mut self) -> Result<(), DeviceFault> {
        Sink::flush(&mut **self)
    }
}

/// Writes all the bytes, in as many calls as needed. After an error a prefix of them was written.
pub fn write_all<W: Sink>(sink: &mut W, bytes: &[u8]) -> Result<(), WriteFailed>
    ensures { Sends W.transcript W.failures sink.old sink.new result bytes.now }
{
    let mut written = 0;
    while written < bytes.len() {
        match sink.write(&bytes[written..]) {
            Ok(0) => return Err(WriteFailed),
            Ok(count) => written += count,
            Err(_) => return Err(WriteFailed),
        }
    }
    Ok(())
}
