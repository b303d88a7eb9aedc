//! A `Sink` that collects its bytes in memory.
ghost use Rattle.std.specs.Prelude.{◌≡◌, [], IfOk};

use std::alloc::{AllocError, Global};
use xw_lines::{DeviceFault, Sink};

/// All bytes written so far. A write fails if an allocation fails; a flush always fails, because there is nowhere to
/// flush to.
#[derive(Drop)]
pub struct VecSink {
    bytes: Vec<u8>,
    failures: u64,
}

impl VecSink {
    /// A sink without bytes.
    pub fn new(alloc: Global) -> VecSink
        ensures bytes { result.bytes.items ≡ [] }
        ensures failures { result.failures ≡ 0 }
    {
        VecSink {
            bytes: Vec::new(alloc),
            failures: 0,
        }
    }

    /// A sink without bytes that has room for so many. Fails if the room cannot be allocated.
    pub fn with_capacity(alloc: Global, capacity: usize) -> Result<VecSink, AllocError>
        ensures bytes { IfOk result (λ sink. sink.bytes.items ≡ []) }
    {
        Ok(VecSink {
            bytes: Vec::with_capacity(alloc, capacity)?,
            failures: 0,
        })
    }

    /// Removes all bytes, and keeps their room.
    pub fn clear(&mut self)
        ensures { self.new.bytes.items ≡ [] }
    {
        self.bytes.clear();
    }

    /// The number of failed calls, which stops at `u64::MAX`.
    pub fn failures(&self) -> u64
        ensures { result ≡ self.now.failures }
    {
        self.failures
    }

    /// The bytes written so far.
    pub fn bytes(&self) -> &[u8]
        ensures { result.now ≡ self.now.bytes.items }
    {
        self.bytes.as_slice()
    }

    /// The bytes written so far.
    pub fn into_bytes(self) -> Vec<u8>
        ensures { result.items ≡ self.bytes.items }
    {
        self.bytes
    }
}

impl Sink for VecSink {
    ghost transcript = { λ sink. sink.bytes.items };

    ghost failures = { λ sink. sink.failures };

    fn write(&mut self, bytes: &[u8]) -> Result<usize, DeviceFault> {
        match self.bytes.extend_from_slice(bytes) {
            Ok(()) => Ok(bytes.len()),
            Err(_) => {
                self.failures = self.failures.saturating_add(1);
                Err(DeviceFault)
            }
        }
    }

    fn flush(&mut self) -> Result<(), DeviceFault> {
        self.failures = self.failures.saturating_add(1);
        Err(DeviceFault)
    }
}
