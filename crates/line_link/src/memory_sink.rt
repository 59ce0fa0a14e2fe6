ghost use Rattle.std.specs.Prelude.{◌≡◌, ◌<◌, [], length, min, Some, IsErr, IfOk, Contains};
ghost use Rattle.std.specs.Io.{WritesAtMost};
ghost use Rattle.std.specs.Io.KnownBytes.{WriteAppends};
ghost use Rattle.outside_faults.specs.Faults.{HasCause};
ghost use Rattle.outside_faults.specs.Script.{raised_calls};
ghost use Rattle.outside_faults.specs.Told.{no_side};
ghost use Rattle.line_link.specs.Memory.{MemoryBytesView};

use crate::sink::Sink;
use outside_faults::{Failed, FailingCalls, FaultCount};
use std::alloc::Global;
use std::marker::Model;

/// Bytes that are kept in memory, written in pieces of a stated size, with the calls that are to fail.
#[derive(Debug, Drop)]
pub struct MemorySink {
    bytes: Vec<u8>,
    piece: usize,
    failing: FailingCalls,
    faults: FaultCount,
}

impl Model for MemorySink {
    ghost use Rattle.std.specs.Prelude.{ℕ, ◌<◌};
    ghost use Rattle.line_link.specs.Memory.{MemoryBytesView};

    ghost Value = { MemoryBytesView };

    ghost view = { λ s. record { bytes = s.bytes.items; faults = s.faults; piece = s.piece; script = s.failing } };

    ghost invariant = { λ s. 0 < s.piece };
}

impl MemorySink {
    /// Nothing is written yet. A write takes at most `piece` bytes.
    pub fn new(alloc: Global, piece: usize, failing: FailingCalls) -> MemorySink
        requires { 0 < piece }
        ensures { result ≡ record { bytes = []; faults = 0; piece = piece; script = failing } }
    {
        MemorySink {
            bytes: Vec::new(alloc),
            piece,
            failing,
            faults: FaultCount::new(),
        }
    }

    /// The bytes written so far.
    pub fn as_slice(&self) -> &[u8]
        ensures { result.now ≡ self.now.bytes }
    {
        self.bytes.as_slice()
    }

    /// How often a write has failed.
    pub fn faults(&self) -> u64
        ensures { result ≡ self.now.faults }
    {
        self.faults.get()
    }
}

impl Sink for MemorySink {
    ghost held = { λ s. Some s.bytes };

    ghost write_faults = { λ s. s.faults };

    ghost kept_by_write = { λ _. no_side };

    fn write(&mut self, bytes: &[u8]) -> Result<usize, Failed>
        ensures bound { WritesAtMost result bytes.now }
        ensures some { IfOk result (λ n. 0 < length bytes.now → 0 < n) }
        ensures bytes { WriteAppends (Some self.old.bytes) (Some self.new.bytes) result bytes.now }
        ensures cause { HasCause self.old.faults self.new.faults result }

        // It fails at the calls that are to fail, and may fail for want of memory beside that; it takes whole pieces.
        ensures scripted { Contains self.old.script.failing self.new.script.made → IsErr result }
        ensures script { self.new.script ≡ raised_calls self.old.script }
        ensures whole { IfOk result (λ n. n ≡ min (length bytes.now) self.old.piece) }
        ensures piece { self.new.piece ≡ self.old.piece }
    {
        if self.failing.next_fails() {
            return Err(self.faults.raise());
        }
        let n = bytes.len().min(self.piece);
        match self.bytes.extend_from_slice(&bytes[..n]) {
            Ok(()) => Ok(n),
            Err(_) => Err(self.faults.raise()),
        }
    }
}
