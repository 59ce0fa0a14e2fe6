ghost use Rattle.std.specs.Prelude.{◌≡◌, ◌<◌, ◌↔◌, drop, length, min, Some, IsErr, IfOk, Contains};
ghost use Rattle.std.specs.Io.{ReadsAtMost};
ghost use Rattle.std.specs.Io.KnownBytes.{ReadConsumes};
ghost use Rattle.outside_faults.specs.Faults.{HasCause};
ghost use Rattle.outside_faults.specs.Script.{raised_calls};
ghost use Rattle.outside_faults.specs.Told.{no_side};
ghost use Rattle.line_link.specs.Memory.{MemoryBytesView};

use crate::source::Source;
use outside_faults::{Failed, FailingCalls, FaultCount};
use std::marker::Model;

/// Bytes in memory that are read in pieces of a stated size, with the calls that are to fail.
#[derive(Debug, Drop)]
pub struct MemorySource {
    bytes: Vec<u8>,
    at: usize,
    piece: usize,
    failing: FailingCalls,
    faults: FaultCount,
}

impl Model for MemorySource {
    ghost use Rattle.std.specs.Prelude.{ℕ, ◌≤◌, ◌<◌, drop, vec_len};
    ghost use Rattle.line_link.specs.Memory.{MemoryBytesView};

    ghost Value = { MemoryBytesView };

    ghost view = { λ s. record { bytes = drop s.at s.bytes.items; faults = s.faults; piece = s.piece; script = s.failing } };

    ghost invariant = { λ s. (s.at ≤ vec_len s.bytes) × (0 < s.piece) };
}

impl MemorySource {
    /// All these bytes are left. A read gives at most `piece` bytes.
    pub fn new(bytes: Vec<u8>, piece: usize, failing: FailingCalls) -> MemorySource
        requires { 0 < piece }
        ensures { result ≡ record { bytes = bytes.items; faults = 0; piece = piece; script = failing } }
    {
        MemorySource {
            bytes,
            at: 0,
            piece,
            failing,
            faults: FaultCount::new(),
        }
    }

    /// How often a read has failed.
    pub fn faults(&self) -> u64
        ensures { result ≡ self.now.faults }
    {
        self.faults.get()
    }
}

impl Source for MemorySource {
    ghost left = { λ s. Some s.bytes };

    ghost read_faults = { λ s. s.faults };

    ghost kept_by_read = { λ _. no_side };

    fn read(&mut self, into: &mut [u8]) -> Result<usize, Failed>
        ensures bound { ReadsAtMost result into.new }
        ensures bytes { ReadConsumes (Some self.old.bytes) (Some self.new.bytes) result into.new }
        ensures cause { HasCause self.old.faults self.new.faults result }

        // It fails at just the calls that are to fail, and gives whole pieces.
        ensures scripted { IsErr result ↔ Contains self.old.script.failing self.new.script.made }
        ensures script { self.new.script ≡ raised_calls self.old.script }
        ensures whole { IfOk result (λ n. n ≡ min (min (length self.old.bytes) (length into.new)) self.old.piece) }
        ensures piece { self.new.piece ≡ self.old.piece }
    {
        if self.failing.next_fails() {
            return Err(self.faults.raise());
        }
        let rest = &self.bytes[self.at..];
        let n = rest.len().min(into.len()).min(self.piece);
        into[..n].copy_from_slice(&rest[..n]);
        self.at += n;
        Ok(n)
    }
}
