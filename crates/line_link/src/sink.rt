ghost use Rattle.std.specs.Prelude.{◌≡◌, ℕ, ◌<◌, List, length, take, Option, IfOk, OnOk, OnErr};
ghost use Rattle.std.specs.Io.{WritesAtMost};
ghost use Rattle.std.specs.Io.KnownBytes.{Appends, WriteAppends};
ghost use Rattle.outside_faults.specs.Faults.{HasCause};
ghost use Rattle.outside_faults.specs.Told.{Side};
ghost use Rattle.line_link.specs.Lines.{AppendsFront};

use outside_faults::Failed;

/// Where bytes go. `Ok` is how many bytes of the front of the piece were written; for a piece that isn't
/// empty, at least one.
pub trait Sink {
    /// The bytes written, where the sink tells them.
    ghost held: { Self → Option (List ℕ) };

    /// How often a write has failed.
    ghost write_faults: { Self → ℕ };

    /// What a write leaves as it was: of one that is a source too, the bytes left and the failed reads.
    ghost kept_by_write: { Self → Side };

    /// Writes a front of the piece. `Failed` leaves the bytes written as they were.
    fn write(&mut self, bytes: &[u8]) -> Result<usize, Failed>
        ensures bound { WritesAtMost result bytes.now }
        ensures some { IfOk result (λ n. 0 < length bytes.now → 0 < n) }
        ensures bytes { WriteAppends (held self.old) (held self.new) result bytes.now }
        ensures cause { HasCause (write_faults self.old) (write_faults self.new) result }
        ensures kept { kept_by_write self.new ≡ kept_by_write self.old };
}

/// A sink failed before all bytes were written.
#[derive(Clone, Copy, Debug, PartialEq, Eq)]
pub struct WriteFault;

/// Writes all the bytes. After an `Err` a front of them was written, short of the whole. It takes no memory.
pub fn write_all<K: Sink>(sink: &mut K, bytes: &[u8]) -> Result<(), WriteFault>
    ensures ok { OnOk result (Appends (K.held sink.old) (K.held sink.new) bytes.now) }
    ensures err { OnErr result (AppendsFront (K.held sink.old) (K.held sink.new) bytes.now) }
    ensures cause { HasCause (K.write_faults sink.old) (K.write_faults sink.new) result }
    ensures kept { K.kept_by_write sink.new ≡ K.kept_by_write sink.old }
{
    let mut rest = bytes;
    while !rest.is_empty() {
        match sink.write(rest) {
            Ok(n) => rest = &rest[n..],
            Err(Failed) => return Err(WriteFault),
        }
    }
    Ok(())
}
