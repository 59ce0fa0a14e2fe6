ghost use Rattle.std.specs.Prelude.{◌≡◌, ℕ, List, Option};
ghost use Rattle.std.specs.Io.{ReadsAtMost};
ghost use Rattle.std.specs.Io.KnownBytes.{ReadConsumes};
ghost use Rattle.outside_faults.specs.Faults.{HasCause};
ghost use Rattle.outside_faults.specs.Told.{Side};

use outside_faults::Failed;

/// Where bytes come from. `Ok` is how many bytes were put at the front of the piece; for a piece that isn't
/// empty, `Ok(0)` is the end.
pub trait Source {
    /// The bytes left, where the source tells them.
    ghost left: { Self → Option (List ℕ) };

    /// How often a read has failed.
    ghost read_faults: { Self → ℕ };

    /// What a read leaves as it was: of one that is a sink too, the bytes written and the failed writes.
    ghost kept_by_read: { Self → Side };

    /// Fills a front of the piece. `Failed` leaves the bytes left as they were.
    fn read(&mut self, into: &mut [u8]) -> Result<usize, Failed>
        ensures bound { ReadsAtMost result into.new }
        ensures bytes { ReadConsumes (left self.old) (left self.new) result into.new }
        ensures cause { HasCause (read_faults self.old) (read_faults self.new) result }
        ensures kept { kept_by_read self.new ≡ kept_by_read self.old };
}
