ghost use Rattle.std.specs.Prelude.{ℕ, ◌+◌, ◌≤◌, length, IfOk};
ghost use Rattle.outside_faults.specs.Faults.{HasCause};
ghost use Rattle.journal_disk.specs.Drive.{Drive, IsDrive, Honestly};
ghost use Rattle.journal_disk.specs.Steps.{GoesOn, Leaves, Reads, Writes, Cuts, Syncs};

use outside_faults::Failed;

/// Bytes that stay, as far as they were synced, after a crash at any moment.
///
/// A crash leaves an image: bytes that a read gives afterwards. Since the last sync that succeeded, each range that
/// was written and the part past the old end may hold any bytes, and the length may be any that the bytes had
/// or would have come to; all other bytes are what they were. All that is said of bytes and images holds of a
/// disk that tells that it is honest; over any disk a failure was counted, and a read gives at most the piece.
pub trait Disk {
    /// What contracts see of the disk.
    ghost drive: { Self → Drive };

    /// What a read gives is an image, the images of now are among those since any moment, and since the present moment
    /// there are no others.
    ghost is_drive: { (d : Self) → IsDrive (drive d) };

    /// Reads bytes from a place on into a front of the piece: as many as there are, up to the piece.
    fn read(&mut self, at: u64, into: &mut [u8]) -> Result<usize, Failed>
        ensures cause { HasCause (drive self.old).faults (drive self.new).faults result }
        ensures goes_on { GoesOn (drive self.old) (drive self.new) }
        ensures one_moment { (drive self.new).moment ≤ (drive self.old).moment + 1 }
        ensures within { IfOk result (λ n. n ≤ length into.old) }
        ensures bytes { Honestly (drive self.old) (Reads at result (drive self.old).bytes into.old into.new) }
        ensures leaves { Honestly (drive self.old) (Leaves (drive self.old) (drive self.new)) };

    /// Writes bytes over those at a place, and behind the end. Where it fails any part of it may have happened.
    fn write_at(&mut self, at: u64, bytes: &[u8]) -> Result<(), Failed>
        ensures cause { HasCause (drive self.old).faults (drive self.new).faults result }
        ensures goes_on { GoesOn (drive self.old) (drive self.new) }
        ensures one_moment { (drive self.new).moment ≤ (drive self.old).moment + 1 }
        ensures writes { Honestly (drive self.old) (Writes at bytes.now result (drive self.old) (drive self.new)) };

    /// Leaves a front of this length, or all where there is less. Where it fails any part of it may have happened.
    fn cut(&mut self, len: u64) -> Result<(), Failed>
        ensures cause { HasCause (drive self.old).faults (drive self.new).faults result }
        ensures goes_on { GoesOn (drive self.old) (drive self.new) }
        ensures one_moment { (drive self.new).moment ≤ (drive self.old).moment + 1 }
        ensures cuts { Honestly (drive self.old) (Cuts len result (drive self.old) (drive self.new)) };

    /// Makes what a read gives stay.
    fn sync(&mut self) -> Result<(), Failed>
        ensures cause { HasCause (drive self.old).faults (drive self.new).faults result }
        ensures goes_on { GoesOn (drive self.old) (drive self.new) }
        ensures one_moment { (drive self.new).moment ≤ (drive self.old).moment + 1 }
        ensures syncs { Honestly (drive self.old) (Syncs result (drive self.old) (drive self.new)) };
}
