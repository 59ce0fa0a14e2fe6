ghost use Rattle.std.specs.Prelude.{◌≡◌, ◌+◌, ◌≤◌, length, take};
ghost use Rattle.outside_faults.specs.Faults.{HasCause};
ghost use Rattle.journal_disk.specs.Drive.{Honestly, IsStored};
ghost use Rattle.journal_disk.specs.Images.{IsTorn, IsCut, overlaid};
ghost use Rattle.journal_disk.specs.Steps.{GoesOn, Keeps};

use crate::disk::Disk;
use outside_faults::Failed;

/// Writes bytes over those at a place and makes them stay, on a disk on which nothing was pending. At each moment
/// since the call began a crash leaves the old bytes, or these with any part of the write.
pub fn write_and_sync<D: Disk>(disk: &mut D, at: u64, bytes: &[u8]) -> Result<(), Failed>
    ensures cause { HasCause (D.drive disk.old).faults (D.drive disk.new).faults result }
    ensures goes_on { GoesOn (D.drive disk.old) (D.drive disk.new) }
    ensures two_moments { (D.drive disk.new).moment ≤ (D.drive disk.old).moment + 2 }
    ensures keeps { Honestly (D.drive disk.old) (IsStored (D.drive disk.old)
        → Keeps (IsTorn at (length bytes.now)) (overlaid at bytes.now (D.drive disk.old).bytes) result (D.drive disk.old) (D.drive disk.new)) }
{
    disk.write_at(at, bytes)?;
    disk.sync()
}

/// Leaves a front of this length and makes it stay, on a disk on which nothing was pending. At each moment since
/// the call began a crash leaves the old bytes, or these with any part of the cut.
pub fn cut_and_sync<D: Disk>(disk: &mut D, len: u64) -> Result<(), Failed>
    ensures cause { HasCause (D.drive disk.old).faults (D.drive disk.new).faults result }
    ensures goes_on { GoesOn (D.drive disk.old) (D.drive disk.new) }
    ensures two_moments { (D.drive disk.new).moment ≤ (D.drive disk.old).moment + 2 }
    ensures keeps { Honestly (D.drive disk.old) (IsStored (D.drive disk.old)
        → Keeps (IsCut len) (take len (D.drive disk.old).bytes) result (D.drive disk.old) (D.drive disk.new)) }
{
    disk.cut(len)?;
    disk.sync()
}
