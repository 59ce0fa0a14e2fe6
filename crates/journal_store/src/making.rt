ghost use Rattle.std.specs.Prelude.{◌≡◌, ◌+◌, ◌≤◌, OnOk};
ghost use Rattle.outside_faults.specs.Faults.{HasCause};
ghost use Rattle.journal_disk.specs.Steps.{GoesOn};
ghost use Rattle.journal_store.specs.Format.{empty_bytes};
ghost use Rattle.journal_store.specs.Stands.{IsFresh, Makes};

use crate::limits::EMPTY;
use journal_disk::{Disk, write_and_sync};
use outside_faults::Failed;

/// Makes an empty journal on a disk of at most 17 bytes, whatever they are.
pub fn make_empty<D: Disk>(disk: &mut D) -> Result<(), Failed>
    ensures cause { HasCause (D.drive disk.old).faults (D.drive disk.new).faults result }
    ensures goes_on { GoesOn (D.drive disk.old) (D.drive disk.new) }
    ensures two_moments { (D.drive disk.new).moment ≤ (D.drive disk.old).moment + 2 }
    ensures bytes { IsFresh (D.drive disk.old) → OnOk result ((D.drive disk.new).bytes ≡ empty_bytes) }
    ensures makes { IsFresh (D.drive disk.old) → Makes result (D.drive disk.old) (D.drive disk.new) }
{
    write_and_sync(disk, 0, EMPTY)
}
