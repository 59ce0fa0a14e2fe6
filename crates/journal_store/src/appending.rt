ghost use Rattle.std.specs.Prelude.{◌≡◌, ℕ, ◌+◌, ◌<◌, ◌≤◌, ◌^◌, List, [], ◌∷◌, ◌++◌};
ghost use Rattle.outside_faults.specs.Faults.{HasCause};
ghost use Rattle.journal_disk.specs.Steps.{GoesOn};
ghost use Rattle.journal_store.specs.Format.{IsBatch, batch_bytes};
ghost use Rattle.journal_store.specs.Stands.{StoresAt, Appends};

use journal_disk::{Disk, write_and_sync};
use outside_faults::Failed;

/// Puts a batch behind the closed gate at a place, with a closed gate behind it, and then opens the first: four
/// calls of the disk. `batch` is its bytes with the byte 0 behind them.
pub fn append_at<D: Disk>(disk: &mut D, gate: u64, batch: &[u8]) -> Result<(), Failed>
    requires { gate + 1 < 2 ^ 64 }

    ensures cause { HasCause (D.drive disk.old).faults (D.drive disk.new).faults result }
    ensures goes_on { GoesOn (D.drive disk.old) (D.drive disk.new) }
    ensures four_moments { (D.drive disk.new).moment ≤ (D.drive disk.old).moment + 4 }
    ensures appends { (list payloads : List (List ℕ)) → StoresAt gate list (D.drive disk.old) → IsBatch payloads → batch.now ≡ batch_bytes payloads ++ 0 ∷ []
        → Appends gate list payloads result (D.drive disk.old) (D.drive disk.new) }
{
    match write_and_sync(disk, gate + 1, batch) {
        Ok(()) => write_and_sync(disk, gate, &[1]),
        Err(failed) => Err(failed),
    }
}
