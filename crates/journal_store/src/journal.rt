ghost use Rattle.std.specs.Prelude.{◌≡◌, ◌⊎◌, ℕ, ◌+◌, ◌*◌, ◌^◌, ◌<◌, ◌≤◌, List, ◌++◌, length, true, false, IsErr, OnOk, OnErr};
ghost use Rattle.outside_faults.specs.Faults.{Rose};
ghost use Rattle.journal_disk.specs.Steps.{GoesOn};
ghost use Rattle.journal_store.specs.Format.{IsBatch, batch_bytes};
ghost use Rattle.journal_store.specs.Journal.{IsOf};
ghost use Rattle.journal_store.specs.Stands.{StandsForEither};

use crate::appending::append_at;
use crate::batch::Batch;
use journal_disk::Disk;
use std::marker::Model;

/// The disk failed, in this call or in an earlier append.
#[derive(Clone, Copy, Debug, PartialEq, Eq)]
pub struct DiskFault;

/// A list of payloads on a disk. Contracts see the disk, the place of its closed gate, the number of payloads, and
/// whether an append failed.
#[derive(Drop)]
pub struct Journal<D> {
    disk: D,
    gate: u64,
    count: u64,
    is_broken: bool,
}

impl<D> Model for Journal<D> {
    ghost use Rattle.std.specs.Prelude.{◌≤◌, ◌+◌, ◌*◌};
    ghost use Rattle.journal_store.specs.Journal.{JournalView};

    ghost Value = { JournalView D };

    ghost view = { λ j. record { disk = j.disk; gate = j.gate; count = j.count; broken = j.is_broken } };

    // A payload takes at most 519 bytes with its batch's gate and size, so that places stay small.
    ghost invariant = { λ j. j.gate ≤ 16 + 519 * j.count };
}

impl<D: Disk> Journal<D> {
    /// The journal on a disk whose closed gate is at a place, behind so many payloads.
    pub(crate) fn at_gate(disk: D, gate: u64, count: u64) -> Journal<D>
        requires { gate ≤ 16 + 519 * count }
        ensures { result ≡ record { disk = disk; gate = gate; count = count; broken = false } }
    {
        Journal {
            disk,
            gate,
            count,
            is_broken: false,
        }
    }

    /// Puts a batch behind the list: at most four calls of the disk, and no memory. At each moment since it began each image
    /// stands for the old list, or for the list with the whole batch. After an error every later append answers so
    /// at once.
    pub fn append(&mut self, batch: &Batch) -> Result<(), DiskFault>
        requires some { 1 ≤ length batch.now }
        requires count { self.old.count < 2 ^ 32 }

        ensures ok { (list : List (List ℕ)) → IsOf D.drive list self.old → OnOk result (IsOf D.drive (list ++ batch.now) self.new) }
        ensures image { (list : List (List ℕ)) (image : List ℕ) → IsOf D.drive list self.old → (D.drive self.new.disk).image image → StandsForEither list batch.now image }
        ensures since { (list : List (List ℕ)) (moment : ℕ) (image : List ℕ) → IsOf D.drive list self.old → moment ≤ (D.drive self.old.disk).moment
            → (D.drive self.new.disk).image_since moment image → (D.drive self.old.disk).image_since moment image ⊎ StandsForEither list batch.now image }

        ensures cause { OnErr result (self.old.broken ≡ true ⊎ Rose (D.drive self.old.disk).faults (D.drive self.new.disk).faults) }
        ensures never_falls { (D.drive self.old.disk).faults ≤ (D.drive self.new.disk).faults }
        ensures breaks { OnErr result (self.new.broken ≡ true) }
        ensures broken { self.old.broken ≡ true → IsErr result × (self.new ≡ self.old) }
        ensures stays_sound { OnOk result (self.new.broken ≡ false) }
        ensures goes_on { GoesOn (D.drive self.old.disk) (D.drive self.new.disk) }
        ensures four_moments { (D.drive self.new.disk).moment ≤ (D.drive self.old.disk).moment + 4 }
        ensures count { OnOk result (self.new.count ≡ self.old.count + length batch.now) }
        ensures not_counted { OnErr result (self.new.count ≡ self.old.count) }
    {
        if self.is_broken {
            return Err(DiskFault);
        }
        match append_at(&mut self.disk, self.gate, batch.as_slice()) {
            Ok(()) => {
                self.gate += batch.as_slice().len() as u64;
                self.count += batch.len() as u64;
                Ok(())
            }
            Err(_) => {
                self.is_broken = true;
                Err(DiskFault)
            }
        }
    }

    /// How many payloads are in the list.
    pub fn count(&self) -> u64
        ensures { result ≡ self.now.count }
    {
        self.count
    }

    /// The disk.
    pub fn give_up(self) -> D
        ensures { result ≡ self.disk }
    {
        self.disk
    }
}
