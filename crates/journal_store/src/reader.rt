ghost use Rattle.std.specs.Prelude.{◌≡◌, ◌≢◌, ◌⊎◌, ℕ, ◌+◌, ◌^◌, ◌<◌, ◌≤◌, List, [], length, true, false, Ok, Err, IfOk, IfErr};
ghost use Rattle.outside_faults.specs.Faults.{Rose};
ghost use Rattle.journal_disk.specs.Drive.{Honestly, IsStored};
ghost use Rattle.journal_disk.specs.Steps.{GoesOn, Leaves};
ghost use Rattle.journal_store.specs.Format.{IsPayload};
ghost use Rattle.journal_store.specs.Found.{IsForeign, StandsAs};
ghost use Rattle.journal_store.specs.Journal.{IsOf};
ghost use Rattle.journal_store.specs.Opening.{Opens, disk_after};
ghost use Rattle.journal_store.specs.Reader.{ReaderView, HasTold, Tells, Enters};
ghost use Rattle.journal_store.specs.declared.outcome.Next.TheVariants.{Payload, End};

use crate::batch::append;
use crate::gate::{Gate, gate_of};
use crate::journal::Journal;
use crate::limits::{HEADER_BYTES, MAX_BATCH, MAX_PAYLOAD};
use crate::opening::open;
use crate::outcome::{BeginFailed, BeginFault, Next, NextFault};
use crate::payload::split_payload;
use crate::window::Window;
use journal_disk::Disk;
use std::alloc::Global;
use std::marker::Model;

/// The most bytes of an open gate, its batch and the gate behind that.
const MOST_AT_GATE: usize = 1 + MAX_BATCH + 1;

/// A journal that is read payload by payload, before it is appended to. Contracts see the disk, what was read of it and
/// not yet used, how many payloads wait, the place of their batch's gate, the payload told last, how many were told, and
/// whether the end was.
#[derive(Drop)]
pub struct Reader<D> {
    disk: D,
    window: Window,
    waiting: usize,
    place: u64,
    payload: Vec<u8>,
    count: u64,
    is_ended: bool,
}

impl<D> Model for Reader<D> {
    ghost use Rattle.journal_store.specs.Reader.{ReaderView, HasSafeNumbers};

    ghost Value = { ReaderView D };

    ghost view = { λ r. record {
      disk = r.disk;
      unread = r.window;
      waiting = r.waiting;
      place = r.place;
      payload = r.payload.items;
      count = r.count;
      is_ended = r.is_ended;
    } };

    ghost invariant = { λ r. HasSafeNumbers r.window.place r.waiting r.count r.is_ended r.payload };
}

impl<D: Disk> Reader<D> {
    /// Opens the journal of a disk, or makes an empty one on a disk of at most 17 bytes. It takes all the memory that
    /// reading needs. An `Err` gives the disk back.
    pub fn begin(alloc: Global, mut disk: D) -> Result<Reader<D>, BeginFailed<D>>
        ensures ok { IfOk result (λ reader. Honestly (D.drive disk) (HasTold D.drive [] reader)) }
        ensures opens { IfOk result (λ reader. Honestly (D.drive disk) (Opens (D.drive disk).bytes (D.drive reader.disk).bytes)) }
        ensures fresh { IfOk result (λ reader. reader.count ≡ 0) }
        ensures goes { IfOk result (λ reader. reader.is_ended ≡ false) }

        ensures not_journal { IfErr result (λ failed. failed.why ≡ BeginFault.NotJournal → Honestly (D.drive disk) (IsForeign (D.drive disk).bytes)) }
        ensures memory { IfErr result (λ failed. failed.why ≡ BeginFault.Memory → failed.disk ≡ disk) }
        ensures cause { IfErr result (λ failed. failed.why ≡ BeginFault.Disk → Rose (D.drive disk).faults (D.drive failed.disk).faults) }

        // A disk of more than 17 bytes is left as it was, whatever the answer.
        ensures leaves { Honestly (D.drive disk) (17 < length (D.drive disk).bytes → Leaves (D.drive disk) (D.drive (disk_after result))) }

        ensures never_falls { (D.drive disk).faults ≤ (D.drive (disk_after result)).faults }
        ensures goes_on { GoesOn (D.drive disk) (D.drive (disk_after result)) }
        ensures four_moments { (D.drive (disk_after result)).moment ≤ (D.drive disk).moment + 4 }
        ensures image { Honestly (D.drive disk) (IsStored (D.drive disk) → (image : List ℕ) → (D.drive (disk_after result)).image image → StandsAs (D.drive disk).bytes image) }
        ensures since { Honestly (D.drive disk) (IsStored (D.drive disk) → (moment : ℕ) (image : List ℕ) → moment ≤ (D.drive disk).moment
            → (D.drive (disk_after result)).image_since moment image → (D.drive disk).image_since moment image ⊎ StandsAs (D.drive disk).bytes image) }
    {
        let Ok(mut window) = Window::new(alloc, HEADER_BYTES as u64) else {
            return Err(BeginFailed {
                why: BeginFault::Memory,
                disk,
            });
        };
        let Ok(payload) = Vec::with_capacity(alloc, MAX_PAYLOAD) else {
            return Err(BeginFailed {
                why: BeginFault::Memory,
                disk,
            });
        };
        match open(&mut disk, &mut window) {
            Ok(()) => Ok(Reader {
                disk,
                window,
                waiting: 0,
                place: HEADER_BYTES as u64,
                payload,
                count: 0,
                is_ended: false,
            }),
            Err(why) => Err(BeginFailed { why, disk }),
        }
    }

    /// Tells the next payload, or the end. It takes no memory. After an `Err` nothing is said of what it tells.
    pub fn next(&mut self) -> Result<Next, NextFault>
        requires { self.old.count < 2 ^ 32 }

        ensures tells { (list : List (List ℕ)) → HasTold D.drive list self.old → Tells D.drive list result self.new }
        ensures payload { result ≡ Ok Payload → IsPayload self.new.payload }
        ensures more { result ≡ Ok Payload → self.new.count ≡ self.old.count + 1 }
        ensures as_many { result ≢ Ok Payload → self.new.count ≡ self.old.count }
        ensures same_payload { result ≢ Ok Payload → self.new.payload ≡ self.old.payload }
        ensures same_place { result ≡ Ok End → self.new.place ≡ self.old.place }
        ensures ends { result ≡ Ok End → self.new.is_ended ≡ true }

        ensures cause { result ≡ Err NextFault.Disk → Rose (D.drive self.old.disk).faults (D.drive self.new.disk).faults }
        ensures never_falls { (D.drive self.old.disk).faults ≤ (D.drive self.new.disk).faults }
        ensures goes_on { GoesOn (D.drive self.old.disk) (D.drive self.new.disk) }
        ensures leaves { Honestly (D.drive self.old.disk) (Leaves (D.drive self.old.disk) (D.drive self.new.disk)) }
    {
        if self.is_ended {
            return Ok(Next::End);
        }
        if self.waiting > 0 {
            return self.tell();
        }
        match self.enter() {
            Ok(true) => self.tell(),
            Ok(false) => Ok(Next::End),
            Err(fault) => Err(fault),
        }
    }

    /// At a gate: goes behind it and the size of its batch where it is open, and notes the end where it isn't. Tells
    /// whether it is open.
    fn enter(&mut self) -> Result<bool, NextFault>
        requires count { self.old.count < 2 ^ 32 }
        requires none { self.old.waiting ≡ 0 }
        requires goes { self.old.is_ended ≡ false }

        ensures enters { (list : List (List ℕ)) → HasTold D.drive list self.old → Enters D.drive list result self.new }
        ensures some { result ≡ Ok true → 1 ≤ self.new.waiting }
        ensures ends { result ≡ Ok false → self.new.is_ended ≡ true }
        ensures count { (self.new.count ≡ self.old.count) × (self.new.payload ≡ self.old.payload) }
        ensures place { result ≡ Ok false → self.new.place ≡ self.old.place }
        ensures cause { result ≡ Err NextFault.Disk → Rose (D.drive self.old.disk).faults (D.drive self.new.disk).faults }
        ensures never_falls { (D.drive self.old.disk).faults ≤ (D.drive self.new.disk).faults }
        ensures goes_on { GoesOn (D.drive self.old.disk) (D.drive self.new.disk) }
        ensures leaves { Honestly (D.drive self.old.disk) (Leaves (D.drive self.old.disk) (D.drive self.new.disk)) }
    {
        let Ok(()) = self.window.need(&mut self.disk, MOST_AT_GATE) else {
            return Err(NextFault::Disk);
        };
        match gate_of(self.window.as_slice()) {
            Gate::Closed => {
                self.is_ended = true;
                Ok(false)
            }
            Gate::Open { payloads } => {
                self.place = self.window.place();
                self.waiting = payloads;
                self.window.skip(5);
                Ok(true)
            }
            Gate::Torn => Err(NextFault::Cut {
                at: self.window.place(),
            }),
        }
    }

    /// Cuts the first of the payloads that wait off the window. They are all there where the disk is honest.
    fn tell(&mut self) -> Result<Next, NextFault>
        requires count { self.old.count < 2 ^ 32 }
        requires some { 1 ≤ self.old.waiting }

        ensures tells { (list : List (List ℕ)) → HasTold D.drive list self.old → Tells D.drive list result self.new }
        ensures payload { result ≡ Ok Payload → IsPayload self.new.payload }
        ensures more { result ≡ Ok Payload → self.new.count ≡ self.old.count + 1 }
        ensures as_many { result ≢ Ok Payload → self.new ≡ self.old }
        ensures goes { result ≡ Ok End → ⊥ }
        ensures sound { result ≡ Err NextFault.Disk → ⊥ }
        ensures disk { self.new.disk ≡ self.old.disk }
    {
        let Some((payload, _)) = split_payload(self.window.as_slice()) else {
            return Err(NextFault::Cut { at: self.place });
        };
        let size = 2 + payload.len();
        self.payload.clear();
        append(&mut self.payload, payload);
        self.window.skip(size);
        self.waiting -= 1;
        self.count += 1;
        Ok(Next::Payload)
    }

    /// The payload that was told last, and no bytes before the first.
    pub fn payload(&self) -> &[u8]
        ensures { result.now ≡ self.now.payload }
    {
        self.payload.as_slice()
    }

    /// The place of the gate of its batch, in bytes from the start of the disk.
    pub fn place(&self) -> u64
        ensures { result ≡ self.now.place }
    {
        self.place
    }

    /// How many payloads were told.
    pub fn count(&self) -> u64
        ensures { result ≡ self.now.count }
    {
        self.count
    }

    /// The journal, for appending.
    pub fn finish(self) -> Journal<D>
        requires { self.is_ended ≡ true }

        ensures of { (list : List (List ℕ)) → HasTold D.drive list self → IsOf D.drive list result }
        ensures disk { result.disk ≡ self.disk }
        ensures count { result.count ≡ self.count }
        ensures sound { result.broken ≡ false }
    {
        Journal::at_gate(self.disk, self.window.place(), self.count)
    }

    /// The disk.
    pub fn give_up(self) -> D
        ensures { result ≡ self.disk }
    {
        self.disk
    }
}
