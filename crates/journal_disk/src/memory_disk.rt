ghost use Rattle.std.specs.Prelude.{◌≡◌, ℕ, ◌+◌, ◌≤◌, ◌<◌, [], ◌∷◌, ◌++◌, List, length, take, drop, slice_get, Some, All, Contains, IfOk, IsErr, OnOk, OnErr, is_ok};
ghost use Rattle.outside_faults.specs.Faults.{HasCause};
ghost use Rattle.outside_faults.specs.Script.{raised_calls};
ghost use Rattle.journal_disk.specs.Drive.{Honestly};
ghost use Rattle.journal_disk.specs.Steps.{GoesOn, Leaves, Reads, Writes, Cuts, Syncs};
ghost use Rattle.journal_disk.specs.Images.{overlaid};
ghost use Rattle.journal_disk.specs.Memory.{contents, stored, Image, HasLength, IsNoted, drive_of};
ghost use Rattle.journal_disk.specs.MemoryLaws.{memory-is_drive};
ghost use Rattle.journal_disk.specs.declared.call.Call.TheVariants.{Read, Write, Cut, Sync};

use crate::call::Call;
use crate::changed::{front, overlaid};
use crate::disk::Disk;
use crate::images::images;
use condition_sets::{ListOf, NoMemory};
use outside_faults::{Failed, FailingCalls, FaultCount};
use std::alloc::Global;
use std::marker::Model;

/// A disk in memory, with the calls that are to fail. It keeps a record of all calls.
///
/// Contracts see its first bytes, its calls, the newest first, its faults, and which calls are to fail.
#[derive(Drop)]
pub struct MemoryDisk {
    alloc: Global,
    first: Vec<u8>,
    bytes: Vec<u8>,
    calls: Vec<Call>,
    failing: FailingCalls,
    faults: FaultCount,
}

impl Model for MemoryDisk {
    ghost use Rattle.std.specs.Prelude.{◌≡◌};
    ghost use Rattle.journal_disk.specs.Memory.{MemoryDiskView, contents};

    ghost Value = { MemoryDiskView };

    ghost view = { λ d. record { first = d.first.items; calls = d.calls.items; faults = d.faults; script = d.failing } };

    ghost invariant = { λ d. d.bytes.items ≡ contents d.first.items d.calls.items };
}

impl MemoryDisk {
    /// A disk that has these bytes stored. No call was made of it.
    pub fn new(alloc: Global, first: Vec<u8>, failing: FailingCalls) -> Result<MemoryDisk, NoMemory>
        ensures { IfOk result (λ disk. disk ≡ record { first = first.items; calls = []; faults = 0; script = failing }) }
    {
        Ok(MemoryDisk {
            alloc,
            bytes: Vec::from_slice(alloc, &first)?,
            first,
            calls: Vec::new(alloc),
            failing,
            faults: FaultCount::new(),
        })
    }

    /// The calls that were made, the newest first.
    pub fn calls(&self) -> &[Call]
        ensures { result.now ≡ self.now.calls }
    {
        self.calls.as_slice()
    }

    /// What a read gives.
    pub fn as_slice(&self) -> &[u8]
        ensures { result.now ≡ contents self.now.first self.now.calls }
    {
        self.bytes.as_slice()
    }

    /// Images that a crash now may leave; the first is what was stored last, what a read gives is among them, and of each
    /// length that an image may have there is one. Where an image may have any bytes these are the old ones, the new
    /// ones, all zeros and all ones; it may have others.
    pub fn images(&self) -> Result<Vec<ListOf<u8>>, NoMemory>
        ensures all { IfOk result (λ images. All (Image self.now.first self.now.calls) images.items) }
        ensures first { IfOk result (λ images. slice_get images.items 0 ≡ Some (stored self.now.first self.now.calls)) }
        ensures contents { IfOk result (λ images. Contains images.items (contents self.now.first self.now.calls)) }
        ensures lengths { IfOk result (λ images. (image : List ℕ) → Image self.now.first self.now.calls image → HasLength (length image) images.items) }
    {
        images(self.alloc, &self.first, &self.calls)
    }

    /// How often a call has failed.
    pub fn faults(&self) -> u64
        ensures { result ≡ self.now.faults }
    {
        self.faults.get()
    }

    /// Keeps a call that changes nothing of what a read gives.
    fn note(&mut self, call: Call) -> Result<(), NoMemory>
        requires { contents self.old.first (call ∷ self.old.calls) ≡ contents self.old.first self.old.calls }

        ensures ok { OnOk result (self.new ≡ record self.old { calls = call ∷ self.old.calls }) }
        ensures err { OnErr result (self.new ≡ self.old) }
    {
        self.calls.insert(0, call)?;
        Ok(())
    }

    /// Keeps a call after which a read gives these bytes.
    fn change(&mut self, call: Call, bytes: Vec<u8>) -> Result<(), NoMemory>
        requires { bytes.items ≡ contents self.old.first (call ∷ self.old.calls) }

        ensures ok { OnOk result (self.new ≡ record self.old { calls = call ∷ self.old.calls }) }
        ensures err { OnErr result (self.new ≡ self.old) }
    {
        self.calls.insert(0, call)?;
        self.bytes = bytes;
        Ok(())
    }

    /// Keeps a write, and carries it out where it succeeds.
    fn keep_write(&mut self, at: u64, bytes: &[u8], ok: bool) -> Result<(), NoMemory>
        ensures ok { OnOk result (self.new ≡ record self.old { calls = Write at bytes.now ok ∷ self.old.calls }) }
        ensures err { OnErr result (self.new ≡ self.old) }
    {
        let written = ListOf::of(Vec::from_slice(self.alloc, bytes)?);
        let write = Call::Write {
            at,
            bytes: written,
            ok,
        };
        if !ok {
            return self.note(write);
        }
        let after = overlaid(self.alloc, &self.bytes, at, bytes)?;
        self.change(write, after)
    }

    /// Keeps a cut, and carries it out where it succeeds.
    fn keep_cut(&mut self, len: u64, ok: bool) -> Result<(), NoMemory>
        ensures ok { OnOk result (self.new ≡ record self.old { calls = Cut len ok ∷ self.old.calls }) }
        ensures err { OnErr result (self.new ≡ self.old) }
    {
        let cut = Call::Cut { len, ok };
        if !ok {
            return self.note(cut);
        }
        let after = Vec::from_slice(self.alloc, front(&self.bytes, len))?;
        self.change(cut, after)
    }
}

impl Disk for MemoryDisk {
    ghost drive = { drive_of };

    ghost is_drive = { memory-is_drive };

    fn read(&mut self, at: u64, into: &mut [u8]) -> Result<usize, Failed>
        ensures cause { HasCause self.old.faults self.new.faults result }
        ensures goes_on { GoesOn (drive_of self.old) (drive_of self.new) }
        ensures one_moment { (drive_of self.new).moment ≤ (drive_of self.old).moment + 1 }
        ensures within { IfOk result (λ n. n ≤ length into.old) }
        ensures bytes { Honestly (drive_of self.old) (Reads at result (drive_of self.old).bytes into.old into.new) }
        ensures leaves { Honestly (drive_of self.old) (Leaves (drive_of self.old) (drive_of self.new)) }

        // It fails at the calls that are to fail, and may fail for want of memory beside that. Each call is noted.
        ensures scripted { Contains self.old.script.failing self.new.script.made → IsErr result }
        ensures script { self.new.script ≡ raised_calls self.old.script }
        ensures noted { IsNoted (Read at (length into.old) (is_ok result)) result self.old self.new }
    {
        let ok = !self.failing.next_fails();
        let call = Call::Read {
            at,
            len: into.len(),
            ok,
        };
        match self.note(call) {
            Ok(()) if ok => Ok(fill(into, behind(&self.bytes, at))),
            Ok(()) => Err(self.faults.raise()),
            Err(NoMemory) => Err(self.faults.raise()),
        }
    }

    fn write_at(&mut self, at: u64, bytes: &[u8]) -> Result<(), Failed>
        ensures cause { HasCause self.old.faults self.new.faults result }
        ensures goes_on { GoesOn (drive_of self.old) (drive_of self.new) }
        ensures one_moment { (drive_of self.new).moment ≤ (drive_of self.old).moment + 1 }
        ensures writes { Honestly (drive_of self.old) (Writes at bytes.now result (drive_of self.old) (drive_of self.new)) }

        // It fails at the calls that are to fail, and may fail for want of memory beside that. Each call is noted.
        ensures scripted { Contains self.old.script.failing self.new.script.made → IsErr result }
        ensures script { self.new.script ≡ raised_calls self.old.script }
        ensures noted { IsNoted (Write at bytes.now (is_ok result)) result self.old self.new }
    {
        let ok = !self.failing.next_fails();
        match self.keep_write(at, bytes, ok) {
            Ok(()) if ok => Ok(()),
            Ok(()) => Err(self.faults.raise()),
            Err(NoMemory) => Err(self.faults.raise()),
        }
    }

    fn cut(&mut self, len: u64) -> Result<(), Failed>
        ensures cause { HasCause self.old.faults self.new.faults result }
        ensures goes_on { GoesOn (drive_of self.old) (drive_of self.new) }
        ensures one_moment { (drive_of self.new).moment ≤ (drive_of self.old).moment + 1 }
        ensures cuts { Honestly (drive_of self.old) (Cuts len result (drive_of self.old) (drive_of self.new)) }

        // It fails at the calls that are to fail, and may fail for want of memory beside that. Each call is noted.
        ensures scripted { Contains self.old.script.failing self.new.script.made → IsErr result }
        ensures script { self.new.script ≡ raised_calls self.old.script }
        ensures noted { IsNoted (Cut len (is_ok result)) result self.old self.new }
    {
        let ok = !self.failing.next_fails();
        match self.keep_cut(len, ok) {
            Ok(()) if ok => Ok(()),
            Ok(()) => Err(self.faults.raise()),
            Err(NoMemory) => Err(self.faults.raise()),
        }
    }

    fn sync(&mut self) -> Result<(), Failed>
        ensures cause { HasCause self.old.faults self.new.faults result }
        ensures goes_on { GoesOn (drive_of self.old) (drive_of self.new) }
        ensures one_moment { (drive_of self.new).moment ≤ (drive_of self.old).moment + 1 }
        ensures syncs { Honestly (drive_of self.old) (Syncs result (drive_of self.old) (drive_of self.new)) }

        // It fails at the calls that are to fail, and may fail for want of memory beside that. Each call is noted.
        ensures scripted { Contains self.old.script.failing self.new.script.made → IsErr result }
        ensures script { self.new.script ≡ raised_calls self.old.script }
        ensures noted { IsNoted (Sync (is_ok result)) result self.old self.new }
    {
        let ok = !self.failing.next_fails();
        match self.note(Call::Sync { ok }) {
            Ok(()) if ok => Ok(()),
            Ok(()) => Err(self.faults.raise()),
            Err(NoMemory) => Err(self.faults.raise()),
        }
    }
}

/// The bytes from a place on.
fn behind(bytes: &[u8], at: u64) -> &[u8]
    ensures { result.now ≡ drop at bytes.now }
{
    let at = bytes.len().min(at as usize);
    &bytes[at..]
}

/// Puts bytes into a front of the piece, as many as there are up to the piece, and tells how many.
fn fill(piece: &mut [u8], bytes: &[u8]) -> usize
    ensures count { result ≡ length (take (length piece.old) bytes.now) }
    ensures bytes { piece.new ≡ take (length piece.old) bytes.now ++ drop result piece.old }
{
    let count = piece.len().min(bytes.len());
    piece[..count].copy_from_slice(&bytes[..count]);
    count
}
