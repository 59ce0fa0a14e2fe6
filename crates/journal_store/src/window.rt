ghost use Rattle.std.specs.Prelude.{◌≡◌, ℕ, ◌+◌, ◌^◌, ◌<◌, ◌≤◌, [], ◌∷◌, length, drop, true, false, IfOk, OnOk};
ghost use Rattle.outside_faults.specs.Faults.{HasCause};
ghost use Rattle.journal_disk.specs.Drive.{Honestly};
ghost use Rattle.journal_disk.specs.Steps.{GoesOn, Leaves};
ghost use Rattle.journal_store.specs.Reader.{Unread, IsFrontOf};

use condition_sets::NoMemory;
use journal_disk::Disk;
use outside_faults::Failed;
use std::alloc::Global;
use std::marker::Model;

/// How many bytes are read at once.
pub const WINDOW_BYTES: usize = 65_536;

/// Bytes of a disk that were read ahead. Contracts see those that are unread, their place, and whether the disk ends
/// behind them.
#[derive(Drop)]
pub struct Window {
    buffer: Vec<u8>,
    start: usize,
    end: usize,
    place: u64,
    is_last: bool,
}

impl Model for Window {
    ghost use Rattle.std.specs.Prelude.{◌-◌, take, drop};
    ghost use Rattle.journal_store.specs.Reader.{Unread};
    ghost use Rattle.journal_store.specs.Window.{IsPart};

    ghost Value = { Unread };

    ghost view = { λ w. record { place = w.place; bytes = take (w.end - w.start) (drop w.start w.buffer.items); is_last = w.is_last } };

    ghost invariant = { λ w. IsPart w.start w.end w.buffer.items };
}

impl Window {
    /// A window at a place, of which nothing was read. It takes all the memory that it needs.
    pub fn new(alloc: Global, place: u64) -> Result<Window, NoMemory>
        ensures { IfOk result (λ window. window ≡ record { place = place; bytes = []; is_last = false }) }
    {
        let mut buffer = Vec::with_capacity(alloc, WINDOW_BYTES)?;
        buffer.resize(WINDOW_BYTES, 0)?;
        Ok(Window {
            buffer,
            start: 0,
            end: 0,
            place,
            is_last: false,
        })
    }

    /// The unread bytes.
    pub fn as_slice(&self) -> &[u8]
        ensures { result.now ≡ self.now.bytes }
    {
        &self.buffer[self.start..self.end]
    }

    /// The place of the first unread byte on the disk.
    pub fn place(&self) -> u64
        ensures { result ≡ self.now.place }
    {
        self.place
    }

    /// Goes on behind so many bytes.
    pub fn skip(&mut self, count: usize)
        requires within { count ≤ length self.old.bytes }
        requires place { self.old.place + count < 2 ^ 64 }
        ensures { self.new ≡ record { place = self.old.place + count; bytes = drop count self.old.bytes; is_last = self.old.is_last } }
    {
        self.start += count;
        self.place += count as u64;
    }

    /// Takes one byte as the last of the disk.
    pub fn end_with(&mut self, byte: u8)
        ensures { self.new ≡ record { place = self.old.place; bytes = byte ∷ []; is_last = true } }
    {
        self.buffer[0] = byte;
        self.start = 0;
        self.end = 1;
        self.is_last = true;
    }

    /// Reads the whole window from its place on.
    fn fill<D: Disk>(&mut self, disk: &mut D) -> Result<(), Failed>
        ensures cause { HasCause (D.drive disk.old).faults (D.drive disk.new).faults result }
        ensures goes_on { GoesOn (D.drive disk.old) (D.drive disk.new) }
        ensures leaves { Honestly (D.drive disk.old) (Leaves (D.drive disk.old) (D.drive disk.new)) }
        ensures place { self.new.place ≡ self.old.place }
        ensures front { Honestly (D.drive disk.old) (OnOk result (IsFrontOf (D.drive disk.old).bytes self.new)) }
        ensures enough { OnOk result (self.new.is_last ≡ false → WINDOW_BYTES ≤ length self.new.bytes) }
    {
        let read = disk.read(self.place, &mut self.buffer);
        self.start = 0;
        match read {
            Ok(len) => {
                self.end = len;
                self.is_last = len < WINDOW_BYTES;
                Ok(())
            }
            Err(failed) => {
                self.end = 0;
                self.is_last = false;
                Err(failed)
            }
        }
    }

    /// Reads on where fewer than so many bytes are unread and the disk doesn't end behind them. After an `Err`
    /// nothing is unread.
    pub fn need<D: Disk>(&mut self, disk: &mut D, least: usize) -> Result<(), Failed>
        requires { least ≤ WINDOW_BYTES }

        ensures cause { HasCause (D.drive disk.old).faults (D.drive disk.new).faults result }
        ensures goes_on { GoesOn (D.drive disk.old) (D.drive disk.new) }
        ensures leaves { Honestly (D.drive disk.old) (Leaves (D.drive disk.old) (D.drive disk.new)) }
        ensures place { self.new.place ≡ self.old.place }
        ensures front { Honestly (D.drive disk.old) (IsFrontOf (D.drive disk.old).bytes self.old → OnOk result (IsFrontOf (D.drive disk.old).bytes self.new)) }
        ensures enough { OnOk result (self.new.is_last ≡ false → least ≤ length self.new.bytes) }
    {
        if self.is_last || self.end - self.start >= least {
            return Ok(());
        }
        self.fill(disk)
    }
}
