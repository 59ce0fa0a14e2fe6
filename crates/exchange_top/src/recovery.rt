//! Reading a journal back into an exchange.

ghost use Rattle.std.specs.Prelude.{◌≡◌, ◌≢◌, ◌⊎◌, ℕ, ◌<◌, ◌≤◌, List, [], ◌∷◌, ◌++◌, length, false, IfOk, IfErr, OnOk, OnErr};
ghost use Rattle.command_words.specs.declared.act.Act.{Act};
ghost use Rattle.journal_disk.specs.Drive.{Honestly, IsStored};
ghost use Rattle.journal_disk.specs.Steps.{GoesOn, Leaves};
ghost use Rattle.journal_store.specs.Found.{StandsAs};
ghost use Rattle.journal_store.specs.Reader.{HasTold};
ghost use Rattle.outside_faults.specs.Faults.{Rose};
ghost use Rattle.settle_core.specs.Legal.{IsLegal};
ghost use Rattle.exchange_top.specs.Holds.{Holds};
ghost use Rattle.exchange_top.specs.Recovery.{Recovers, Stops, StopsAt, IsRedone, IsExcused, disk_of, of_begin, of_next};
ghost use Rattle.exchange_top.specs.declared.recovery.OpenFault.TheVariants.{Disk, NotJournal};

use crate::serving::Opened;
use act_bytes::read_act;
use condition_sets::NoMemory;
use journal_disk::Disk;
use journal_store::{BeginFault, Next, NextFault, Reader};
use line_link::Status;
use settle_core::{Exchange, Limits, ReplayFault};
use std::alloc::Global;
use thiserror::Error;

/// Why a journal gives no exchange. `at` is the byte of the gate of a batch, and `lsn` how many acts stand before.
#[derive(Clone, Copy, Debug, PartialEq, Eq, Error)]
pub enum OpenFault {
    /// The disk failed.
    #[error("the disk of the journal failed")]
    Disk,
    /// The disk has more than 17 bytes, which don't begin with a journal's header.
    #[error("the disk has no journal")]
    NotJournal,
    /// The open gate has no whole batch behind it, with one byte more.
    #[error("the journal breaks off behind {lsn} acts, at byte {at}")]
    Cut { at: u64, lsn: u64 },
    /// The payload behind `lsn` acts spells no act.
    #[error("the journal has no act behind {lsn} acts, in the batch at byte {at}")]
    NotAct { at: u64, lsn: u64 },
    /// Act `lsn` is refused over those before it, with the refusal of number `code`.
    #[error("act {lsn} is refused with {code}, in the batch at byte {at}")]
    Illegal { at: u64, lsn: u64, code: u8 },
    /// Memory was wanting. It may be answered at any time.
    #[error("out of memory")]
    Memory,
}

impl OpenFault {
    ghost use Rattle.exchange_top.specs.Recovery.{status_of};

    /// How a run ends that meets this fault.
    pub fn status(&self) -> Status
        ensures { result ≡ status_of self.now }
    {
        match self {
            OpenFault::Disk => Status::DiskFault,
            OpenFault::NotJournal => Status::NotJournal,
            OpenFault::Cut { at, lsn } => Status::Cut { at: *at, lsn: *lsn },
            OpenFault::NotAct { at, lsn } => Status::NotAct { at: *at, lsn: *lsn },
            OpenFault::Illegal { at, lsn, code } => Status::Illegal {
                at: *at,
                lsn: *lsn,
                code: *code,
            },
            OpenFault::Memory => Status::Memory,
        }
    }
}

/// A disk whose journal gives no exchange, and why.
#[derive(Drop)]
pub struct OpenFailed<D> {
    pub why: OpenFault,
    pub disk: D,
}

/// Opens the journal of a disk and carries its acts out again, one after another.
///
/// On a disk of at most 17 bytes an empty journal is made, and a longer one is left as it was. The first place of the
/// journal that gives no act decides.
pub fn recover<D: Disk>(alloc: Global, limits: Limits, disk: D) -> Result<Opened<D>, OpenFailed<D>>
    ensures ok { IfOk result (λ opened. Honestly (D.drive disk) (Recovers D.drive (D.drive disk).bytes opened.exchange.history opened.journal)) }
    ensures limits { IfOk result (λ opened. opened.exchange.limits ≡ limits) }
    ensures sound { IfOk result (λ opened. (opened.journal.broken ≡ false) × (opened.journal.count ≡ length opened.exchange.history)) }

    ensures stops { IfErr result (λ failed. Honestly (D.drive disk) (Stops limits (D.drive disk).bytes failed.why)) }
    ensures cause { IfErr result (λ failed. failed.why ≡ Disk → Rose (D.drive disk).faults (D.drive failed.disk).faults) }
    ensures excused { (history : List Act) → Honestly (D.drive disk) (Holds (D.drive disk).bytes history → IsLegal limits history → IfErr result (λ failed. IsExcused failed.why)) }

    // A disk of more than 17 bytes is left as it was, whatever the answer.
    ensures leaves { Honestly (D.drive disk) (17 < length (D.drive disk).bytes → Leaves (D.drive disk) (D.drive (disk_of result))) }
    // Where nothing was pending, each image since the call began stands for what the bytes stood for.
    ensures image { Honestly (D.drive disk) (IsStored (D.drive disk) → (image : List ℕ) → (D.drive (disk_of result)).image image → StandsAs (D.drive disk).bytes image) }
    ensures since { Honestly (D.drive disk) (IsStored (D.drive disk) → (moment : ℕ) (image : List ℕ) → moment ≤ (D.drive disk).moment
        → (D.drive (disk_of result)).image_since moment image → (D.drive disk).image_since moment image ⊎ StandsAs (D.drive disk).bytes image) }
    ensures never_falls { (D.drive disk).faults ≤ (D.drive (disk_of result)).faults }
    ensures goes_on { GoesOn (D.drive disk) (D.drive (disk_of result)) }
{
    match Reader::begin(alloc, disk) {
        Ok(reader) => match Exchange::new(alloc, limits) {
            Ok(exchange) => read_back(alloc, exchange, reader),
            Err(NoMemory) => Err(give_up(OpenFault::Memory, reader)),
        },
        Err(failed) => Err(OpenFailed {
            why: of_begin(failed.why),
            disk: failed.disk,
        }),
    }
}

/// Carries out each act of a journal, over the empty history.
fn read_back<D: Disk>(
    alloc: Global,
    mut exchange: Exchange,
    mut reader: Reader<D>,
) -> Result<Opened<D>, OpenFailed<D>>
    requires history { exchange.history ≡ [] }
    requires count { reader.count ≡ 0 }

    ensures ok { HasTold D.drive [] reader → IfOk result (λ opened. Recovers D.drive (D.drive reader.disk).bytes opened.exchange.history opened.journal) }
    ensures limits { IfOk result (λ opened. opened.exchange.limits ≡ exchange.limits) }
    ensures sound { IfOk result (λ opened. (opened.journal.broken ≡ false) × (opened.journal.count ≡ length opened.exchange.history)) }
    ensures stops { HasTold D.drive [] reader → IfErr result (λ failed. Stops exchange.limits (D.drive reader.disk).bytes failed.why) }
    ensures journal { IfErr result (λ failed. failed.why ≢ NotJournal) }
    ensures cause { IfErr result (λ failed. failed.why ≡ Disk → Rose (D.drive reader.disk).faults (D.drive failed.disk).faults) }
    ensures leaves { Honestly (D.drive reader.disk) (Leaves (D.drive reader.disk) (D.drive (disk_of result))) }
    ensures never_falls { (D.drive reader.disk).faults ≤ (D.drive (disk_of result)).faults }
    ensures goes_on { GoesOn (D.drive reader.disk) (D.drive (disk_of result)) }
{
    'payloads: loop {
        let lsn = exchange.history().len() as u64;
        match reader.next() {
            Ok(Next::Payload) => {}
            Ok(Next::End) => {
                let journal = reader.finish();
                return Ok(Opened { exchange, journal });
            }
            Err(fault) => return Err(give_up(of_next(fault, lsn), reader)),
        }
        match redo(alloc, &mut exchange, reader.payload(), reader.place()) {
            Ok(()) => {}
            Err(why) => return Err(give_up(why, reader)),
        }
    }
}

/// Carries out the act that a payload spells, in the batch of the gate at byte `at`.
fn redo(alloc: Global, exchange: &mut Exchange, payload: &[u8], at: u64) -> Result<(), OpenFault>
    ensures ok { OnOk result (IsRedone exchange.old.history exchange.new.history payload.now) }
    ensures err { IfErr result (StopsAt exchange.old.limits exchange.old.history payload.now at) }
    ensures limits { exchange.new.limits ≡ exchange.old.limits }
{
    match read_act(alloc, payload) {
        Ok(Some(act)) => match exchange.redo(&act) {
            Ok(()) => Ok(()),
            Err(ReplayFault::Illegal { lsn, code }) => Err(OpenFault::Illegal { at, lsn, code }),
            Err(ReplayFault::Memory) => Err(OpenFault::Memory),
        },
        Ok(None) => Err(OpenFault::NotAct {
            at,
            lsn: exchange.history().len() as u64,
        }),
        Err(NoMemory) => Err(OpenFault::Memory),
    }
}

/// The disk of a journal that gives no exchange.
fn give_up<D: Disk>(why: OpenFault, reader: Reader<D>) -> OpenFailed<D>
    ensures { result ≡ record { why = why; disk = reader.disk } }
{
    OpenFailed {
        why,
        disk: reader.give_up(),
    }
}

/// A fault of opening a journal.
fn of_begin(why: BeginFault) -> OpenFault
    ensures { result ≡ of_begin why }
{
    match why {
        BeginFault::Disk => OpenFault::Disk,
        BeginFault::NotJournal => OpenFault::NotJournal,
        BeginFault::Memory => OpenFault::Memory,
    }
}

/// A fault of reading a journal behind `lsn` acts.
fn of_next(fault: NextFault, lsn: u64) -> OpenFault
    ensures { result ≡ of_next fault lsn }
{
    match fault {
        NextFault::Disk => OpenFault::Disk,
        NextFault::Cut { at } => OpenFault::Cut { at, lsn },
    }
}
