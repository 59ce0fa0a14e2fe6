//! Answering lines over a house whose journal is open.

ghost use Rattle.std.specs.Prelude.{◌≡◌, ◌+◌, ◌<◌, ◌≤◌, [], length, false, IfOk};
ghost use Rattle.command_words.specs.Reply.{IsSound};
ghost use Rattle.journal_disk.specs.Drive.{Honestly};
ghost use Rattle.outside_faults.specs.Faults.{Rose};
ghost use Rattle.outside_faults.specs.Told.{IfTold};
ghost use Rattle.settle_core.specs.Bounds.{standard};
ghost use Rattle.settle_core.specs.Legal.{IsLegal};
ghost use Rattle.wire_json.specs.ReplyText.{text_of};
ghost use Rattle.exchange_top.specs.Holds.{HasStored};
ghost use Rattle.exchange_top.specs.Run.{outside, Served};
ghost use Rattle.exchange_top.specs.declared.serving.TheConstants.{MAX_INPUT};

use crate::answering::answer_line;
use crate::ended::Ended;
use crate::storing::store_new;
use command_words::{Clock, Reply};
use condition_sets::NoMemory;
use journal_disk::Disk;
use journal_store::{Batch, DiskFault, Journal};
use ledger_lock::House;
use line_link::{LineReader, ReadEnd, Sink, Source, Status, WriteFault, write_all};
use settle_core::Exchange;
use std::alloc::Global;
use wire_json::{Text, write_reply};

/// How many bytes a run takes from its source at the most.
pub const MAX_INPUT: u64 = 1 << 40;

/// An exchange with the journal of its history.
#[derive(Drop)]
pub struct Opened<D> {
    pub exchange: Exchange,
    pub journal: Journal<D>,
}

/// What a run takes its memory for before it opens its journal.
#[derive(Drop)]
pub(crate) struct Desk {
    reader: LineReader,
    pub(crate) text: Text,
    batch: Batch,
}

impl Desk {
    /// Takes the memory that a run needs before it opens its journal.
    pub(crate) fn new(alloc: Global) -> Result<Desk, NoMemory>
        ensures { IfOk result (λ desk. desk.reader ≡ record { pending = []; taken = 0; limit = MAX_INPUT; text = [] }) }
    {
        Ok(Desk {
            reader: LineReader::new(alloc, MAX_INPUT)?,
            text: Text::new(alloc)?,
            batch: Batch::new(alloc)?,
        })
    }
}

/// The end of a run over a house, that wrote so many replies whole.
fn end<D: Disk>(status: Status, lines: u64, house: House, journal: Journal<D>) -> Ended<D>
    ensures value { result ≡ record { status = status; lines = lines; acts = length house.history; disk = journal.disk } }
    ensures legal { IsLegal house.limits house.history }
{
    Ended {
        status,
        lines,
        acts: house.exchange().history().len() as u64,
        disk: journal.give_up(),
    }
}

/// Makes the text of a reply that isn't needed any more.
fn spell(reply: Reply, into: &mut Text)
    requires { IsSound reply }
    ensures { into.new ≡ text_of reply }
{
    write_reply(&reply, into);
}

/// Answers each line until the source ends or an object of the outside fails.
pub(crate) fn serve<R: Source, W: Sink, D: Disk, C: Clock>(
    alloc: Global,
    mut desk: Desk,
    mut house: House,
    mut journal: Journal<D>,
    source: &mut R,
    sink: &mut W,
    clock: &mut C,
) -> Ended<D>
    requires reader { desk.reader ≡ record { pending = []; taken = 0; limit = MAX_INPUT; text = [] } }
    requires limits { house.limits ≡ standard }
    requires sound { journal.broken ≡ false }
    requires count { journal.count ≡ length house.history }
    requires stored { Honestly (D.drive journal.disk) (HasStored D.drive house.history journal) }

    ensures served { Served D.drive journal.disk house.history result
        (outside (R.left source.old) (W.held sink.old) (C.may_have_told clock.old))
        (outside (R.left source.new) (W.held sink.new) (C.may_have_told clock.new)) }

    ensures read_fault { result.status ≡ Status.ReadFault → Rose (R.read_faults source.old) (R.read_faults source.new) }
    ensures write_fault { result.status ≡ Status.WriteFault → Rose (W.write_faults sink.old) (W.write_faults sink.new) }
    ensures disk_fault { result.status ≡ Status.DiskFault → Rose (D.drive journal.disk).faults (D.drive result.disk).faults }
    ensures input_limit { result.status ≡ Status.InputLimit → IfTold (R.left source.old) (R.left source.new)
        (λ input left. length input ≡ MAX_INPUT + length left) }
    ensures below_limit { result.status ≡ Status.ReadFault → IfTold (R.left source.old) (R.left source.new)
        (λ input left. length input < MAX_INPUT + length left) }
    ensures never_falls { (D.drive journal.disk).faults ≤ (D.drive result.disk).faults }
{
    let mut lines = 0u64;
    'lines: loop {
        let line = match desk.reader.next(source) {
            Ok(line) => line,
            Err(ReadEnd::End) => return end(Status::Done, lines, house, journal),
            Err(ReadEnd::ReadFault) => return end(Status::ReadFault, lines, house, journal),
            Err(ReadEnd::InputLimit) => return end(Status::InputLimit, lines, house, journal),
        };
        let now = clock.now();
        let reply = answer_line(alloc, &mut house, line, desk.reader.text(), now);
        match store_new(&house, &mut journal, &mut desk.batch) {
            Ok(()) => {}
            Err(DiskFault) => return end(Status::DiskFault, lines, house, journal),
        }
        spell(reply, &mut desk.text);
        match write_all(sink, desk.text.as_slice()) {
            Ok(()) => lines += 1,
            Err(WriteFault) => return end(Status::WriteFault, lines, house, journal),
        }
    }
}
