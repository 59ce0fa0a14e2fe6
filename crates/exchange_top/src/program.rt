ghost use Rattle.std.specs.Prelude.{◌≡◌, ◌≢◌, ◌⊎◌, ℕ, ◌+◌, ◌<◌, ◌≤◌, ◌↔◌, List, [], length, Bool, true, false, IfOk};
ghost use Rattle.command_words.specs.declared.act.Act.{Act};
ghost use Rattle.journal_disk.specs.Drive.{Honestly};
ghost use Rattle.outside_faults.specs.Faults.{Rose};
ghost use Rattle.outside_faults.specs.Told.{IfTold};
ghost use Rattle.settle_core.specs.Bounds.{standard};
ghost use Rattle.settle_core.specs.Legal.{IsLegal};
ghost use Rattle.exchange_top.specs.Holds.{Holds};
ghost use Rattle.exchange_top.specs.Recovery.{Stops, status_of};
ghost use Rattle.exchange_top.specs.Run.{outside, Ran, Stopped, Says, IsDamaged, IsServed};
ghost use Rattle.exchange_top.specs.Words.{is_run};
ghost use Rattle.exchange_top.specs.declared.serving.TheConstants.{MAX_INPUT};

use crate::ended::Ended;
use crate::ending::write_end;
use crate::recovery::{OpenFailed, recover};
use crate::serving::{Desk, serve};
use command_words::Clock;
use condition_sets::NoMemory;
use journal_disk::Disk;
use ledger_lock::House;
use line_link::{Sink, Source, Status, WriteFault, write_all};
use settle_core::Limits;
use std::alloc::Global;
use wire_json::Text;

/// Runs the program: with the one word `run`, recovers the exchange that the disk's journal holds, then reads lines from
/// the source to its end and writes the reply to each to the sink. What a line adds to the history is stored before
/// its reply is written.
///
/// The words that a status stands for are those of [`Status`]. It always returns.
pub fn run<R: Source, W: Sink, D: Disk, C: Clock>(
    alloc: Global,
    words: &[String],
    source: &mut R,
    sink: &mut W,
    disk: D,
    clock: &mut C,
) -> Ended<D>
    // What was read, what it was answered, what was stored and what was written; or that the journal wasn't opened.
    ensures ran { let before = outside (R.left source.old) (W.held sink.old) (C.may_have_told clock.old) in
        let after = outside (R.left source.new) (W.held sink.new) (C.may_have_told clock.new) in
        Ran D.drive disk result before after ⊎ Stopped D.drive disk result before after }

    // Why it ended so.
    ensures words { (result.status ≡ Status.Words) ↔ (is_run words.now ≡ false) }
    ensures untouched { result.status ≡ Status.Words → result.disk ≡ disk }
    ensures read_fault { result.status ≡ Status.ReadFault → Rose (R.read_faults source.old) (R.read_faults source.new) }
    ensures write_fault { result.status ≡ Status.WriteFault → Rose (W.write_faults sink.old) (W.write_faults sink.new) }
    ensures disk_fault { result.status ≡ Status.DiskFault → Rose (D.drive disk).faults (D.drive result.disk).faults }
    ensures damage { Honestly (D.drive disk) (IsDamaged result.status (D.drive disk).bytes) }
    ensures input_limit { result.status ≡ Status.InputLimit → IfTold (R.left source.old) (R.left source.new)
        (λ input left. length input ≡ MAX_INPUT + length left) }
    ensures below_limit { result.status ≡ Status.ReadFault → IfTold (R.left source.old) (R.left source.new)
        (λ input left. length input < MAX_INPUT + length left) }

    // Over a journal of legal acts, and an outside that doesn't fail, nothing else than these ends it.
    ensures complete { (history : List Act) → Honestly (D.drive disk) (Holds (D.drive disk).bytes history → IsLegal standard history → is_run words.now ≡ true
        → (Rose (R.read_faults source.old) (R.read_faults source.new) → ⊥) → (Rose (W.write_faults sink.old) (W.write_faults sink.new) → ⊥)
        → (Rose (D.drive disk).faults (D.drive result.disk).faults → ⊥) → IsServed result.status) }
{
    if !is_run(words) {
        return unopened(Status::Words, disk);
    }
    let desk = match Desk::new(alloc) {
        Ok(desk) => desk,
        Err(NoMemory) => return unopened(Status::Memory, disk),
    };
    match recover(alloc, Limits::standard(), disk) {
        Ok(opened) => {
            let acts = opened.exchange.history().len() as u64;
            match House::new(alloc, opened.exchange) {
                Ok(house) => serve(alloc, desk, house, opened.journal, source, sink, clock),
                Err(NoMemory) => Ended {
                    status: Status::Memory,
                    lines: 0,
                    acts,
                    disk: opened.journal.give_up(),
                },
            }
        }
        Err(failed) => stop(failed, desk.text, sink),
    }
}

/// Whether the words are the one word `run`.
fn is_run(words: &[String]) -> bool
    ensures { result ≡ is_run words.now }
{
    match words {
        [word] => word.as_str() == "run",
        _ => false,
    }
}

/// The end of a run that opened no journal.
fn unopened<D>(status: Status, disk: D) -> Ended<D>
    ensures { result ≡ record { status = status; lines = 0; acts = 0; disk = disk } }
{
    Ended {
        status,
        lines: 0,
        acts: 0,
        disk,
    }
}

/// Ends a run whose journal could not be opened, with the line that tells why.
fn stop<W: Sink, D>(failed: OpenFailed<D>, mut text: Text, sink: &mut W) -> Ended<D>
    ensures says { (honest : Bool) (bytes : List ℕ) → (honest ≡ true → Stops standard bytes failed.why)
        → Says result.status honest bytes (W.held sink.old) (W.held sink.new) }
    ensures disk { result.disk ≡ failed.disk }
    ensures lines { (result.lines ≡ 0) × (result.acts ≡ 0) }
    ensures status { (result.status ≡ status_of failed.why) ⊎ ((result.status ≡ Status.WriteFault) × Rose (W.write_faults sink.old) (W.write_faults sink.new)) }
{
    let status = failed.why.status();
    write_end(&status, &mut text);
    match write_all(sink, text.as_slice()) {
        Ok(()) => unopened(status, failed.disk),
        Err(WriteFault) => unopened(Status::WriteFault, failed.disk),
    }
}
