//! Running a block within limits of its own: a house answers its lines, and nothing is stored.

ghost use Rattle.command_words.specs.Reply.{IsSound};

use crate::block::{Block, Limited};
use crate::comparing::compare_answers;
use crate::fault::{CaseFault, found};
use command_words::{Clock, ListClock, Reply};
use ledger_lock::House;
use settle_core::Exchange;
use std::alloc::Global;
use wire_json::{Text, read_line, write_reply};

/// Answers the lines of a block by a house within these limits, and compares what they are answered.
pub fn run_within(alloc: Global, block: &Block, limited: Limited) -> Result<(), CaseFault> {
    if says_more(block) {
        let known = "lines, replies, a clock and acts alone";
        return Err(found(alloc, limited.line, known, "more"));
    }
    let mut house = House::new(alloc, Exchange::new(alloc, limited.limits)?)?;
    let mut clock = ListClock::new(block.moment);
    let mut text = Text::new(alloc)?;
    let mut output = Vec::new(alloc);
    let input = String::from_utf8_lossy(alloc, &block.input)?;
    for line in input.as_str().lines() {
        let reply = answered(alloc, &mut house, line, clock.now());
        write_reply(&reply, &mut text);
        output.extend_from_slice(text.as_slice())?;
    }
    let acts = house.exchange().history().len() as u64;
    compare_answers(alloc, block, &output, acts)
}

/// What a house answers to a line at a moment.
fn answered(alloc: Global, house: &mut House, line: &str, now: u64) -> Reply
    ensures { IsSound result }
{
    match read_line(alloc, line.as_bytes()) {
        Ok(request) => house.answer(request.account, &request.command, now),
        Err(fault) => Reply::Bad { fault },
    }
}

/// Whether a block says something of words, of the outside but its clock, or of what a run alone comes to.
fn says_more(block: &Block) -> bool {
    let wanted = &block.wanted;
    block.keeps
        || other_words(block)
        || !block.disk.is_empty()
        || !block.reads.is_empty()
        || !block.writes.is_empty()
        || !block.failing.is_empty()
        || wanted.status.value != 0
        || wanted.lines.is_some()
        || wanted.calls.is_some()
        || wanted.left.is_some()
        || wanted.images.is_some()
}

/// Whether the words of a block are others than `run`.
fn other_words(block: &Block) -> bool {
    match block.words.as_slice() {
        [only] => only.as_str() != "run",
        _ => true,
    }
}
