//! Running a block of a case.

use crate::block::{Block, Failing, Outside, PIECE};
use crate::comparing::compare;
use crate::fault::CaseFault;
use crate::within::run_within;
use command_words::ListClock;
use exchange_top::{Ended, recover, run};
use journal_disk::MemoryDisk;
use line_link::{MemorySink, MemorySource};
use outside_faults::FailingCalls;
use settle_core::Limits;
use std::alloc::{AllocError, Global};

/// Runs a block within its limits, or in each of its outsides, and compares what each run comes to. Gives what the last
/// left on its disk, and counts the runs.
pub fn run_block(alloc: Global, block: &Block, runs: &mut u64) -> Result<Vec<u8>, CaseFault> {
    if let Some(limited) = block.limited {
        *runs = runs.saturating_add(1);
        run_within(alloc, block, limited)?;
        return Ok(Vec::new(alloc));
    }
    let calm = [PIECE];
    let reads = if block.reads.is_empty() {
        calm.as_slice()
    } else {
        block.reads.as_slice()
    };
    let mut left = Vec::new(alloc);
    for read in reads {
        left = run_reading(alloc, block, *read, runs)?;
    }
    Ok(left)
}

/// Runs a block with a source that gives so many bytes at once.
fn run_reading(
    alloc: Global,
    block: &Block,
    read: usize,
    runs: &mut u64,
) -> Result<Vec<u8>, CaseFault> {
    let calm = [PIECE];
    let writes = if block.writes.is_empty() {
        calm.as_slice()
    } else {
        block.writes.as_slice()
    };
    let mut left = Vec::new(alloc);
    for write in writes {
        left = run_writing(alloc, block, read, *write, runs)?;
    }
    Ok(left)
}

/// Runs a block with a source and a sink of these sizes, once with each call failing that is to fail.
fn run_writing(
    alloc: Global,
    block: &Block,
    read: usize,
    write: usize,
    runs: &mut u64,
) -> Result<Vec<u8>, CaseFault> {
    let mut outside = Outside {
        read,
        write,
        failing: Failing::NONE,
    };
    if block.failing.is_empty() {
        return run_once(alloc, block, &outside, runs);
    }
    let mut left = Vec::new(alloc);
    for call in &block.failing {
        outside.failing = *call;
        left = run_once(alloc, block, &outside, runs)?;
    }
    Ok(left)
}

/// Runs a block in one outside.
fn run_once(
    alloc: Global,
    block: &Block,
    outside: &Outside,
    runs: &mut u64,
) -> Result<Vec<u8>, CaseFault> {
    *runs = runs.saturating_add(1);
    let failing = calls(alloc, outside.failing.read)?;
    let input = Vec::from_slice(alloc, &block.input)?;
    let mut source = MemorySource::new(input, outside.read.max(1), failing);
    let failing = calls(alloc, outside.failing.write)?;
    let mut sink = MemorySink::new(alloc, outside.write.max(1), failing);
    let failing = calls(alloc, outside.failing.disk)?;
    let disk = MemoryDisk::new(alloc, Vec::from_slice(alloc, &block.disk)?, failing)?;
    let mut clock = ListClock::new(block.moment);
    let ended = run(
        alloc,
        &block.words,
        &mut source,
        &mut sink,
        disk,
        &mut clock,
    );
    compare(alloc, block, outside, &ended, sink.as_slice())?;
    Ok(Vec::from_slice(alloc, ended.disk.as_slice())?)
}

/// The calls of an object that fail: this one, or none.
fn calls(alloc: Global, failing: Option<u64>) -> Result<FailingCalls, AllocError> {
    let mut numbers = Vec::new(alloc);
    if let Some(number) = failing {
        numbers.push(number)?;
    }
    Ok(FailingCalls::new(numbers))
}

/// How many acts the journal of these bytes has, or none where it doesn't open.
pub fn acts_in(alloc: Global, bytes: &[u8]) -> Result<Option<u64>, CaseFault> {
    let failing = FailingCalls::new(Vec::new(alloc));
    let disk = MemoryDisk::new(alloc, Vec::from_slice(alloc, bytes)?, failing)?;
    match recover(alloc, Limits::standard(), disk) {
        Ok(opened) => Ok(Some(opened.exchange.history().len() as u64)),
        Err(_) => Ok(None),
    }
}
