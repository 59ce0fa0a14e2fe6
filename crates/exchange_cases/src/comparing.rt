//! What a run came to, beside what it had to come to.

use crate::block::{Block, Left, Number, Outside, Piece};
use crate::fault::{CaseFault, found};
use crate::running::acts_in;
use exchange_top::Ended;
use journal_disk::MemoryDisk;
use std::alloc::{AllocError, Global};

/// Compares all that a case says of a run.
pub fn compare(
    alloc: Global,
    block: &Block,
    outside: &Outside,
    ended: &Ended<MemoryDisk>,
    output: &[u8],
) -> Result<(), CaseFault> {
    let wanted = &block.wanted;
    compare_output(alloc, block, outside, output)?;
    let status = u64::from(ended.status.number());
    compare_number(alloc, outside, "status", Some(wanted.status), status)?;
    let replies = Number {
        line: block.line,
        value: wanted.replies,
    };
    let lines = wanted.lines.unwrap_or(replies);
    compare_number(alloc, outside, "lines", Some(lines), ended.lines)?;
    compare_number(alloc, outside, "acts", wanted.acts, ended.acts)?;
    let calls = ended.disk.calls().len() as u64;
    compare_number(alloc, outside, "calls", wanted.calls, calls)?;
    compare_left(alloc, block, outside, ended.disk.as_slice())?;
    match wanted.images {
        Some(more) => compare_images(alloc, block, outside, more, ended, output),
        None => Ok(()),
    }
}

/// Compares all that a case says of answers within limits of its own.
pub fn compare_answers(
    alloc: Global,
    block: &Block,
    output: &[u8],
    acts: u64,
) -> Result<(), CaseFault> {
    let outside = Outside::CALM;
    compare_output(alloc, block, &outside, output)?;
    compare_number(alloc, &outside, "acts", block.wanted.acts, acts)
}

/// A difference between what a line of the case wants and what a run came to.
fn differs(alloc: Global, outside: &Outside, line: usize, wanted: &str, got: &str) -> CaseFault {
    match format!(in alloc; "{got}{outside}") {
        Ok(got) => found(alloc, line, wanted, got.as_str()),
        Err(_) => CaseFault::Memory,
    }
}

/// Compares a number, where one is wanted.
fn compare_number(
    alloc: Global,
    outside: &Outside,
    name: &str,
    wanted: Option<Number>,
    got: u64,
) -> Result<(), CaseFault> {
    match wanted {
        Some(wanted) if wanted.value != got => {
            let value = wanted.value;
            let this = format!(in alloc; "{name} {value}")?;
            let that = format!(in alloc; "{got}")?;
            Err(differs(alloc, outside, wanted.line, this.as_str(), that.as_str()))
        }
        _ => Ok(()),
    }
}

/// Compares what was written, piece for piece.
fn compare_output(
    alloc: Global,
    block: &Block,
    outside: &Outside,
    output: &[u8],
) -> Result<(), CaseFault> {
    let mut rest = output;
    for piece in &block.wanted.output {
        match rest.strip_prefix(&piece.bytes) {
            Some(behind) => rest = behind,
            None => {
                let wanted = first_line(alloc, &piece.bytes)?;
                let got = first_line(alloc, rest)?;
                return Err(differs(alloc, outside, piece.line, wanted.as_str(), got.as_str()));
            }
        }
    }
    if rest.is_empty() {
        return Ok(());
    }
    let got = first_line(alloc, rest)?;
    Err(differs(alloc, outside, block.line, "nothing more", got.as_str()))
}

/// The first line of what was written, or word that there is none.
fn first_line(alloc: Global, bytes: &[u8]) -> Result<String, AllocError> {
    let text = String::from_utf8_lossy(alloc, bytes)?;
    match text.as_str().lines().next() {
        Some(line) => String::from_str(alloc, line),
        None => String::from_str(alloc, "nothing"),
    }
}

/// Compares what the disk has at the end.
fn compare_left(
    alloc: Global,
    block: &Block,
    outside: &Outside,
    got: &[u8],
) -> Result<(), CaseFault> {
    match &block.wanted.left {
        Some(Left::Bytes(Piece { line, bytes })) => {
            compare_bytes(alloc, outside, *line, bytes, got)
        }
        Some(Left::Unchanged { line }) => compare_bytes(alloc, outside, *line, &block.disk, got),
        None => Ok(()),
    }
}

/// Compares bytes, and names the first place at which they differ.
pub fn compare_bytes(
    alloc: Global,
    outside: &Outside,
    line: usize,
    wanted: &[u8],
    got: &[u8],
) -> Result<(), CaseFault> {
    let same = wanted
        .iter()
        .zip(got)
        .take_while(|pair| pair.0 == pair.1)
        .count();
    match (wanted.get(same), got.get(same)) {
        (None, None) => Ok(()),
        (this, that) => {
            let this = byte_at(alloc, same, this)?;
            let that = byte_at(alloc, same, that)?;
            Err(differs(alloc, outside, line, this.as_str(), that.as_str()))
        }
    }
}

/// A byte at a place, or the end.
fn byte_at(alloc: Global, place: usize, byte: Option<&u8>) -> Result<String, AllocError> {
    match byte {
        Some(byte) => format!(in alloc; "byte {byte:02x} at {place}"),
        None => format!(in alloc; "the end at {place}"),
    }
}

/// Compares each image that the disk lists: it has all acts that were answered, and at most so many more.
fn compare_images(
    alloc: Global,
    block: &Block,
    outside: &Outside,
    more: Number,
    ended: &Ended<MemoryDisk>,
    output: &[u8],
) -> Result<(), CaseFault> {
    let before = acts_in(alloc, &block.disk)?.unwrap_or(0);
    let least = before.max(rested(alloc, output, ended.lines)?);
    let most = least.saturating_add(more.value);
    for image in ended.disk.images()? {
        match acts_in(alloc, image.as_slice())? {
            Some(acts) if least <= acts && acts <= most => {}
            acts => {
                let wanted = format!(in alloc; "images of {least} to {most} acts")?;
                let got = shown_acts(alloc, acts)?;
                return Err(differs(alloc, outside, more.line, wanted.as_str(), got.as_str()));
            }
        }
    }
    Ok(())
}

/// How many acts an image has.
fn shown_acts(alloc: Global, acts: Option<u64>) -> Result<String, AllocError> {
    match acts {
        Some(acts) => format!(in alloc; "one of {acts}"),
        None => String::from_str(alloc, "one that doesn't open"),
    }
}

/// How many acts the replies rest on that were written whole.
fn rested(alloc: Global, output: &[u8], lines: u64) -> Result<u64, AllocError> {
    let text = String::from_utf8_lossy(alloc, output)?;
    let mut most = 0u64;
    for reply in text.as_str().lines().take(lines as usize) {
        let made = member(reply, "\"acts\":").unwrap_or(1);
        let acts = member(reply, "\"lsn\":").map_or(0, |lsn| lsn.saturating_add(made));
        most = most.max(acts).max(member(reply, "\"rests\":").unwrap_or(0));
    }
    Ok(most)
}

/// The number of a member of a reply.
fn member(reply: &str, name: &str) -> Option<u64> {
    let (_, behind) = reply.split_once(name)?;
    let digits = match behind.split_once(|c: char| !c.is_ascii_digit()) {
        Some((digits, _)) => digits,
        None => behind,
    };
    digits.parse::<u64>().ok()
}
