//! What a case says without a run: the fault that a line has, and the bytes that an act has.

use crate::block::{Outside, Piece};
use crate::comparing::compare_bytes;
use crate::fault::{CaseFault, found};
use crate::spelling::{Line, first_word, hex_bytes, number};
use act_bytes::{MAX_ACT, read_act, write_act};
use command_words::{Act, LineFault};
use std::alloc::{AllocError, Global};
use wire_json::read_line;

/// Compares the fault that is wanted of a line, or 0 for none, with the one that reading it gives.
pub fn check_fault(alloc: Global, line: Line<'_>) -> Result<(), CaseFault> {
    let (wanted, text) = first_word(line.rest);
    let wanted = number(alloc, line.number, wanted)?;
    let got = fault_in(alloc, text)?;
    if wanted == got {
        return Ok(());
    }
    let wanted = shown_fault(alloc, wanted)?;
    let got = shown_fault(alloc, got)?;
    Err(found(alloc, line.number, wanted.as_str(), got.as_str()))
}

/// The number of the fault that a line has, or 0 where it is a request.
fn fault_in(alloc: Global, text: &str) -> Result<u64, CaseFault> {
    match read_line(alloc, text.as_bytes()) {
        Ok(_) => Ok(0),
        Err(LineFault::Memory) => Err(CaseFault::Memory),
        Err(fault) => Ok(u64::from(fault.code())),
    }
}

/// A fault by its number, or word that there is none.
fn shown_fault(alloc: Global, number: u64) -> Result<String, AllocError> {
    match number {
        0 => String::from_str(alloc, "a request"),
        _ => format!(in alloc; "fault {number}"),
    }
}

/// The bytes that a moment and the line of a request are written in, as an act.
pub fn written(alloc: Global, line: Line<'_>) -> Result<Piece, CaseFault> {
    let (moment, text) = first_word(line.rest);
    let moment = number(alloc, line.number, moment)?;
    match read_line(alloc, text.as_bytes()) {
        Ok(request) => {
            let act = Act {
                moment,
                account: request.account,
                command: request.command,
            };
            let bytes = bytes_of(alloc, line.number, &act)?;
            Ok(Piece {
                line: line.number,
                bytes,
            })
        }
        Err(LineFault::Memory) => Err(CaseFault::Memory),
        Err(fault) => {
            let got = shown_fault(alloc, u64::from(fault.code()))?;
            Err(found(alloc, line.number, "a request", got.as_str()))
        }
    }
}

/// The bytes of an act. Not each request makes one.
fn bytes_of(alloc: Global, line: usize, act: &Act) -> Result<Vec<u8>, CaseFault> {
    if !act.command.may_be_act() {
        return Err(found(alloc, line, "a request that makes an act", "another"));
    }
    let mut piece = [0; MAX_ACT];
    let len = write_act(act, &mut piece);
    Ok(Vec::from_slice(alloc, &piece[..len])?)
}

/// Compares the bytes that are wanted of an act with those that it was written in, and with those of the act that is
/// read of them.
pub fn check_spelling(alloc: Global, line: Line<'_>, got: &[u8]) -> Result<(), CaseFault> {
    if line.word != "spells" {
        return Err(found(alloc, line.number, "spells", line.word));
    }
    let wanted = hex_bytes(alloc, line.number, line.rest)?;
    let calm = Outside::CALM;
    compare_bytes(alloc, &calm, line.number, &wanted, got)?;
    match read_act(alloc, got)? {
        Some(act) => {
            let again = bytes_of(alloc, line.number, &act)?;
            compare_bytes(alloc, &calm, line.number, &wanted, &again)
        }
        None => Err(found(alloc, line.number, "an act", "none")),
    }
}

/// Sees that bytes spell no act.
pub fn check_no_act(alloc: Global, line: Line<'_>) -> Result<(), CaseFault> {
    let (word, digits) = first_word(line.rest);
    if word != "act" {
        return Err(found(alloc, line.number, "no act", word));
    }
    let bytes = hex_bytes(alloc, line.number, digits)?;
    match read_act(alloc, bytes.as_slice())? {
        Some(_) => Err(found(alloc, line.number, "no act", "one")),
        None => Ok(()),
    }
}
