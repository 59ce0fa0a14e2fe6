//! Lines, bytes and numbers as a case spells them.

use crate::block::Repeat;
use crate::fault::{CaseFault, found, no_bytes};
use std::alloc::{AllocError, Global};

/// A line of a case: its number, from 1, its first word, and what stands behind that and one space.
#[derive(Clone, Copy, Debug)]
pub struct Line<'t> {
    pub number: usize,
    pub word: &'t str,
    pub rest: &'t str,
}

/// A text's first word, and what stands behind it and one space.
pub fn first_word(text: &str) -> (&str, &str) {
    match text.split_once(' ') {
        Some(parts) => parts,
        None => (text, ""),
    }
}

/// A whole number.
pub fn number(alloc: Global, line: usize, text: &str) -> Result<u64, CaseFault> {
    match text.trim().parse::<u64>() {
        Ok(value) => Ok(value),
        Err(_) => Err(found(alloc, line, "a whole number", text)),
    }
}

/// A number, as `3`, or all from one to another, as `1..44`.
pub fn range(alloc: Global, line: usize, text: &str) -> Result<(u64, u64), CaseFault> {
    match text.split_once("..") {
        Some((first, last)) => Ok((number(alloc, line, first)?, number(alloc, line, last)?)),
        None => {
            let only = number(alloc, line, text)?;
            Ok((only, only))
        }
    }
}

/// The bytes of pairs of hexadecimal digits, with spaces between pairs where one likes them.
pub fn hex_bytes(alloc: Global, line: usize, text: &str) -> Result<Vec<u8>, CaseFault> {
    let mut bytes = Vec::new(alloc);
    for digits in text.split_whitespace() {
        match hex::decode(alloc, digits) {
            Ok(part) => bytes.extend_from_slice(part.as_slice())?,
            Err(error) => return Err(no_bytes(alloc, line, digits, &error)),
        }
    }
    Ok(bytes)
}

/// The bytes that `text TEXT`, `hex DIGITS` or `spaces NUMBER` stands for.
pub fn bytes(alloc: Global, line: usize, text: &str) -> Result<Vec<u8>, CaseFault> {
    let (form, rest) = first_word(text);
    match form {
        "text" => Ok(Vec::from_slice(alloc, rest.as_bytes())?),
        "hex" => hex_bytes(alloc, line, rest),
        "spaces" => {
            let mut spaces = Vec::new(alloc);
            let count = number(alloc, line, rest)?;
            spaces.resize(count as usize, b' ')?;
            Ok(spaces)
        }
        _ => Err(found(alloc, line, "text, hex or spaces", form)),
    }
}

/// A text as the turn of this number of a repeated line has it.
pub fn turned(alloc: Global, text: &str, repeat: Repeat, turn: u64) -> Result<String, AllocError> {
    if repeat.counts {
        let number = format!(in alloc; "{turn}")?;
        text.replace(alloc, "@", number.as_str())
    } else {
        String::from_str(alloc, text)
    }
}

/// Puts bytes behind others, so many times.
pub fn put(into: &mut Vec<u8>, bytes: &[u8], times: u64) -> Result<(), AllocError> {
    for _ in 0..times {
        into.extend_from_slice(bytes)?;
    }
    Ok(())
}
