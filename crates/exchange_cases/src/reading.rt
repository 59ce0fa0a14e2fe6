//! The words of a case.

use crate::block::{Block, Failing, Left, Limited, Number, Piece, Repeat};
use crate::fault::{CaseFault, found};
use crate::spelling::{Line, bytes, first_word, hex_bytes, number, put, range, turned};
use settle_core::Limits;
use std::alloc::Global;

/// Takes a line of a case into its block.
pub fn read_line(alloc: Global, block: &mut Block, line: Line<'_>) -> Result<(), CaseFault> {
    let known = read_talk(alloc, block, line)?
        || read_outside(alloc, block, line)?
        || read_disk(alloc, block, line)?
        || read_wanted(alloc, block, line)?;
    if known {
        Ok(())
    } else {
        Err(found(alloc, line.number, "a word of a case", line.word))
    }
}

/// Takes a line that says what is read or written. Gives whether it is one.
fn read_talk(alloc: Global, block: &mut Block, line: Line<'_>) -> Result<bool, CaseFault> {
    match line.word {
        ">" => ask(alloc, block, line.rest)?,
        "<" => answer(alloc, block, line)?,
        "input" => {
            let part = bytes(alloc, line.number, line.rest)?;
            put(&mut block.input, part.as_slice(), block.repeat.times)?;
            block.repeat = Repeat::ONCE;
        }
        "end" => want_line(alloc, block, line.number, line.rest)?,
        "part" => {
            let bytes = Vec::from_slice(alloc, line.rest.as_bytes())?;
            let piece = Piece {
                line: line.number,
                bytes,
            };
            block.wanted.output.push(piece)?;
        }
        "times" => block.repeat = repeat_of(alloc, line, false)?,
        "count" => block.repeat = repeat_of(alloc, line, true)?,
        _ => return Ok(false),
    }
    Ok(true)
}

/// How often the next line counts.
fn repeat_of(alloc: Global, line: Line<'_>, counts: bool) -> Result<Repeat, CaseFault> {
    let times = number(alloc, line.number, line.rest)?;
    Ok(Repeat { times, counts })
}

/// A line of the input.
fn ask(alloc: Global, block: &mut Block, text: &str) -> Result<(), CaseFault> {
    for turn in 0..block.repeat.times {
        let asked = turned(alloc, text, block.repeat, turn)?;
        block.input.extend_from_slice(asked.as_str().as_bytes())?;
        block.input.push(b'\n')?;
    }
    block.repeat = Repeat::ONCE;
    Ok(())
}

/// A reply that has to be written whole.
fn answer(alloc: Global, block: &mut Block, line: Line<'_>) -> Result<(), CaseFault> {
    for turn in 0..block.repeat.times {
        let answered = turned(alloc, line.rest, block.repeat, turn)?;
        want_line(alloc, block, line.number, answered.as_str())?;
        block.wanted.replies = block.wanted.replies.saturating_add(1);
    }
    block.repeat = Repeat::ONCE;
    Ok(())
}

/// A text that has to be written, and a newline.
fn want_line(alloc: Global, block: &mut Block, line: usize, text: &str) -> Result<(), CaseFault> {
    let mut bytes = Vec::from_slice(alloc, text.as_bytes())?;
    bytes.push(b'\n')?;
    block.wanted.output.push(Piece { line, bytes })?;
    Ok(())
}

/// Takes a line on the words, the clock, the source, the sink, what fails or the limits. Gives whether it is one.
fn read_outside(alloc: Global, block: &mut Block, line: Line<'_>) -> Result<bool, CaseFault> {
    match line.word {
        "words" => {
            block.words = Vec::new(alloc);
            for word in line.rest.split_whitespace() {
                block.words.push(String::from_str(alloc, word)?)?;
            }
        }
        "clock" => block.moment = number(alloc, line.number, line.rest)?,
        "reads" => read_sizes(alloc, &mut block.reads, line)?,
        "writes" => read_sizes(alloc, &mut block.writes, line)?,
        "fails" => read_failing(alloc, block, line)?,
        "limits" => block.limited = Some(read_limits(alloc, line)?),
        _ => return Ok(false),
    }
    Ok(true)
}

/// Sizes of pieces, each at least 1.
fn read_sizes(alloc: Global, sizes: &mut Vec<usize>, line: Line<'_>) -> Result<(), CaseFault> {
    for word in line.rest.split_whitespace() {
        let size = number(alloc, line.number, word)?;
        if size == 0 {
            return Err(found(alloc, line.number, "a size of at least 1", word));
        }
        sizes.push(size as usize)?;
    }
    Ok(())
}

/// The calls of an object that fail, each in a run of its own.
fn read_failing(alloc: Global, block: &mut Block, line: Line<'_>) -> Result<(), CaseFault> {
    let (object, calls) = first_word(line.rest);
    let (first, last) = range(alloc, line.number, calls)?;
    for number in first..last.saturating_add(1) {
        match failing(object, number) {
            Some(failing) => block.failing.push(failing)?,
            None => return Err(found(alloc, line.number, "read, write or disk", object)),
        }
    }
    Ok(())
}

/// The call of this number of an object.
fn failing(object: &str, number: u64) -> Option<Failing> {
    let mut failing = Failing::NONE;
    match object {
        "read" => failing.read = Some(number),
        "write" => failing.write = Some(number),
        "disk" => failing.disk = Some(number),
        _ => return None,
    }
    Some(failing)
}

/// Limits of its own: how many conditions, events, open orders of a market, balances and acts there may be.
fn read_limits(alloc: Global, line: Line<'_>) -> Result<Limited, CaseFault> {
    let mut numbers = Vec::new(alloc);
    for word in line.rest.split_whitespace() {
        numbers.push(number(alloc, line.number, word)?)?;
    }
    match limits(&numbers) {
        Some(limits) => Ok(Limited {
            line: line.number,
            limits,
        }),
        None => Err(found(
            alloc,
            line.number,
            "five limits, each from 1 to the program's",
            line.rest,
        )),
    }
}

/// The limits that these five numbers are.
fn limits(numbers: &[u64]) -> Option<Limits> {
    match numbers {
        [conditions, events, orders, balances, acts] => Limits::small(
            u16::try_from(*conditions).ok()?,
            u16::try_from(*events).ok()?,
            u32::try_from(*orders).ok()?,
            u32::try_from(*balances).ok()?,
            u32::try_from(*acts).ok()?,
        ),
        _ => None,
    }
}

/// Takes a line on what the disk has at the beginning. Gives whether it is one.
fn read_disk(alloc: Global, block: &mut Block, line: Line<'_>) -> Result<bool, CaseFault> {
    match line.word {
        "disk" => {
            let part = bytes(alloc, line.number, line.rest)?;
            put(&mut block.disk, part.as_slice(), block.repeat.times)?;
            block.repeat = Repeat::ONCE;
        }
        "byte" => set_byte(alloc, &mut block.disk, line)?,
        "front" => {
            let len = number(alloc, line.number, line.rest)?;
            block.disk.truncate(len as usize);
        }
        _ => return Ok(false),
    }
    Ok(true)
}

/// A place of the disk, and the byte that stands there.
fn set_byte(alloc: Global, disk: &mut Vec<u8>, line: Line<'_>) -> Result<(), CaseFault> {
    let (place, digits) = first_word(line.rest);
    let place = number(alloc, line.number, place)?;
    let byte = hex_bytes(alloc, line.number, digits)?;
    match (disk.get_mut(place as usize), byte.as_slice()) {
        (Some(there), [only]) => {
            *there = *only;
            Ok(())
        }
        _ => Err(found(
            alloc,
            line.number,
            "a place of the disk and a byte",
            line.rest,
        )),
    }
}

/// Takes a line on what has to come out beside what is written. Gives whether it is one.
fn read_wanted(alloc: Global, block: &mut Block, line: Line<'_>) -> Result<bool, CaseFault> {
    let wanted = &mut block.wanted;
    match line.word {
        "status" => wanted.status = number_of(alloc, line)?,
        "lines" => wanted.lines = Some(number_of(alloc, line)?),
        "acts" => wanted.acts = Some(number_of(alloc, line)?),
        "calls" => wanted.calls = Some(number_of(alloc, line)?),
        "images" => wanted.images = Some(number_of(alloc, line)?),
        "left" => read_left(alloc, block, line)?,
        _ => return Ok(false),
    }
    Ok(true)
}

/// A number that has to come out.
fn number_of(alloc: Global, line: Line<'_>) -> Result<Number, CaseFault> {
    Ok(Number {
        line: line.number,
        value: number(alloc, line.number, line.rest)?,
    })
}

/// What the disk has to have at the end.
fn read_left(alloc: Global, block: &mut Block, line: Line<'_>) -> Result<(), CaseFault> {
    if line.rest == "unchanged" {
        block.wanted.left = Some(Left::Unchanged { line: line.number });
        return Ok(());
    }
    let part = bytes(alloc, line.number, line.rest)?;
    let mut left = match block.wanted.left.take() {
        Some(Left::Bytes(before)) => before,
        _ => Piece {
            line: line.number,
            bytes: Vec::new(alloc),
        },
    };
    put(&mut left.bytes, part.as_slice(), block.repeat.times)?;
    block.repeat = Repeat::ONCE;
    block.wanted.left = Some(Left::Bytes(left));
    Ok(())
}
