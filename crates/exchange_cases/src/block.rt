//! A run of a case: the outside that it is given, and what it has to come to.

use crate::fault::CaseFault;
use settle_core::Limits;
use std::alloc::Global;
use std::fmt;

/// How many bytes are read or written at once where the case says nothing.
pub const PIECE: usize = 4_096;

/// The calls that fail, one of each object at the most; an object's first call has number 1.
#[derive(Clone, Copy, Debug)]
pub struct Failing {
    pub read: Option<u64>,
    pub write: Option<u64>,
    pub disk: Option<u64>,
}

impl Failing {
    /// No call fails.
    pub const NONE: Failing = Failing {
        read: None,
        write: None,
        disk: None,
    };
}

/// One outside in which a block is run.
#[derive(Clone, Copy, Debug)]
pub struct Outside {
    /// How many bytes the source gives at once.
    pub read: usize,
    /// How many bytes the sink takes at once.
    pub write: usize,
    pub failing: Failing,
}

impl Outside {
    /// In usual pieces, and without a failing call.
    pub const CALM: Outside = Outside {
        read: PIECE,
        write: PIECE,
        failing: Failing::NONE,
    };
}

impl fmt::Display for Outside {
    fn fmt<W: fmt::Write>(&self, f: &mut fmt::Formatter<W>) -> fmt::Result {
        if self.read != PIECE {
            write!(f, ", reading {}", self.read)?;
        }
        if self.write != PIECE {
            write!(f, ", writing {}", self.write)?;
        }
        if let Some(number) = self.failing.read {
            write!(f, ", failing read {number}")?;
        }
        if let Some(number) = self.failing.write {
            write!(f, ", failing write {number}")?;
        }
        if let Some(number) = self.failing.disk {
            write!(f, ", failing disk {number}")?;
        }
        Ok(())
    }
}

/// Bytes that have to be written, and the line of the case that wants them.
#[derive(Debug, Drop)]
pub struct Piece {
    pub line: usize,
    pub bytes: Vec<u8>,
}

/// A number that has to come out, and the line of the case that wants it.
#[derive(Clone, Copy, Debug)]
pub struct Number {
    pub line: usize,
    pub value: u64,
}

/// Limits of a block's own, and the line of the case that says them.
#[derive(Clone, Copy, Debug)]
pub struct Limited {
    pub line: usize,
    pub limits: Limits,
}

/// What the disk has to have at the end.
#[derive(Debug, Drop)]
pub enum Left {
    /// What it had at the beginning.
    Unchanged { line: usize },
    /// These bytes.
    Bytes(Piece),
}

/// What a run has to come to. What isn't said isn't compared.
#[derive(Debug, Drop)]
pub struct Wanted {
    /// All that is written, in its order.
    pub output: Vec<Piece>,
    /// How many of these pieces are replies that are written whole.
    pub replies: u64,
    pub status: Number,
    pub lines: Option<Number>,
    pub acts: Option<Number>,
    pub calls: Option<Number>,
    pub left: Option<Left>,
    pub images: Option<Number>,
}

/// How often the next line of the case counts.
#[derive(Clone, Copy, Debug)]
pub struct Repeat {
    pub times: u64,
    /// Whether each `@` in it stands for the number of the turn, from 0.
    pub counts: bool,
}

impl Repeat {
    /// Once, as it stands.
    pub const ONCE: Repeat = Repeat {
        times: 1,
        counts: false,
    };
}

/// A block of a case: what stands between two lines `next` or `again`.
#[derive(Debug, Drop)]
pub struct Block {
    /// The line of the case at which it begins.
    pub line: usize,
    pub words: Vec<String>,
    /// What the clock tells first.
    pub moment: u64,
    pub disk: Vec<u8>,
    pub input: Vec<u8>,
    /// It is run in pieces of each of these sizes, or of [`PIECE`].
    pub reads: Vec<usize>,
    pub writes: Vec<usize>,
    /// It is run with each of these failing, or with none.
    pub failing: Vec<Failing>,
    pub repeat: Repeat,
    /// Whether what it leaves is kept for later blocks.
    pub keeps: bool,
    /// The limits within which a house answers its lines, in place of a run.
    pub limited: Option<Limited>,
    pub wanted: Wanted,
}

impl Block {
    /// A run of the empty input over this disk, with the word `run`, that has to end well and write nothing.
    pub fn new(alloc: Global, line: usize, disk: Vec<u8>) -> Result<Block, CaseFault> {
        let mut words = Vec::new(alloc);
        words.push(String::from_str(alloc, "run")?)?;
        let wanted = Wanted {
            output: Vec::new(alloc),
            replies: 0,
            status: Number { line, value: 0 },
            lines: None,
            acts: None,
            calls: None,
            left: None,
            images: None,
        };
        Ok(Block {
            line,
            words,
            moment: 7,
            disk,
            input: Vec::new(alloc),
            reads: Vec::new(alloc),
            writes: Vec::new(alloc),
            failing: Vec::new(alloc),
            repeat: Repeat::ONCE,
            keeps: false,
            limited: None,
            wanted,
        })
    }
}
