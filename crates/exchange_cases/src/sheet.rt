//! A case, line for line.

use crate::block::{Block, Piece};
use crate::checking::{check_fault, check_no_act, check_spelling, written};
use crate::fault::{CaseFault, found};
use crate::reading::read_line;
use crate::running::run_block;
use crate::spelling::{Line, first_word};
use std::alloc::Global;

/// A case that is being read: its present block, and what earlier ones left.
#[derive(Drop)]
struct Sheet {
    alloc: Global,
    block: Block,
    /// Whether there is a line of a block; a case may have none.
    begun: bool,
    /// The bytes of the act of the last line, where that was one.
    act: Option<Piece>,
    /// What the last run left on its disk.
    left: Vec<u8>,
    /// What the last run left that was to be kept.
    kept: Vec<u8>,
    runs: u64,
}

/// Runs each block of a case, up to the first thing that isn't as it should be. Gives the number of runs.
pub fn check_case(alloc: Global, text: &str) -> Result<u64, CaseFault> {
    let mut sheet = Sheet {
        alloc,
        block: Block::new(alloc, 1, Vec::new(alloc))?,
        begun: false,
        act: None,
        left: Vec::new(alloc),
        kept: Vec::new(alloc),
        runs: 0,
    };
    for (index, line) in text.lines().enumerate() {
        sheet.take(index.saturating_add(1), line)?;
    }
    sheet.finish()?;
    Ok(sheet.runs)
}

impl Sheet {
    /// Takes one line.
    fn take(&mut self, number: usize, text: &str) -> Result<(), CaseFault> {
        if text.is_empty() || text.starts_with('#') {
            return Ok(());
        }
        let (word, rest) = first_word(text);
        let line = Line { number, word, rest };
        if self.check(line)? {
            return Ok(());
        }
        self.begun = true;
        self.take_in(line)
    }

    /// Takes a line that needs no run, and checks what it says. Gives whether it is one.
    fn check(&mut self, line: Line<'_>) -> Result<bool, CaseFault> {
        let alloc = self.alloc;
        if let Some(act) = self.act.take() {
            check_spelling(alloc, line, act.bytes.as_slice())?;
            self.runs = self.runs.saturating_add(1);
            return Ok(true);
        }
        match line.word {
            "act" => {
                self.act = Some(written(alloc, line)?);
                return Ok(true);
            }
            "fault" => check_fault(alloc, line)?,
            "no" => check_no_act(alloc, line)?,
            _ => return Ok(false),
        }
        self.runs = self.runs.saturating_add(1);
        Ok(true)
    }

    /// Takes a line of a block, or one that ends it.
    fn take_in(&mut self, line: Line<'_>) -> Result<(), CaseFault> {
        let alloc = self.alloc;
        match (line.word, line.rest) {
            ("next", "") => {
                self.finish()?;
                self.block = Block::new(alloc, line.number, Vec::new(alloc))?;
            }
            ("again", "") => {
                self.finish()?;
                let left = Vec::from_slice(alloc, &self.left)?;
                self.block = Block::new(alloc, line.number, left)?;
            }
            ("keep", "") => self.block.keeps = true,
            ("disk", "kept") => self.block.disk.extend_from_slice(&self.kept)?,
            _ => read_line(alloc, &mut self.block, line)?,
        }
        Ok(())
    }

    /// Runs the present block, if a line has begun one.
    fn finish(&mut self) -> Result<(), CaseFault> {
        if let Some(act) = &self.act {
            return Err(found(self.alloc, act.line, "spells behind it", "the end"));
        }
        if !self.begun {
            return Ok(());
        }
        self.left = run_block(self.alloc, &self.block, &mut self.runs)?;
        if self.block.keeps {
            self.kept = Vec::from_slice(self.alloc, &self.left)?;
        }
        Ok(())
    }
}
