ghost use Rattle.std.specs.Prelude.{◌≡◌, ◌≢◌, ℕ, ◌+◌, ◌<◌, ◌≤◌, false, [], ◌++◌, length, take, vec_len, vec_capacity, Ok, Err, IsTrue, IfOk, IfErr, OnOk, OnErr};
ghost use Rattle.std.specs.Io.KnownBytes.{Consumes, Keeps, IsAtEnd};
ghost use Rattle.outside_faults.specs.Faults.{HasCause, Rose};
ghost use Rattle.outside_faults.specs.Told.{IfTold};
ghost use Rattle.line_link.specs.Lines.{kept, newlines, IsFirstLine};
ghost use Rattle.line_link.specs.LineReader.{heard, lengthened, at_least, Takes, TakesNoLine, EndsLine, LengthensLine};
ghost use Rattle.line_link.specs.declared.line_reader.Line.TheVariants.{TooLong};
ghost use Rattle.line_link.specs.declared.line_reader.ReadEnd.TheVariants.{End, ReadFault, InputLimit};

use crate::source::Source;
use condition_sets::NoMemory;
use memchr::memchr;
use outside_faults::Failed;
use std::alloc::Global;
use std::marker::Model;

/// The longest line that is kept, in bytes, without its newline.
pub const MAX_LINE: usize = 65_536;

/// How many bytes are asked of the source at once.
const PIECE: usize = 65_536;

/// The byte that ends a line.
const NEWLINE: u8 = b'\n';

/// A line that was told.
#[derive(Clone, Copy, Debug, PartialEq, Eq)]
pub enum Line {
    /// Its bytes are the reader's text.
    Whole,
    /// It has more than [`MAX_LINE`] bytes. None of them is kept.
    TooLong,
}

/// Why no line was told.
#[derive(Clone, Copy, Debug, PartialEq, Eq)]
pub enum ReadEnd {
    /// Every line of the source was told.
    End,
    /// The source failed.
    ReadFault,
    /// As many bytes were taken as the reader takes at the most, and no line and no end were told.
    InputLimit,
}

/// Cuts the bytes of a source into lines. It takes its memory as it is made, keeps one line and one piece, and
/// copies each byte twice at the most. A line that had begun before an `Err` isn't told.
#[derive(Drop)]
pub struct LineReader {
    piece: Vec<u8>,
    start: usize,
    end: usize,
    line: Vec<u8>,
    taken: u64,
    limit: u64,
}

impl Model for LineReader {
    ghost use Rattle.std.specs.Prelude.{ℕ, ◌-◌, ◌≤◌, ◌≡◌, take, drop, vec_len, vec_capacity};
    ghost use Rattle.line_link.specs.LineReader.{LineReaderView};

    ghost Value = { LineReaderView };

    ghost view = { λ r. record {
      pending = take (r.end - r.start) (drop r.start r.piece.items);
      taken = r.taken;
      limit = r.limit;
      text = r.line.items;
    } };

    ghost use Rattle.line_link.specs.declared.line_reader.TheConstants.{MAX_LINE, PIECE};

    ghost invariant = { λ r. (r.start ≤ r.end) × (r.end ≤ PIECE) × (vec_len r.piece ≡ PIECE)
        × (vec_len r.line ≤ MAX_LINE) × (MAX_LINE ≤ vec_capacity r.line) × (r.taken ≤ r.limit) };
}

impl LineReader {
    ghost use Rattle.line_link.specs.LineReader.{untold};

    /// Nothing is taken yet. At most `limit` bytes will be.
    pub fn new(alloc: Global, limit: u64) -> Result<LineReader, NoMemory>
        ensures { IfOk result (λ r. r ≡ record { pending = []; taken = 0; limit = limit; text = [] }) }
    {
        let piece = vec![in alloc; 0; PIECE]?;
        let line = Vec::with_capacity(alloc, MAX_LINE)?;
        Ok(LineReader {
            piece,
            start: 0,
            end: 0,
            line,
            taken: 0,
            limit,
        })
    }

    /// The bytes of the line that was told last, without its newline; none for a line that was too long.
    pub fn text(&self) -> &[u8]
        ensures { result.now ≡ self.now.text }
    {
        self.line.as_slice()
    }

    /// Tells the next line. A last part without a newline is a line where it isn't empty. It takes no memory.
    pub fn next<S: Source>(&mut self, source: &mut S) -> Result<Line, ReadEnd>
        // The line is the first of what was pending and what was left, and the rest is now pending and left.
        ensures line { IfOk result (λ line. IfTold (S.left source.old) (S.left source.new) (λ before after.
            IsFirstLine (heard line self.new.text) (self.old.pending ++ before) (self.new.pending ++ after))) }
        ensures too_long { result ≡ Ok TooLong → self.new.text ≡ [] }
        ensures progress { OnOk result (untold self.new < untold self.old) }

        // Where no line is told, none was whole.
        ensures end { result ≡ Err End → IfTold (S.left source.old) (S.left source.new) (λ before after.
            (self.old.pending ++ before ≡ []) × (after ≡ [])) }
        ensures no_line { OnErr result (newlines self.old.pending ≡ 0) }
        ensures none_taken { OnErr result (IfTold (S.left source.old) (S.left source.new) (TakesNoLine self.old.pending)) }
        ensures read_fault { result ≡ Err ReadFault →
            Rose (S.read_faults source.old) (S.read_faults source.new) × (self.new.taken < self.new.limit) }
        ensures input_limit { result ≡ Err InputLimit → self.new.taken ≡ self.new.limit }
        ensures nothing_pending { OnErr result (self.new.pending ≡ []) }

        ensures taken { IfTold (S.left source.old) (S.left source.new) (Takes self.old.taken self.new.taken) }
        ensures limit { self.new.limit ≡ self.old.limit }
        ensures within { self.new.taken ≤ self.new.limit }
        ensures never_falls { S.read_faults source.old ≤ S.read_faults source.new }
        ensures kept { S.kept_by_read source.new ≡ S.kept_by_read source.old }
    {
        self.line.clear();
        let mut line = Line::Whole;
        while !self.take_part(&mut line) {
            if self.fill(source)? == 0 {
                return self.last(line);
            }
        }
        Ok(line)
    }

    // Takes what is pending of the line in progress, with its newline where one is pending. Tells whether it ended.
    fn take_part(&mut self, line: &mut Line) -> bool
        ensures ended { IsTrue result → EndsLine (heard line.old self.old.text) self.old.pending (heard line.new self.new.text) self.new.pending }
        ensures open { result ≡ false → LengthensLine (heard line.old self.old.text) self.old.pending (heard line.new self.new.text) }
        ensures too_long { line.new ≡ TooLong → self.new.text ≡ [] }
        ensures shorter { IsTrue result → length self.new.pending < length self.old.pending }
        ensures empty { result ≡ false → self.new.pending ≡ [] }
        ensures begun { result ≡ false → at_least (heard line.new self.new.text) ≤ length self.old.pending + at_least (heard line.old self.old.text) }
        ensures counts { (self.new.taken ≡ self.old.taken) × (self.new.limit ≡ self.old.limit) }
    {
        let pending = &self.piece[self.start..self.end];
        let Some(at) = memchr(NEWLINE, pending) else {
            *line = extended(&mut self.line, *line, pending);
            self.start = self.end;
            return false;
        };
        *line = extended(&mut self.line, *line, &pending[..at]);
        self.start += at + 1;
        true
    }

    // Takes a piece from the source where nothing is pending, and tells how many bytes that were.
    fn fill<S: Source>(&mut self, source: &mut S) -> Result<usize, ReadEnd>
        requires { self.old.pending ≡ [] }
        ensures bytes { IfOk result (λ n. Consumes (S.left source.old) (S.left source.new) self.new.pending × (n ≡ length self.new.pending)) }
        ensures end { result ≡ Ok 0 → IsAtEnd (S.left source.new) }
        ensures err { OnErr result (Keeps (S.left source.old) (S.left source.new) × (self.new.pending ≡ [])) }
        ensures read_fault { result ≡ Err ReadFault →
            Rose (S.read_faults source.old) (S.read_faults source.new) × (self.new.taken < self.new.limit) }
        ensures input_limit { result ≡ Err InputLimit → self.new.taken ≡ self.new.limit }
        ensures not_end { result ≢ Err End }
        ensures taken { self.new.taken ≡ self.old.taken + length self.new.pending }
        ensures within { self.new.taken ≤ self.new.limit }
        ensures rest { (self.new.limit ≡ self.old.limit) × (self.new.text ≡ self.old.text) }
        ensures never_falls { S.read_faults source.old ≤ S.read_faults source.new }
        ensures kept { S.kept_by_read source.new ≡ S.kept_by_read source.old }
    {
        let room = self.limit - self.taken;
        if room == 0 {
            return Err(ReadEnd::InputLimit);
        }
        let asked = room.min(PIECE as u64) as usize;
        let Ok(n) = read_front(source, self.piece.as_mut_slice(), asked) else {
            return Err(ReadEnd::ReadFault);
        };
        self.start = 0;
        self.end = n;
        self.taken += n as u64;
        Ok(n)
    }

    // What is told of the line in progress as the source ends.
    fn last(&self, begun: Line) -> Result<Line, ReadEnd>
        ensures ok { IfOk result (λ told. told ≡ begun) }
        ensures some { OnOk result (0 < at_least (heard begun self.now.text)) }
        ensures err { OnErr result (heard begun self.now.text ≡ kept []) }
        ensures end { IfErr result (λ e. e ≡ End) }
    {
        if begun == Line::Whole && self.line.is_empty() {
            Err(ReadEnd::End)
        } else {
            Ok(begun)
        }
    }
}

// Reads at most so many bytes into the front of a piece.
fn read_front<S: Source>(source: &mut S, piece: &mut [u8], most: usize) -> Result<usize, Failed>
    requires { most ≤ length piece.old }
    ensures bound { IfOk result (λ n. n ≤ most) }
    ensures bytes { IfOk result (λ n. Consumes (S.left source.old) (S.left source.new) (take n piece.new)) }
    ensures end { IfOk result (λ n. n ≡ 0 → 0 < most → IsAtEnd (S.left source.new)) }
    ensures err { OnErr result (Keeps (S.left source.old) (S.left source.new)) }
    ensures cause { HasCause (S.read_faults source.old) (S.read_faults source.new) result }
    ensures kept { S.kept_by_read source.new ≡ S.kept_by_read source.old }
{
    source.read(&mut piece[..most])
}

// The line in progress, with a part more that has no newline. Above MAX_LINE bytes it is too long, and has no bytes.
fn extended(bytes: &mut Vec<u8>, line: Line, part: &[u8]) -> Line
    requires within { vec_len bytes.old ≤ MAX_LINE }
    requires room { MAX_LINE ≤ vec_capacity bytes.old }
    ensures value { heard result bytes.new.items ≡ lengthened (heard line bytes.old.items) part.now }
    ensures too_long { result ≡ TooLong → bytes.new.items ≡ [] }
    ensures stays_within { vec_len bytes.new ≤ MAX_LINE }
    ensures keeps_room { MAX_LINE ≤ vec_capacity bytes.new }
{
    if line == Line::TooLong || part.len() > MAX_LINE - bytes.len() {
        bytes.clear();
        return Line::TooLong;
    }
    match bytes.extend_from_slice(part) {
        Ok(()) => Line::Whole,
        Err(_) => unreachable!(),
    }
}
