//! One line in, one reply out.

ghost use Rattle.std.specs.Prelude.{◌≡◌};
ghost use Rattle.line_link.specs.LineReader.{heard};
ghost use Rattle.line_link.specs.Lines.{kept};
ghost use Rattle.command_words.specs.Reply.{IsSound};
ghost use Rattle.ledger_lock.specs.Turns.{EndsForRoom};
ghost use Rattle.exchange_top.specs.Holds.{IsFront};
ghost use Rattle.exchange_top.specs.Talk.{AnsweredLine};

use command_words::{LineFault, Reply};
use ledger_lock::House;
use line_link::Line;
use std::alloc::Global;
use wire_json::read_line;

/// Answers a line that was told, whose bytes are `text`.
pub(crate) fn answer_line(
    alloc: Global,
    house: &mut House,
    line: Line,
    text: &[u8],
    now: u64,
) -> Reply
    ensures answered { AnsweredLine house.old.limits house.old.history (heard line text.now) now result house.new.history }
    ensures front { IsFront house.old.history house.new.history }
    ensures sound { IsSound result }
    ensures stop { EndsForRoom result }
    ensures limits { house.new.limits ≡ house.old.limits }
{
    match line {
        Line::TooLong => Reply::Bad {
            fault: LineFault::TooLong,
        },
        Line::Whole => answer_text(alloc, house, text, now),
    }
}

/// Answers a line that was told whole.
fn answer_text(alloc: Global, house: &mut House, text: &[u8], now: u64) -> Reply
    ensures answered { AnsweredLine house.old.limits house.old.history (kept text.now) now result house.new.history }
    ensures sound { IsSound result }
    ensures stop { EndsForRoom result }
    ensures limits { house.new.limits ≡ house.old.limits }
{
    match read_line(alloc, text) {
        Ok(request) => house.answer(request.account, &request.command, now),
        Err(fault) => Reply::Bad { fault },
    }
}
