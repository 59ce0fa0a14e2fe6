//! The commands that report how conditions came out, and act on it, each with a line that is one.

ghost use Rattle.serde_json.specs.View.{view};
ghost use Rattle.command_words.specs.Command.{in_ranges};
ghost use Rattle.wire_json.specs.CommandText.{report_in, answer_in, redeem_in, convert_in};
ghost use Rattle.wire_json.specs.Request.{ReadsAs, kind_then_range};

use crate::reading::lists::{numbers_at, pairs_at};
use crate::reading::members::{exactly, number_at, truth_at};
use crate::reading::ranges::{
    bits_of, byte_of, condition_of, event_of, key_of, payouts_of, ranged, sets_of,
};
use command_words::{Command, LineFault};
use serde_json::Value;
use std::alloc::Global;

/// `{"do":"report","by":3,"condition":0,"payouts":[1,0]}`
pub fn report_in(alloc: Global, value: &Value) -> Result<Command, LineFault>
    ensures { ReadsAs result (kind_then_range in_ranges (report_in (view value.now))) }
{
    exactly(value, 4)?;
    let condition = number_at(value, "condition")?;
    let payouts = numbers_at(alloc, value, "payouts")?;
    let condition = condition_of(condition)?;
    let payouts = payouts_of(alloc, payouts.as_slice())?;
    ranged(Command::Report { condition, payouts })
}

/// `{"do":"answer","by":3,"event":0,"question":1,"yes":true}`
pub fn answer_in(value: &Value) -> Result<Command, LineFault>
    ensures { ReadsAs result (kind_then_range in_ranges (answer_in (view value.now))) }
{
    exactly(value, 5)?;
    let event = number_at(value, "event")?;
    let question = number_at(value, "question")?;
    let yes = truth_at(value, "yes")?;
    let event = event_of(event)?;
    let question = byte_of(question)?;
    ranged(Command::Answer {
        event,
        question,
        yes,
    })
}

/// `{"do":"redeem","by":2,"parent":[],"condition":0,"sets":[1,2]}`
pub fn redeem_in(alloc: Global, value: &Value) -> Result<Command, LineFault>
    ensures { ReadsAs result (kind_then_range in_ranges (redeem_in (view value.now))) }
{
    exactly(value, 5)?;
    let parent = pairs_at(alloc, value, "parent")?;
    let condition = number_at(value, "condition")?;
    let sets = numbers_at(alloc, value, "sets")?;
    let parent = key_of(alloc, parent.as_slice())?;
    let condition = condition_of(condition)?;
    let sets = sets_of(alloc, sets.as_slice())?;
    ranged(Command::Redeem {
        parent,
        condition,
        sets,
    })
}

/// `{"do":"convert","by":2,"event":0,"set":3,"amount":5}`
pub fn convert_in(value: &Value) -> Result<Command, LineFault>
    ensures { ReadsAs result (kind_then_range in_ranges (convert_in (view value.now))) }
{
    exactly(value, 5)?;
    let event = number_at(value, "event")?;
    let set = number_at(value, "set")?;
    let amount = number_at(value, "amount")?;
    let event = event_of(event)?;
    let set = bits_of(set)?;
    ranged(Command::Convert { event, set, amount })
}
