//! The commands that move funds and make conditions, each with a line that is one.

ghost use Rattle.serde_json.specs.View.{view};
ghost use Rattle.command_words.specs.Command.{in_ranges};
ghost use Rattle.wire_json.specs.CommandText.{deposit_in, withdraw_in, move_in, prepare_in, event_in, split_in, merge_in};
ghost use Rattle.wire_json.specs.Request.{ReadsAs, kind_then_range};

use crate::reading::lists::{numbers_at, pairs_at};
use crate::reading::members::{exactly, number_at};
use crate::reading::ranges::{account_of, byte_of, condition_of, fee_of, key_of, ranged, sets_of};
use command_words::{Command, LineFault};
use serde_json::Value;
use std::alloc::Global;

/// `{"do":"deposit","by":0,"to":2,"amount":100}`
pub fn deposit_in(value: &Value) -> Result<Command, LineFault>
    ensures { ReadsAs result (kind_then_range in_ranges (deposit_in (view value.now))) }
{
    exactly(value, 4)?;
    let to = number_at(value, "to")?;
    let amount = number_at(value, "amount")?;
    let to = account_of(to)?;
    ranged(Command::Deposit { to, amount })
}

/// `{"do":"withdraw","by":2,"amount":40}`
pub fn withdraw_in(value: &Value) -> Result<Command, LineFault>
    ensures { ReadsAs result (kind_then_range in_ranges (withdraw_in (view value.now))) }
{
    exactly(value, 3)?;
    let amount = number_at(value, "amount")?;
    ranged(Command::Withdraw { amount })
}

/// `{"do":"move","by":2,"to":4,"key":[[0,1]],"amount":5}`
pub fn move_in(alloc: Global, value: &Value) -> Result<Command, LineFault>
    ensures { ReadsAs result (kind_then_range in_ranges (move_in (view value.now))) }
{
    exactly(value, 5)?;
    let to = number_at(value, "to")?;
    let key = pairs_at(alloc, value, "key")?;
    let amount = number_at(value, "amount")?;
    let to = account_of(to)?;
    let key = key_of(alloc, key.as_slice())?;
    ranged(Command::Move { to, key, amount })
}

/// `{"do":"prepare","by":2,"oracle":3,"question":7,"slots":2}`
pub fn prepare_in(value: &Value) -> Result<Command, LineFault>
    ensures { ReadsAs result (kind_then_range in_ranges (prepare_in (view value.now))) }
{
    exactly(value, 5)?;
    let oracle = number_at(value, "oracle")?;
    let question = number_at(value, "question")?;
    let slots = number_at(value, "slots")?;
    let oracle = account_of(oracle)?;
    let slots = byte_of(slots)?;
    ranged(Command::Prepare {
        oracle,
        question,
        slots,
    })
}

/// `{"do":"event","by":0,"oracle":3,"questions":4,"fee":50}`
pub fn event_in(value: &Value) -> Result<Command, LineFault>
    ensures { ReadsAs result (kind_then_range in_ranges (event_in (view value.now))) }
{
    exactly(value, 5)?;
    let oracle = number_at(value, "oracle")?;
    let questions = number_at(value, "questions")?;
    let fee = number_at(value, "fee")?;
    let oracle = account_of(oracle)?;
    let questions = byte_of(questions)?;
    let fee = fee_of(fee)?;
    ranged(Command::Event {
        oracle,
        questions,
        fee,
    })
}

/// `{"do":"split","by":2,"parent":[],"condition":0,"sets":[1,2],"amount":60}`
pub fn split_in(alloc: Global, value: &Value) -> Result<Command, LineFault>
    ensures { ReadsAs result (kind_then_range in_ranges (split_in (view value.now))) }
{
    exactly(value, 6)?;
    let parent = pairs_at(alloc, value, "parent")?;
    let condition = number_at(value, "condition")?;
    let sets = numbers_at(alloc, value, "sets")?;
    let amount = number_at(value, "amount")?;
    let parent = key_of(alloc, parent.as_slice())?;
    let condition = condition_of(condition)?;
    let sets = sets_of(alloc, sets.as_slice())?;
    ranged(Command::Split {
        parent,
        condition,
        sets,
        amount,
    })
}

/// `{"do":"merge","by":2,"parent":[],"condition":0,"sets":[1,2],"amount":10}`
pub fn merge_in(alloc: Global, value: &Value) -> Result<Command, LineFault>
    ensures { ReadsAs result (kind_then_range in_ranges (merge_in (view value.now))) }
{
    exactly(value, 6)?;
    let parent = pairs_at(alloc, value, "parent")?;
    let condition = number_at(value, "condition")?;
    let sets = numbers_at(alloc, value, "sets")?;
    let amount = number_at(value, "amount")?;
    let parent = key_of(alloc, parent.as_slice())?;
    let condition = condition_of(condition)?;
    let sets = sets_of(alloc, sets.as_slice())?;
    ranged(Command::Merge {
        parent,
        condition,
        sets,
        amount,
    })
}
