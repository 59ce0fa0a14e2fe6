//! The command of a name, by the same four tables as its definition.

ghost use Rattle.serde_json.specs.View.{view};
ghost use Rattle.command_words.specs.Command.{in_ranges};
ghost use Rattle.wire_json.specs.CommandText.{command_in, outcome_in, trade_in, reading_in};
ghost use Rattle.wire_json.specs.Request.{ReadsAs, kind_then_range};

use crate::reading::funds::{
    deposit_in, event_in, merge_in, move_in, prepare_in, split_in, withdraw_in,
};
use crate::reading::orders::{
    bump_in, cancel_in, cross_in, lapse_in, market_in, match_in, place_in,
};
use crate::reading::outcomes::{answer_in, convert_in, redeem_in, report_in};
use crate::reading::readings::{balance_in, order_in, vault_in};
use command_words::{Command, LineFault};
use serde_json::Value;
use std::alloc::Global;

/// The command of this name: its kinds first, then its ranges.
pub fn command_in(alloc: Global, value: &Value, name: &str) -> Result<Command, LineFault>
    ensures { ReadsAs result (kind_then_range in_ranges (command_in name.now (view value.now))) }
{
    if name == "deposit" {
        return deposit_in(value);
    }
    if name == "withdraw" {
        return withdraw_in(value);
    }
    if name == "move" {
        return move_in(alloc, value);
    }
    if name == "prepare" {
        return prepare_in(value);
    }
    if name == "event" {
        return event_in(value);
    }
    if name == "split" {
        return split_in(alloc, value);
    }
    if name == "merge" {
        return merge_in(alloc, value);
    }
    outcome_in(alloc, value, name)
}

fn outcome_in(alloc: Global, value: &Value, name: &str) -> Result<Command, LineFault>
    ensures { ReadsAs result (kind_then_range in_ranges (outcome_in name.now (view value.now))) }
{
    if name == "report" {
        return report_in(alloc, value);
    }
    if name == "answer" {
        return answer_in(value);
    }
    if name == "redeem" {
        return redeem_in(alloc, value);
    }
    if name == "convert" {
        return convert_in(value);
    }
    trade_in(alloc, value, name)
}

fn trade_in(alloc: Global, value: &Value, name: &str) -> Result<Command, LineFault>
    ensures { ReadsAs result (kind_then_range in_ranges (trade_in name.now (view value.now))) }
{
    if name == "market" {
        return market_in(value);
    }
    if name == "place" {
        return place_in(value);
    }
    if name == "cancel" {
        return cancel_in(value);
    }
    if name == "bump" {
        return bump_in(value);
    }
    if name == "match" {
        return match_in(alloc, value);
    }
    if name == "lapse" {
        return lapse_in(value);
    }
    if name == "cross" {
        return cross_in(value);
    }
    reading_in(alloc, value, name)
}

fn reading_in(alloc: Global, value: &Value, name: &str) -> Result<Command, LineFault>
    ensures { ReadsAs result (kind_then_range in_ranges (reading_in name.now (view value.now))) }
{
    if name == "balance" {
        return balance_in(alloc, value);
    }
    if name == "order" {
        return order_in(value);
    }
    if name == "vault" {
        return vault_in(value);
    }
    Err(LineFault::NotCommand)
}
