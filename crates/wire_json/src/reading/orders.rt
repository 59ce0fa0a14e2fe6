//! The commands of markets and orders, each with a line that is one.

ghost use Rattle.serde_json.specs.View.{view};
ghost use Rattle.command_words.specs.Command.{in_ranges};
ghost use Rattle.wire_json.specs.CommandText.{market_in, place_in, cancel_in, bump_in, match_in, lapse_in, cross_in};
ghost use Rattle.wire_json.specs.Request.{ReadsAs, kind_then_range};

use crate::reading::lists::pairs_at;
use crate::reading::members::{exactly, number_at, side_at};
use crate::reading::ranges::{byte_of, condition_of, fee_of, makers_of, order_of, ranged};
use command_words::{Command, LineFault};
use serde_json::Value;
use std::alloc::Global;

/// `{"do":"market","by":0,"condition":0}`
pub fn market_in(value: &Value) -> Result<Command, LineFault>
    ensures { ReadsAs result (kind_then_range in_ranges (market_in (view value.now))) }
{
    exactly(value, 3)?;
    let condition = number_at(value, "condition")?;
    let condition = condition_of(condition)?;
    ranged(Command::Market { condition })
}

/// `{"do":"place","by":2,"market":0,"set":1,"side":"buy","making":40,"taking":100,"expires":0,"nonce":0,"fee":20}`
pub fn place_in(value: &Value) -> Result<Command, LineFault>
    ensures { ReadsAs result (kind_then_range in_ranges (place_in (view value.now))) }
{
    exactly(value, 10)?;
    let market = number_at(value, "market")?;
    let set = number_at(value, "set")?;
    let side = side_at(value, "side")?;
    let making = number_at(value, "making")?;
    let taking = number_at(value, "taking")?;
    let expires = number_at(value, "expires")?;
    let nonce = number_at(value, "nonce")?;
    let fee = number_at(value, "fee")?;
    let market = condition_of(market)?;
    let set = byte_of(set)?;
    let fee = fee_of(fee)?;
    ranged(Command::Place {
        market,
        set,
        side,
        making,
        taking,
        expires,
        nonce,
        fee,
    })
}

/// `{"do":"cancel","by":2,"order":0}`
pub fn cancel_in(value: &Value) -> Result<Command, LineFault>
    ensures { ReadsAs result (kind_then_range in_ranges (cancel_in (view value.now))) }
{
    exactly(value, 3)?;
    let order = number_at(value, "order")?;
    let order = order_of(order)?;
    ranged(Command::Cancel { order })
}

/// `{"do":"bump","by":2}`
pub fn bump_in(value: &Value) -> Result<Command, LineFault>
    ensures { ReadsAs result (kind_then_range in_ranges (bump_in (view value.now))) }
{
    exactly(value, 2)?;
    Ok(Command::Bump)
}

/// `{"do":"match","by":0,"taker":1,"fill":40,"makers":[[0,100]]}`
pub fn match_in(alloc: Global, value: &Value) -> Result<Command, LineFault>
    ensures { ReadsAs result (kind_then_range in_ranges (match_in (view value.now))) }
{
    exactly(value, 5)?;
    let taker = number_at(value, "taker")?;
    let fill = number_at(value, "fill")?;
    let makers = pairs_at(alloc, value, "makers")?;
    let taker = order_of(taker)?;
    let makers = makers_of(alloc, makers.as_slice())?;
    ranged(Command::Match {
        taker,
        fill,
        makers,
    })
}

/// `{"do":"lapse","by":0,"order":0}`
pub fn lapse_in(value: &Value) -> Result<Command, LineFault>
    ensures { ReadsAs result (kind_then_range in_ranges (lapse_in (view value.now))) }
{
    exactly(value, 3)?;
    let order = number_at(value, "order")?;
    let order = order_of(order)?;
    ranged(Command::Lapse { order })
}

/// `{"do":"cross","by":0,"market":0}`
pub fn cross_in(value: &Value) -> Result<Command, LineFault>
    ensures { ReadsAs result (kind_then_range in_ranges (cross_in (view value.now))) }
{
    exactly(value, 3)?;
    let market = number_at(value, "market")?;
    let market = condition_of(market)?;
    ranged(Command::Cross { market })
}
