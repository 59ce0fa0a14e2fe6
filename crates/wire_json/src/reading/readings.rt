//! The commands that ask how things stand, each with a line that is one.

ghost use Rattle.serde_json.specs.View.{view};
ghost use Rattle.command_words.specs.Command.{in_ranges};
ghost use Rattle.wire_json.specs.CommandText.{balance_in, order_in, vault_in};
ghost use Rattle.wire_json.specs.Request.{ReadsAs, kind_then_range};

use crate::reading::lists::pairs_at;
use crate::reading::members::{exactly, number_at};
use crate::reading::ranges::{account_of, key_of, order_of, ranged};
use command_words::{Command, LineFault};
use serde_json::Value;
use std::alloc::Global;

/// `{"do":"balance","by":2,"of":2,"key":[[0,1]]}`
pub fn balance_in(alloc: Global, value: &Value) -> Result<Command, LineFault>
    ensures { ReadsAs result (kind_then_range in_ranges (balance_in (view value.now))) }
{
    exactly(value, 4)?;
    let of = number_at(value, "of")?;
    let key = pairs_at(alloc, value, "key")?;
    let of = account_of(of)?;
    let key = key_of(alloc, key.as_slice())?;
    ranged(Command::Balance { of, key })
}

/// `{"do":"order","by":2,"order":0}`
pub fn order_in(value: &Value) -> Result<Command, LineFault>
    ensures { ReadsAs result (kind_then_range in_ranges (order_in (view value.now))) }
{
    exactly(value, 3)?;
    let order = number_at(value, "order")?;
    let order = order_of(order)?;
    ranged(Command::Order { order })
}

/// `{"do":"vault","by":2}`
pub fn vault_in(value: &Value) -> Result<Command, LineFault>
    ensures { ReadsAs result (kind_then_range in_ranges (vault_in (view value.now))) }
{
    exactly(value, 2)?;
    Ok(Command::Vault)
}
