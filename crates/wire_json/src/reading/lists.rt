//! The members that are lists, each item of its kind. `NotCommand` where one is missing or of another kind.

ghost use Rattle.serde_json.specs.View.{view, items_view};
ghost use Rattle.wire_json.specs.Kinds.{each, whole_in, two_in, pair_in, numbers_at, pairs_at};
ghost use Rattle.wire_json.specs.Request.{ReadsAs, of_kind};

use command_words::LineFault;
use condition_sets::ListOf;
use serde_json::Value;
use std::alloc::Global;

/// A list of whole numbers.
pub fn numbers_at(alloc: Global, value: &Value, name: &str) -> Result<ListOf<u64>, LineFault>
    ensures { ReadsAs result (of_kind (numbers_at name.now (view value.now))) }
{
    match value.get(name).and_then(Value::as_array) {
        Some(items) => numbers_in(alloc, items.as_slice()),
        None => Err(LineFault::NotCommand),
    }
}

/// A list of pairs of whole numbers.
pub fn pairs_at(alloc: Global, value: &Value, name: &str) -> Result<ListOf<(u64, u64)>, LineFault>
    ensures { ReadsAs result (of_kind (pairs_at name.now (view value.now))) }
{
    match value.get(name).and_then(Value::as_array) {
        Some(items) => pairs_in(alloc, items.as_slice()),
        None => Err(LineFault::NotCommand),
    }
}

fn numbers_in(alloc: Global, items: &[Value]) -> Result<ListOf<u64>, LineFault>
    ensures { ReadsAs result (of_kind (each whole_in (items_view items.now))) }
{
    let mut numbers = ListOf::new(alloc);
    for item in items {
        let number = whole_in(item)?;
        numbers.push(number)?;
    }
    Ok(numbers)
}

fn pairs_in(alloc: Global, items: &[Value]) -> Result<ListOf<(u64, u64)>, LineFault>
    ensures { ReadsAs result (of_kind (each pair_in (items_view items.now))) }
{
    let mut pairs = ListOf::new(alloc);
    for item in items {
        let pair = pair_in(item)?;
        pairs.push(pair)?;
    }
    Ok(pairs)
}

fn pair_in(value: &Value) -> Result<(u64, u64), LineFault>
    ensures { ReadsAs result (of_kind (pair_in (view value.now))) }
{
    match value.as_array() {
        Some(items) => two_in(items.as_slice()),
        None => Err(LineFault::NotCommand),
    }
}

fn two_in(items: &[Value]) -> Result<(u64, u64), LineFault>
    ensures { ReadsAs result (of_kind (two_in (items_view items.now))) }
{
    match items {
        [first, second] => {
            let first = whole_in(first)?;
            let second = whole_in(second)?;
            Ok((first, second))
        }
        _ => Err(LineFault::NotCommand),
    }
}

fn whole_in(value: &Value) -> Result<u64, LineFault>
    ensures { ReadsAs result (of_kind (whole_in (view value.now))) }
{
    match value.as_u64() {
        Some(number) => Ok(number),
        None => Err(LineFault::NotCommand),
    }
}
