//! The members of an object by their names, each of its kind. `NotCommand` where it is missing or of another kind.

ghost use Rattle.std.specs.Prelude.{◌≡◌, IfOk, IfErr, Some, None};
ghost use Rattle.serde_json.specs.View.{view};
ghost use Rattle.command_words.specs.declared.line_fault.LineFault.TheVariants.{NotCommand};
ghost use Rattle.wire_json.specs.Kinds.{number_at, text_at, truth_at, side_at, side_of, numbers_at, pairs_at, exactly, member_count};
ghost use Rattle.wire_json.specs.Request.{ReadsAs, of_kind};

use command_words::LineFault;
use order_rules::Side;
use serde_json::Value;

/// A whole number below 2^64.
pub fn number_at(value: &Value, name: &str) -> Result<u64, LineFault>
    ensures { ReadsAs result (of_kind (number_at name.now (view value.now))) }
{
    match value.get(name).and_then(Value::as_u64) {
        Some(number) => Ok(number),
        None => Err(LineFault::NotCommand),
    }
}

/// A text.
pub fn text_at<'v>(value: &'v Value, name: &str) -> Result<&'v str, LineFault>
    ensures text { IfOk result (λ text. text_at name.now (view value.now) ≡ Some text.now) }
    ensures none { IfErr result (λ fault. (fault ≡ NotCommand) × (text_at name.now (view value.now) ≡ None)) }
{
    match value.get(name).and_then(Value::as_str) {
        Some(text) => Ok(text),
        None => Err(LineFault::NotCommand),
    }
}

/// A truth value.
pub fn truth_at(value: &Value, name: &str) -> Result<bool, LineFault>
    ensures { ReadsAs result (of_kind (truth_at name.now (view value.now))) }
{
    match value.get(name).and_then(Value::as_bool) {
        Some(truth) => Ok(truth),
        None => Err(LineFault::NotCommand),
    }
}

/// One of the two texts `buy` and `sell`.
pub fn side_at(value: &Value, name: &str) -> Result<Side, LineFault>
    ensures { ReadsAs result (of_kind (side_at name.now (view value.now))) }
{
    match value.get(name).and_then(Value::as_str) {
        Some(text) => side_of(text),
        None => Err(LineFault::NotCommand),
    }
}

fn side_of(text: &str) -> Result<Side, LineFault>
    ensures { ReadsAs result (of_kind (side_of text.now)) }
{
    if text == "buy" {
        return Ok(Side::Buy);
    }
    if text == "sell" {
        return Ok(Side::Sell);
    }
    Err(LineFault::NotCommand)
}

/// Nothing, where the value is an object of just so many members.
pub fn exactly(value: &Value, count: usize) -> Result<(), LineFault>
    ensures { ReadsAs result (of_kind (exactly count (view value.now))) }
{
    if member_count(value) == count {
        Ok(())
    } else {
        Err(LineFault::NotCommand)
    }
}

/// How many members an object has; what is no object has none.
fn member_count(value: &Value) -> usize
    ensures { result ≡ member_count (view value.now) }
{
    match value.as_object() {
        Some(members) => members.len(),
        None => 0,
    }
}
