//! From the bytes of a line to the request that it is, or to the fault that makes it none.

mod by_name;
mod funds;
mod lists;
mod members;
mod orders;
mod outcomes;
mod ranges;
mod readings;

ghost use Rattle.std.specs.Prelude.{◌≡◌, true, IfOk};
ghost use Rattle.serde_json.specs.View.{view};
ghost use Rattle.command_words.specs.Command.{in_ranges};
ghost use Rattle.wire_json.specs.Request.{request, request_in, is_ranged, kind_then_range, ReadsAs};

use crate::reading::by_name::command_in;
use crate::reading::members::{number_at, text_at};
use crate::reading::ranges::account_of;
use crate::request::Request;
use command_words::LineFault;
use serde_json::{Category, Value};
use std::alloc::Global;

/// The request that a line is, or why it is none: `NotJson` where it is no JSON text, `NotCommand` where it is no
/// object with just the members of a command, each of its kind, and `OutOfRange` where all are of their kinds and one
/// isn't in its range. `Memory` may come at any time. (RFC 8259, as `serde_json` reads it.)
pub fn read_line(alloc: Global, line: &[u8]) -> Result<Request, LineFault>
    ensures request { ReadsAs result (request line.now) }
    ensures ranges { IfOk result (λ request. in_ranges request.command ≡ true) }
{
    match Value::from_slice(alloc, line) {
        Ok(value) => request_in(alloc, &value),
        Err(error) => match error.classify() {
            Category::Memory => Err(LineFault::Memory),
            _ => Err(LineFault::NotJson),
        },
    }
}

/// The request that a JSON value is: its command is read before the range of the account is asked, so that kinds go
/// before ranges.
fn request_in(alloc: Global, value: &Value) -> Result<Request, LineFault>
    ensures request { ReadsAs result (kind_then_range is_ranged (request_in (view value.now))) }
    ensures ranges { IfOk result (λ request. in_ranges request.command ≡ true) }
{
    let name = text_at(value, "do")?;
    let account = number_at(value, "by")?;
    let command = command_in(alloc, value, name)?;
    let account = account_of(account)?;
    Ok(Request { account, command })
}
