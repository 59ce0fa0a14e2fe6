//! The bodies of the kinds 6 to 11, field by field: of conditions and events.

ghost use Rattle.std.specs.Prelude.{◌≡◌};
ghost use Rattle.act_bytes.specs.Reading.{Gives, next_split, next_merge, next_report, next_answer_body, next_redeem, next_convert, next_condition_body};

use crate::fault::ReadFault;
use crate::lists::sets_of;
use crate::named::named_of;
use crate::numbers::{answer_of, condition_of, event_of, u8_of, u16_of, u32_of, u64_of};
use crate::order_bodies::order_body_of;
use command_words::Command;
use condition_sets::Bits;
use std::alloc::Global;

/// The body of a split, and the bytes behind it.
#[tactic(auto, unfolding(crate::specs::Reading::next_split))]
fn split_of(alloc: Global, bytes: &[u8]) -> Result<(Command, &[u8]), ReadFault>
    ensures { Gives (λ x. (x.0, x.1.now)) result (next_split bytes.now) }
{
    match named_of(alloc, bytes) {
        Ok((named, rest)) => {
            let (amount, rest) = u64_of(rest)?;
            Ok((
                Command::Split {
                    parent: named.parent,
                    condition: named.condition,
                    sets: named.sets,
                    amount,
                },
                rest,
            ))
        }
        Err(fault) => Err(fault),
    }
}

/// The body of a merge, and the bytes behind it.
#[tactic(auto, unfolding(crate::specs::Reading::next_merge))]
fn merge_of(alloc: Global, bytes: &[u8]) -> Result<(Command, &[u8]), ReadFault>
    ensures { Gives (λ x. (x.0, x.1.now)) result (next_merge bytes.now) }
{
    match named_of(alloc, bytes) {
        Ok((named, rest)) => {
            let (amount, rest) = u64_of(rest)?;
            Ok((
                Command::Merge {
                    parent: named.parent,
                    condition: named.condition,
                    sets: named.sets,
                    amount,
                },
                rest,
            ))
        }
        Err(fault) => Err(fault),
    }
}

/// The body of a report, and the bytes behind it.
#[tactic(auto, unfolding(crate::specs::Reading::next_report))]
fn report_of(alloc: Global, bytes: &[u8]) -> Result<(Command, &[u8]), ReadFault>
    ensures { Gives (λ x. (x.0, x.1.now)) result (next_report bytes.now) }
{
    let (condition, rest) = u16_of(bytes)?;
    let condition = condition_of(condition)?;
    let (payouts, rest) = sets_of(alloc, rest)?;
    let payouts = Bits::of(payouts);
    Ok((Command::Report { condition, payouts }, rest))
}

/// The body of an answer, and the bytes behind it.
#[tactic(auto, unfolding(crate::specs::Reading::next_answer_body))]
fn answer_body_of(bytes: &[u8]) -> Result<(Command, &[u8]), ReadFault>
    ensures { Gives (λ x. (x.0, x.1.now)) result (next_answer_body bytes.now) }
{
    let (event, rest) = u16_of(bytes)?;
    let event = event_of(event)?;
    let (question, rest) = u8_of(rest)?;
    let (yes, rest) = answer_of(rest)?;
    Ok((
        Command::Answer {
            event,
            question,
            yes,
        },
        rest,
    ))
}

/// The body of a redemption, and the bytes behind it.
#[tactic(auto, unfolding(crate::specs::Reading::next_redeem))]
fn redeem_of(alloc: Global, bytes: &[u8]) -> Result<(Command, &[u8]), ReadFault>
    ensures { Gives (λ x. (x.0, x.1.now)) result (next_redeem bytes.now) }
{
    match named_of(alloc, bytes) {
        Ok((named, rest)) => {
            Ok((
                Command::Redeem {
                    parent: named.parent,
                    condition: named.condition,
                    sets: named.sets,
                },
                rest,
            ))
        }
        Err(fault) => Err(fault),
    }
}

/// The body of a conversion, and the bytes behind it.
#[tactic(auto, unfolding(crate::specs::Reading::next_convert))]
fn convert_of(bytes: &[u8]) -> Result<(Command, &[u8]), ReadFault>
    ensures { Gives (λ x. (x.0, x.1.now)) result (next_convert bytes.now) }
{
    let (event, rest) = u16_of(bytes)?;
    let event = event_of(event)?;
    let (set, rest) = u32_of(rest)?;
    let (amount, rest) = u64_of(rest)?;
    Ok((Command::Convert { event, set, amount }, rest))
}

/// The body of the kind of a number from 6 on, and the bytes behind it.
#[tactic(auto, unfolding(crate::specs::Reading::next_condition_body))]
pub(crate) fn condition_body_of(
    alloc: Global,
    kind: u8,
    bytes: &[u8],
) -> Result<(Command, &[u8]), ReadFault>
    ensures { Gives (λ x. (x.0, x.1.now)) result (next_condition_body kind bytes.now) }
{
    match kind {
        6 => split_of(alloc, bytes),
        7 => merge_of(alloc, bytes),
        8 => report_of(alloc, bytes),
        9 => answer_body_of(bytes),
        10 => redeem_of(alloc, bytes),
        11 => convert_of(bytes),
        _ => order_body_of(alloc, kind, bytes),
    }
}
