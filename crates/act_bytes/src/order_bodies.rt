//! The bodies of the kinds 12 to 17, field by field: of markets and orders.

ghost use Rattle.std.specs.Prelude.{◌≡◌};
ghost use Rattle.act_bytes.specs.Reading.{Gives, next_market, next_place, next_cancel, next_match, next_lapse, next_order_body};

use crate::fault::ReadFault;
use crate::lists::fills_of;
use crate::numbers::{condition_of, side_of, u8_of, u16_of, u32_of, u64_of};
use command_words::Command;
use condition_sets::{Fills, OrderId};
use std::alloc::Global;

/// The body of a market, and the bytes behind it.
#[tactic(auto, unfolding(crate::specs::Reading::next_market))]
fn market_of(bytes: &[u8]) -> Result<(Command, &[u8]), ReadFault>
    ensures { Gives (λ x. (x.0, x.1.now)) result (next_market bytes.now) }
{
    let (condition, rest) = u16_of(bytes)?;
    let condition = condition_of(condition)?;
    Ok((Command::Market { condition }, rest))
}

/// The body of a placed order, and the bytes behind it.
#[tactic(auto, unfolding(crate::specs::Reading::next_place))]
fn place_of(bytes: &[u8]) -> Result<(Command, &[u8]), ReadFault>
    ensures { Gives (λ x. (x.0, x.1.now)) result (next_place bytes.now) }
{
    let (market, rest) = u16_of(bytes)?;
    let market = condition_of(market)?;
    let (set, rest) = u8_of(rest)?;
    let (side, rest) = side_of(rest)?;
    let (making, rest) = u64_of(rest)?;
    let (taking, rest) = u64_of(rest)?;
    let (expires, rest) = u64_of(rest)?;
    let (nonce, rest) = u64_of(rest)?;
    let (fee, rest) = u16_of(rest)?;
    Ok((
        Command::Place {
            market,
            set,
            side,
            making,
            taking,
            expires,
            nonce,
            fee,
        },
        rest,
    ))
}

/// The body of a cancellation, and the bytes behind it.
#[tactic(auto, unfolding(crate::specs::Reading::next_cancel))]
fn cancel_of(bytes: &[u8]) -> Result<(Command, &[u8]), ReadFault>
    ensures { Gives (λ x. (x.0, x.1.now)) result (next_cancel bytes.now) }
{
    let (order, rest) = u32_of(bytes)?;
    let order = OrderId(order);
    Ok((Command::Cancel { order }, rest))
}

/// The body of a match, and the bytes behind it.
#[tactic(auto, unfolding(crate::specs::Reading::next_match))]
fn match_of(alloc: Global, bytes: &[u8]) -> Result<(Command, &[u8]), ReadFault>
    ensures { Gives (λ x. (x.0, x.1.now)) result (next_match bytes.now) }
{
    let (taker, rest) = u32_of(bytes)?;
    let (fill, rest) = u64_of(rest)?;
    match fills_of(alloc, rest) {
        Ok((makers, rest)) => {
            let taker = OrderId(taker);
            let makers = Fills::of(makers);
            Ok((
                Command::Match {
                    taker,
                    fill,
                    makers,
                },
                rest,
            ))
        }
        Err(fault) => Err(fault),
    }
}

/// The body of a lapse, and the bytes behind it.
#[tactic(auto, unfolding(crate::specs::Reading::next_lapse))]
fn lapse_of(bytes: &[u8]) -> Result<(Command, &[u8]), ReadFault>
    ensures { Gives (λ x. (x.0, x.1.now)) result (next_lapse bytes.now) }
{
    let (order, rest) = u32_of(bytes)?;
    let order = OrderId(order);
    Ok((Command::Lapse { order }, rest))
}

/// The body of the kind of a number from 12 on, and the bytes behind it.
#[tactic(auto, unfolding(crate::specs::Reading::next_order_body, crate::specs::Reading::next_bump))]
pub(crate) fn order_body_of(
    alloc: Global,
    kind: u8,
    bytes: &[u8],
) -> Result<(Command, &[u8]), ReadFault>
    ensures { Gives (λ x. (x.0, x.1.now)) result (next_order_body kind bytes.now) }
{
    match kind {
        12 => market_of(bytes),
        13 => place_of(bytes),
        14 => cancel_of(bytes),
        15 => Ok((Command::Bump, bytes)),
        16 => match_of(alloc, bytes),
        17 => lapse_of(bytes),
        _ => Err(ReadFault::NoAct),
    }
}
