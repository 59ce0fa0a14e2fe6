//! The bodies of the kinds 1 to 5, field by field: cash, positions, and what is prepared.

ghost use Rattle.std.specs.Prelude.{◌≡◌};
ghost use Rattle.act_bytes.specs.Reading.{Gives, next_deposit, next_withdraw, next_move, next_prepare, next_event_body, next_body};

use crate::condition_bodies::condition_body_of;
use crate::fault::ReadFault;
use crate::lists::key_of;
use crate::numbers::{u8_of, u16_of, u64_of};
use command_words::Command;
use condition_sets::{AccountId, Pairs};
use std::alloc::Global;

/// The body of a deposit, and the bytes behind it.
#[tactic(auto, unfolding(crate::specs::Reading::next_deposit))]
fn deposit_of(bytes: &[u8]) -> Result<(Command, &[u8]), ReadFault>
    ensures { Gives (λ x. (x.0, x.1.now)) result (next_deposit bytes.now) }
{
    let (to, rest) = u16_of(bytes)?;
    let (amount, rest) = u64_of(rest)?;
    let to = AccountId(to);
    Ok((Command::Deposit { to, amount }, rest))
}

/// The body of a withdrawal, and the bytes behind it.
#[tactic(auto, unfolding(crate::specs::Reading::next_withdraw))]
fn withdraw_of(bytes: &[u8]) -> Result<(Command, &[u8]), ReadFault>
    ensures { Gives (λ x. (x.0, x.1.now)) result (next_withdraw bytes.now) }
{
    let (amount, rest) = u64_of(bytes)?;
    Ok((Command::Withdraw { amount }, rest))
}

/// The body of a move, and the bytes behind it.
#[tactic(auto, unfolding(crate::specs::Reading::next_move))]
fn move_of(alloc: Global, bytes: &[u8]) -> Result<(Command, &[u8]), ReadFault>
    ensures { Gives (λ x. (x.0, x.1.now)) result (next_move bytes.now) }
{
    let (to, rest) = u16_of(bytes)?;
    let (key, rest) = key_of(alloc, rest)?;
    let (amount, rest) = u64_of(rest)?;
    let to = AccountId(to);
    let key = Pairs::of(key);
    Ok((Command::Move { to, key, amount }, rest))
}

/// The body of a preparation, and the bytes behind it.
#[tactic(auto, unfolding(crate::specs::Reading::next_prepare))]
fn prepare_of(bytes: &[u8]) -> Result<(Command, &[u8]), ReadFault>
    ensures { Gives (λ x. (x.0, x.1.now)) result (next_prepare bytes.now) }
{
    let (oracle, rest) = u16_of(bytes)?;
    let (question, rest) = u64_of(rest)?;
    let (slots, rest) = u8_of(rest)?;
    let oracle = AccountId(oracle);
    Ok((
        Command::Prepare {
            oracle,
            question,
            slots,
        },
        rest,
    ))
}

/// The body of an event, and the bytes behind it.
#[tactic(auto, unfolding(crate::specs::Reading::next_event_body))]
fn event_body_of(bytes: &[u8]) -> Result<(Command, &[u8]), ReadFault>
    ensures { Gives (λ x. (x.0, x.1.now)) result (next_event_body bytes.now) }
{
    let (oracle, rest) = u16_of(bytes)?;
    let (questions, rest) = u8_of(rest)?;
    let (fee, rest) = u16_of(rest)?;
    let oracle = AccountId(oracle);
    Ok((
        Command::Event {
            oracle,
            questions,
            fee,
        },
        rest,
    ))
}

/// The body of the kind of a number, and the bytes behind it.
#[tactic(auto, unfolding(crate::specs::Reading::next_body))]
pub(crate) fn body_of(alloc: Global, kind: u8, bytes: &[u8]) -> Result<(Command, &[u8]), ReadFault>
    ensures { Gives (λ x. (x.0, x.1.now)) result (next_body kind bytes.now) }
{
    match kind {
        1 => deposit_of(bytes),
        2 => withdraw_of(bytes),
        3 => move_of(alloc, bytes),
        4 => prepare_of(bytes),
        5 => event_body_of(bytes),
        _ => condition_body_of(alloc, kind, bytes),
    }
}
