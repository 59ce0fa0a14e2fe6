ghost use Rattle.std.specs.Prelude.{◌≡◌};
ghost use Rattle.std.specs.Int.{w16, w32, w64};
ghost use Rattle.command_words.specs.Ranges.{is_condition, is_event};
ghost use Rattle.act_bytes.specs.Reading.{Gives, first_byte, next_number, passed, next_answer, next_side};

use crate::fault::ReadFault;
use condition_sets::{ConditionId, EventId};
use order_rules::Side;

/// The first byte, and those behind it.
pub(crate) fn u8_of(bytes: &[u8]) -> Result<(u8, &[u8]), ReadFault>
    ensures { Gives (λ x. (x.0, x.1.now)) result (first_byte bytes.now) }
{
    match bytes {
        [] => Err(ReadFault::NoAct),
        [first, rest @ ..] => Ok((*first, rest)),
    }
}

/// The number in the first two bytes, and the bytes behind it.
pub(crate) fn u16_of(bytes: &[u8]) -> Result<(u16, &[u8]), ReadFault>
    ensures { Gives (λ x. (x.0, x.1.now)) result (next_number w16 bytes.now) }
{
    if bytes.len() < 2 {
        return Err(ReadFault::NoAct);
    }
    let (front, rest) = bytes.split_at(2);
    let number = u16::from_be_bytes([front[0], front[1]]);
    Ok((number, rest))
}

/// The number in the first four bytes, and the bytes behind it.
pub(crate) fn u32_of(bytes: &[u8]) -> Result<(u32, &[u8]), ReadFault>
    ensures { Gives (λ x. (x.0, x.1.now)) result (next_number w32 bytes.now) }
{
    if bytes.len() < 4 {
        return Err(ReadFault::NoAct);
    }
    let (front, rest) = bytes.split_at(4);
    let number = u32::from_be_bytes([front[0], front[1], front[2], front[3]]);
    Ok((number, rest))
}

/// The number in the first eight bytes, and the bytes behind it.
pub(crate) fn u64_of(bytes: &[u8]) -> Result<(u64, &[u8]), ReadFault>
    ensures { Gives (λ x. (x.0, x.1.now)) result (next_number w64 bytes.now) }
{
    if bytes.len() < 8 {
        return Err(ReadFault::NoAct);
    }
    let (front, rest) = bytes.split_at(8);
    let number = u64::from_be_bytes([
        front[0], front[1], front[2], front[3], front[4], front[5], front[6], front[7],
    ]);
    Ok((number, rest))
}

/// The condition of a number.
pub(crate) fn condition_of(number: u16) -> Result<ConditionId, ReadFault>
    ensures { Gives (λ condition. condition) result (passed is_condition number) }
{
    match ConditionId::new(number) {
        Some(condition) => Ok(condition),
        None => Err(ReadFault::NoAct),
    }
}

/// The event of a number.
pub(crate) fn event_of(number: u16) -> Result<EventId, ReadFault>
    ensures { Gives (λ event. event) result (passed is_event number) }
{
    match EventId::new(number) {
        Some(event) => Ok(event),
        None => Err(ReadFault::NoAct),
    }
}

/// The answer in the first byte, and the bytes behind it.
pub(crate) fn answer_of(bytes: &[u8]) -> Result<(bool, &[u8]), ReadFault>
    ensures { Gives (λ x. (x.0, x.1.now)) result (next_answer bytes.now) }
{
    let (number, rest) = u8_of(bytes)?;
    match number {
        0 => Ok((false, rest)),
        1 => Ok((true, rest)),
        _ => Err(ReadFault::NoAct),
    }
}

/// The side in the first byte, and the bytes behind it.
pub(crate) fn side_of(bytes: &[u8]) -> Result<(Side, &[u8]), ReadFault>
    ensures { Gives (λ x. (x.0, x.1.now)) result (next_side bytes.now) }
{
    let (number, rest) = u8_of(bytes)?;
    match number {
        0 => Ok((Side::Buy, rest)),
        1 => Ok((Side::Sell, rest)),
        _ => Err(ReadFault::NoAct),
    }
}
