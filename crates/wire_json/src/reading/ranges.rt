//! From numbers of their kind to the values that a command is made of. `OutOfRange` exactly where one is none.

ghost use Rattle.std.specs.Prelude.{◌^◌, nat_lt};
ghost use Rattle.std.specs.List.{list_all};
ghost use Rattle.command_words.specs.Command.{in_ranges};
ghost use Rattle.command_words.specs.Ranges.{is_account, is_order, is_condition, is_event, is_bits, is_byte, is_amount, is_pair, is_payout, is_fill};
ghost use Rattle.wire_json.specs.Request.{ReadsAs, in_range};

use command_words::{Command, LineFault, MAX_PAYOUT};
use condition_sets::{
    AccountId, Bits, ConditionId, EventId, Fills, ListOf, MAX_AMOUNT, OrderId, Pairs,
};
use std::alloc::Global;

/// The command, where its members are in their ranges.
pub fn ranged(command: Command) -> Result<Command, LineFault>
    ensures { ReadsAs result (in_range in_ranges command) }
{
    if command.in_ranges() {
        Ok(command)
    } else {
        Err(LineFault::OutOfRange)
    }
}

/// The account of a number.
pub fn account_of(number: u64) -> Result<AccountId, LineFault>
    ensures { ReadsAs result (in_range is_account number) }
{
    match u16::try_from(number) {
        Ok(number) => Ok(AccountId(number)),
        Err(_) => Err(LineFault::OutOfRange),
    }
}

/// The order of a number.
pub fn order_of(number: u64) -> Result<OrderId, LineFault>
    ensures { ReadsAs result (in_range is_order number) }
{
    match u32::try_from(number) {
        Ok(number) => Ok(OrderId(number)),
        Err(_) => Err(LineFault::OutOfRange),
    }
}

/// The condition of a number.
pub fn condition_of(number: u64) -> Result<ConditionId, LineFault>
    ensures { ReadsAs result (in_range is_condition number) }
{
    match u16::try_from(number) {
        Ok(number) => match ConditionId::new(number) {
            Some(condition) => Ok(condition),
            None => Err(LineFault::OutOfRange),
        },
        Err(_) => Err(LineFault::OutOfRange),
    }
}

/// The event of a number.
pub fn event_of(number: u64) -> Result<EventId, LineFault>
    ensures { ReadsAs result (in_range is_event number) }
{
    match u16::try_from(number) {
        Ok(number) => match EventId::new(number) {
            Some(event) => Ok(event),
            None => Err(LineFault::OutOfRange),
        },
        Err(_) => Err(LineFault::OutOfRange),
    }
}

/// The bits of a set.
pub fn bits_of(number: u64) -> Result<u32, LineFault>
    ensures { ReadsAs result (in_range is_bits number) }
{
    match u32::try_from(number) {
        Ok(bits) => Ok(bits),
        Err(_) => Err(LineFault::OutOfRange),
    }
}

/// A number of eight bits.
pub fn byte_of(number: u64) -> Result<u8, LineFault>
    ensures { ReadsAs result (in_range is_byte number) }
{
    match u8::try_from(number) {
        Ok(byte) => Ok(byte),
        Err(_) => Err(LineFault::OutOfRange),
    }
}

/// A fee in basis points: a number of sixteen bits.
pub fn fee_of(number: u64) -> Result<u16, LineFault>
    ensures { ReadsAs result (in_range (λ fee. nat_lt fee (2 ^ 16)) number) }
{
    match u16::try_from(number) {
        Ok(fee) => Ok(fee),
        Err(_) => Err(LineFault::OutOfRange),
    }
}

/// The pairs of a key, whatever their number and order.
pub fn key_of(alloc: Global, pairs: &[(u64, u64)]) -> Result<Pairs, LineFault>
    ensures { ReadsAs result (in_range (list_all is_pair) pairs.now) }
{
    let mut key = Pairs::new(alloc);
    for pair in pairs {
        let typed = pair_of(*pair)?;
        key.push(typed)?;
    }
    Ok(key)
}

fn pair_of(pair: (u64, u64)) -> Result<(u16, u32), LineFault>
    ensures { ReadsAs result (in_range is_pair pair) }
{
    let condition = condition_of(pair.0)?;
    let bits = bits_of(pair.1)?;
    Ok((condition.get(), bits))
}

/// Sets as bits, whatever their number.
pub fn sets_of(alloc: Global, numbers: &[u64]) -> Result<Bits, LineFault>
    ensures { ReadsAs result (in_range (list_all is_bits) numbers.now) }
{
    let mut sets = Bits::new(alloc);
    for number in numbers {
        let bits = bits_of(*number)?;
        sets.push(bits)?;
    }
    Ok(sets)
}

/// The numerators of a report, whatever their number.
pub fn payouts_of(alloc: Global, numbers: &[u64]) -> Result<Bits, LineFault>
    ensures { ReadsAs result (in_range (list_all is_payout) numbers.now) }
{
    let mut payouts = Bits::new(alloc);
    for number in numbers {
        let payout = payout_of(*number)?;
        payouts.push(payout)?;
    }
    Ok(payouts)
}

fn payout_of(number: u64) -> Result<u32, LineFault>
    ensures { ReadsAs result (in_range is_payout number) }
{
    match u32::try_from(number) {
        Ok(payout) if payout <= MAX_PAYOUT => Ok(payout),
        _ => Err(LineFault::OutOfRange),
    }
}

/// Makers' orders with their fills, whatever their number.
pub fn makers_of(alloc: Global, pairs: &[(u64, u64)]) -> Result<Fills, LineFault>
    ensures { ReadsAs result (in_range (list_all is_fill) pairs.now) }
{
    let mut makers = Fills::new(alloc);
    for pair in pairs {
        let maker = maker_of(*pair)?;
        makers.push(maker)?;
    }
    Ok(makers)
}

fn maker_of(pair: (u64, u64)) -> Result<(OrderId, u64), LineFault>
    ensures { ReadsAs result (in_range is_fill pair) }
{
    let order = order_of(pair.0)?;
    let fill = pair.1;
    if fill >= 1 && fill <= MAX_AMOUNT {
        Ok((order, fill))
    } else {
        Err(LineFault::OutOfRange)
    }
}
