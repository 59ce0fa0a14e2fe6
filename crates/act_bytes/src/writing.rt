ghost use Rattle.std.specs.Prelude.{◌≡◌, ◌+◌, ◌≤◌, ◌<◌, true, [], ◌∷◌, ◌++◌, length, take};
ghost use Rattle.byteorder.specs.Endian.{big_bytes};
ghost use Rattle.command_words.specs.Command.{may_be_act};
ghost use Rattle.act_bytes.specs.Spelling.{kind_of, key_bytes, sets_bytes, answer_byte, side_byte, order_bytes, condition_bytes, body_bytes, Spells};
ghost use Rattle.act_bytes.specs.Bodies.{HasRoom};
ghost use Rattle.act_bytes.specs.Puts.{Puts};
ghost use Rattle.act_bytes.specs.declared.writing.TheConstants.{MAX_ACT};

use crate::pieces::{put_fills, put_key, put_sets, put_u8, put_u16, put_u32, put_u64};
use command_words::{Act, Command};
use condition_sets::{ConditionId, EventId};
use order_rules::Side;

/// The most bytes of an act.
pub const MAX_ACT: usize = 512;

/// The number of a command's kind.
fn kind_of(command: &Command) -> u8
    ensures { result ≡ kind_of command.now }
{
    match command {
        Command::Deposit { .. } => 1,
        Command::Withdraw { .. } => 2,
        Command::Move { .. } => 3,
        Command::Prepare { .. } => 4,
        Command::Event { .. } => 5,
        Command::Split { .. } => 6,
        Command::Merge { .. } => 7,
        Command::Report { .. } => 8,
        Command::Answer { .. } => 9,
        Command::Redeem { .. } => 10,
        Command::Convert { .. } => 11,
        Command::Market { .. } => 12,
        Command::Place { .. } => 13,
        Command::Cancel { .. } => 14,
        Command::Bump => 15,
        Command::Match { .. } => 16,
        Command::Lapse { .. } => 17,
        Command::Cross { .. } => 18,
        Command::Balance { .. } => 19,
        Command::Order { .. } => 20,
        Command::Vault => 21,
    }
}

/// The byte of an answer.
fn answer_byte(yes: bool) -> u8
    ensures { result ≡ answer_byte yes }
{
    if yes { 1 } else { 0 }
}

/// The byte of a side.
fn side_byte(side: Side) -> u8
    ensures { result ≡ side_byte side }
{
    match side {
        Side::Buy => 0,
        Side::Sell => 1,
    }
}

/// Writes a parent, a condition and sets of it at a place, and tells the place behind them.
fn put_named(
    into: &mut [u8; MAX_ACT],
    at: usize,
    parent: &[(u16, u32)],
    condition: ConditionId,
    sets: &[u32],
) -> usize
    requires parents { length parent.now < 256 }
    requires few { length sets.now < 256 }
    requires room { at + length (key_bytes parent.now ++ big_bytes 2 condition ++ sets_bytes sets.now) ≤ MAX_ACT }
    ensures { Puts into.old at (key_bytes parent.now ++ big_bytes 2 condition ++ sets_bytes sets.now) into.new result }
{
    let end = put_key(into, at, parent);
    let end = put_u16(into, end, condition.get());
    put_sets(into, end, sets)
}

/// Writes the body of an answer at a place, and tells the place behind it.
fn put_answer(into: &mut [u8; MAX_ACT], at: usize, event: EventId, question: u8, yes: bool) -> usize
    requires { at + 4 ≤ MAX_ACT }
    ensures { Puts into.old at (big_bytes 2 event ++ question ∷ [] ++ answer_byte yes ∷ []) into.new result }
{
    let end = put_u16(into, at, event.get());
    let end = put_u8(into, end, question);
    put_u8(into, end, answer_byte(yes))
}

/// Writes the body of a conversion at a place, and tells the place behind it.
fn put_convert(into: &mut [u8; MAX_ACT], at: usize, event: EventId, set: u32, amount: u64) -> usize
    requires { at + 14 ≤ MAX_ACT }
    ensures { Puts into.old at (big_bytes 2 event ++ big_bytes 4 set ++ big_bytes 8 amount) into.new result }
{
    let end = put_u16(into, at, event.get());
    let end = put_u32(into, end, set);
    put_u64(into, end, amount)
}

/// Writes what stands behind the kinds of orders, 12 to 17, at a place, and tells the place behind it.
#[tactic(auto, unfolding(crate::specs::Spelling::order_bytes))]
fn put_order_body(into: &mut [u8; MAX_ACT], at: usize, command: &Command) -> usize
    requires fields { HasRoom command.now }
    requires room { at + length (order_bytes command.now) ≤ MAX_ACT }
    ensures { Puts into.old at (order_bytes command.now) into.new result }
{
    match command {
        Command::Market { condition } => put_u16(into, at, condition.get()),
        Command::Place {
            market,
            set,
            side,
            making,
            taking,
            expires,
            nonce,
            fee,
        } => {
            let end = put_u16(into, at, market.get());
            let end = put_u8(into, end, *set);
            let end = put_u8(into, end, side_byte(*side));
            let end = put_u64(into, end, *making);
            let end = put_u64(into, end, *taking);
            let end = put_u64(into, end, *expires);
            let end = put_u64(into, end, *nonce);
            put_u16(into, end, *fee)
        }
        Command::Cancel { order } => put_u32(into, at, order.get()),
        Command::Match {
            taker,
            fill,
            makers,
        } => {
            let end = put_u32(into, at, taker.get());
            let end = put_u64(into, end, *fill);
            put_fills(into, end, makers.as_slice())
        }
        Command::Lapse { order } => put_u32(into, at, order.get()),
        // Nothing stands behind a bump.
        _ => at,
    }
}

/// Writes what stands behind the kinds of conditions and of orders at a place, and tells the place behind it.
#[tactic(auto, unfolding(crate::specs::Spelling::condition_bytes))]
fn put_condition_body(into: &mut [u8; MAX_ACT], at: usize, command: &Command) -> usize
    requires fields { HasRoom command.now }
    requires room { at + length (condition_bytes command.now) ≤ MAX_ACT }
    ensures { Puts into.old at (condition_bytes command.now) into.new result }
{
    match command {
        Command::Split {
            parent,
            condition,
            sets,
            amount,
        } => {
            let end = put_named(into, at, parent.as_slice(), *condition, sets.as_slice());
            put_u64(into, end, *amount)
        }
        Command::Merge {
            parent,
            condition,
            sets,
            amount,
        } => {
            let end = put_named(into, at, parent.as_slice(), *condition, sets.as_slice());
            put_u64(into, end, *amount)
        }
        Command::Report { condition, payouts } => {
            let end = put_u16(into, at, condition.get());
            put_sets(into, end, payouts.as_slice())
        }
        Command::Answer {
            event,
            question,
            yes,
        } => put_answer(into, at, *event, *question, *yes),
        Command::Redeem {
            parent,
            condition,
            sets,
        } => { put_named(into, at, parent.as_slice(), *condition, sets.as_slice()) }
        Command::Convert { event, set, amount } => put_convert(into, at, *event, *set, *amount),
        _ => put_order_body(into, at, command),
    }
}

/// Writes what stands behind a command's kind at a place, and tells the place behind it.
#[tactic(auto, unfolding(crate::specs::Spelling::body_bytes))]
fn put_body(into: &mut [u8; MAX_ACT], at: usize, command: &Command) -> usize
    requires fields { HasRoom command.now }
    requires room { at + length (body_bytes command.now) ≤ MAX_ACT }
    ensures { Puts into.old at (body_bytes command.now) into.new result }
{
    match command {
        Command::Deposit { to, amount } => {
            let end = put_u16(into, at, to.get());
            put_u64(into, end, *amount)
        }
        Command::Withdraw { amount } => put_u64(into, at, *amount),
        Command::Move { to, key, amount } => {
            let end = put_u16(into, at, to.get());
            let end = put_key(into, end, key.as_slice());
            put_u64(into, end, *amount)
        }
        Command::Prepare {
            oracle,
            question,
            slots,
        } => {
            let end = put_u16(into, at, oracle.get());
            let end = put_u64(into, end, *question);
            put_u8(into, end, *slots)
        }
        Command::Event {
            oracle,
            questions,
            fee,
        } => {
            let end = put_u16(into, at, oracle.get());
            let end = put_u8(into, end, *questions);
            put_u16(into, end, *fee)
        }
        _ => put_condition_body(into, at, command),
    }
}

/// Writes the spelling of an act at the front of the piece, and tells how many bytes it has. It takes no memory.
pub fn write_act(act: &Act, into: &mut [u8; MAX_ACT]) -> usize
    requires { may_be_act act.now.command ≡ true }
    ensures spells { Spells (take result into.new) act.now }
    ensures some { 1 ≤ result }
    ensures within { result ≤ MAX_ACT }
{
    let end = put_u64(into, 0, act.moment);
    let end = put_u16(into, end, act.account.get());
    let end = put_u8(into, end, kind_of(&act.command));
    put_body(into, end, &act.command)
}
