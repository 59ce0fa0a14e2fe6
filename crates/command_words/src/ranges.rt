//! The ranges of a command's members.

ghost use Rattle.std.specs.Prelude.{◌≡◌};
ghost use Rattle.std.specs.List.{list_all};
ghost use Rattle.collection_keys.specs.Collections.{is_ascending};
ghost use Rattle.command_words.specs.Command.{condition_in_ranges, in_ranges, is_act_form, may_be_act, order_in_ranges};
ghost use Rattle.command_words.specs.Ranges.{is_account, is_amount, is_bits, is_condition, is_event, is_fill, is_key, is_makers, is_order, is_pair, is_payout, is_payouts, is_sets, is_short, is_slots};

use crate::command::Command;
use collection_keys::MAX_PAIRS;
use condition_sets::{
    AccountId, ConditionId, EventId, MAX_AMOUNT, MAX_CONDITION, MAX_SLOTS, MIN_SLOTS, OrderId,
};

/// The greatest number of a question, an expiry or a nonce.
pub const MAX_NUMBER: u64 = 1_000_000_000_000_000;

/// The most sets that a command may name, and the most numerators of a report.
pub const MAX_SETS: usize = 32;

/// The most pairs that a key may name. A key of more than [`MAX_PAIRS`] is refused as too deep.
pub const MAX_KEY: usize = 32;

/// The greatest numerator of a report.
pub const MAX_PAYOUT: u32 = 1_000_000;

/// The fewest questions of an event.
pub const MIN_QUESTIONS: u8 = 2;

/// The most questions of an event.
pub const MAX_QUESTIONS: u8 = 32;

/// The most makers of a match.
pub const MAX_MAKERS: usize = 16;

/// The highest fee of an event's conversions, in basis points.
pub const MAX_EVENT_FEE: u16 = 10_000;

/// The highest fee of an order, in basis points.
pub const MAX_ORDER_FEE: u16 = 1_000;

impl Command {
    /// Whether each member lies in its range. Of types that have no number outside their range nothing is asked; a
    /// key has up to [`MAX_KEY`] pairs, with the conditions in strictly ascending order.
    pub fn in_ranges(&self) -> bool
        ensures { result ≡ in_ranges self.now }
    {
        match self {
            Command::Deposit { to, amount } => is_account(*to) && is_amount(*amount),
            Command::Withdraw { amount } => is_amount(*amount),
            Command::Move { to, key, amount } => {
                is_account(*to) && is_key(key.as_slice()) && is_amount(*amount)
            }
            Command::Split {
                parent,
                condition,
                sets,
                amount,
            } => {
                is_key(parent.as_slice())
                    && is_condition(*condition)
                    && is_sets(sets.as_slice())
                    && is_amount(*amount)
            }
            Command::Merge {
                parent,
                condition,
                sets,
                amount,
            } => {
                is_key(parent.as_slice())
                    && is_condition(*condition)
                    && is_sets(sets.as_slice())
                    && is_amount(*amount)
            }
            Command::Balance { of, key } => is_account(*of) && is_key(key.as_slice()),
            _ => self.condition_in_ranges(),
        }
    }

    /// The same of a command about conditions, events and markets.
    fn condition_in_ranges(&self) -> bool
        ensures { result ≡ condition_in_ranges self.now }
    {
        match self {
            Command::Prepare {
                oracle,
                question,
                slots,
            } => is_account(*oracle) && *question <= MAX_NUMBER && is_slots(*slots),
            Command::Event {
                oracle,
                questions,
                fee,
            } => {
                is_account(*oracle)
                    && *questions >= MIN_QUESTIONS
                    && *questions <= MAX_QUESTIONS
                    && *fee <= MAX_EVENT_FEE
            }
            Command::Report { condition, payouts } => {
                is_condition(*condition) && is_payouts(payouts.as_slice())
            }
            Command::Answer {
                event,
                question,
                ..
            } => is_event(*event) && *question < MAX_QUESTIONS,
            Command::Redeem {
                parent,
                condition,
                sets,
            } => {
                is_key(parent.as_slice()) && is_condition(*condition) && is_sets(sets.as_slice())
            }
            Command::Convert { event, set, amount } => {
                is_event(*event) && is_bits(*set) && is_amount(*amount)
            }
            Command::Market { condition } => is_condition(*condition),
            _ => self.order_in_ranges(),
        }
    }

    /// The same of a command about orders and matches. The others have no number that may be out of its range.
    fn order_in_ranges(&self) -> bool
        ensures { result ≡ order_in_ranges self.now }
    {
        match self {
            Command::Place {
                market,
                set,
                side: _,
                making,
                taking,
                expires,
                nonce,
                fee,
            } => {
                // Any set of one byte is in its range; of an act it is 1 or 2.
                let _bits = *set;
                is_condition(*market)
                    && is_amount(*making)
                    && is_amount(*taking)
                    && *expires <= MAX_NUMBER
                    && *nonce <= MAX_NUMBER
                    && *fee <= MAX_ORDER_FEE
            }
            Command::Cancel { order } => is_order(*order),
            Command::Match {
                taker,
                fill,
                makers,
            } => is_order(*taker) && is_amount(*fill) && is_makers(makers.as_slice()),
            Command::Lapse { order } => is_order(*order),
            Command::Cross { market } => is_condition(*market),
            Command::Order { order } => is_order(*order),
            _ => true,
        }
    }

    /// Whether an act's command may have this form: a key has at most [`MAX_PAIRS`] pairs, and the set of a `place`
    /// is 1 or 2.
    fn is_act_form(&self) -> bool
        ensures { result ≡ is_act_form self.now }
    {
        match self {
            Command::Move { key, .. } => is_short(key.as_slice()),
            Command::Split { parent, .. } => is_short(parent.as_slice()),
            Command::Merge { parent, .. } => is_short(parent.as_slice()),
            Command::Redeem { parent, .. } => is_short(parent.as_slice()),
            Command::Place { set, .. } => *set == 1 || *set == 2,
            _ => true,
        }
    }

    /// Whether the command may be that of an act: one that makes an act, with its members in their ranges, keys of at
    /// most [`MAX_PAIRS`] pairs, and 1 or 2 as the set of a `place`.
    pub fn may_be_act(&self) -> bool
        ensures { result ≡ may_be_act self.now }
    {
        self.makes_act() && self.in_ranges() && self.is_act_form()
    }
}

// Any account, condition, event, order and bits are in their ranges, as their types say.

fn is_account(account: AccountId) -> bool
    ensures { result ≡ is_account account }
{
    let _number = account.get();
    true
}

fn is_condition(condition: ConditionId) -> bool
    ensures { result ≡ is_condition condition }
{
    let _number = condition.get();
    true
}

fn is_event(event: EventId) -> bool
    ensures { result ≡ is_event event }
{
    let _number = event.get();
    true
}

fn is_order(order: OrderId) -> bool
    ensures { result ≡ is_order order }
{
    let _number = order.get();
    true
}

fn is_bits(_bits: u32) -> bool
    ensures { result ≡ is_bits _bits }
{
    true
}

fn is_amount(amount: u64) -> bool
    ensures { result ≡ is_amount amount }
{
    amount >= 1 && amount <= MAX_AMOUNT
}

fn is_slots(slots: u8) -> bool
    ensures { result ≡ is_slots slots }
{
    slots >= MIN_SLOTS && slots <= MAX_SLOTS
}

/// Whether a key is one: up to [`MAX_KEY`] pairs of a condition's number and bits, the conditions ascending.
fn is_key(key: &[(u16, u32)]) -> bool
    ensures { result ≡ is_key key.now }
{
    are_pairs(key) && key.len() <= MAX_KEY && is_ascending(key)
}

fn are_pairs(key: &[(u16, u32)]) -> bool
    ensures { result ≡ list_all is_pair key.now }
{
    key.iter().all(|pair| {
        let _bits = pair.1;
        pair.0 <= MAX_CONDITION
    })
}

/// Whether each condition is above the one before it.
fn is_ascending(key: &[(u16, u32)]) -> bool
    ensures { result ≡ is_ascending key.now }
{
    match key {
        [] => true,
        [first, rest @ ..] => match rest.first() {
            Some(next) => first.0 < next.0 && is_ascending(rest),
            None => true,
        },
    }
}

/// Whether a key has as few pairs as the collection of an act.
fn is_short(key: &[(u16, u32)]) -> bool
    ensures { result ≡ is_short key.now }
{
    key.len() <= MAX_PAIRS
}

fn is_sets(sets: &[u32]) -> bool
    ensures { result ≡ is_sets sets.now }
{
    are_bits(sets) && !sets.is_empty() && sets.len() <= MAX_SETS
}

fn are_bits(sets: &[u32]) -> bool
    ensures { result ≡ list_all is_bits sets.now }
{
    sets.iter().all(|set| is_bits(*set))
}

fn is_payouts(payouts: &[u32]) -> bool
    ensures { result ≡ is_payouts payouts.now }
{
    are_numerators(payouts) && !payouts.is_empty() && payouts.len() <= MAX_SETS
}

fn are_numerators(payouts: &[u32]) -> bool
    ensures { result ≡ list_all is_payout payouts.now }
{
    payouts.iter().all(|payout| *payout <= MAX_PAYOUT)
}

fn is_makers(makers: &[(OrderId, u64)]) -> bool
    ensures { result ≡ is_makers makers.now }
{
    are_fills(makers) && !makers.is_empty() && makers.len() <= MAX_MAKERS
}

fn are_fills(makers: &[(OrderId, u64)]) -> bool
    ensures { result ≡ list_all is_fill makers.now }
{
    makers
        .iter()
        .all(|maker| is_order(maker.0) && is_amount(maker.1))
}
