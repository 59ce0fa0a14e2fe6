//! What a part is charged.

ghost use Rattle.std.specs.Prelude.{◌≡◌, ◌-◌, ◌*◌, ◌/◌, ◌≤◌};
ghost use Rattle.condition_sets.specs.declared.amount.TheConstants.{MAX_AMOUNT};
ghost use Rattle.fee_rules.specs.Fees.{fee_of};
ghost use Rattle.fee_rules.specs.declared.fees.TheConstants.{MAX_TOKENS};
ghost use Rattle.match_kinds.specs.Matching.{IsPart, maker_fee, taking_by, tokens_by};
ghost use Rattle.order_rules.specs.Prices.{price_by};
ghost use Rattle.order_rules.specs.declared.prices.TheConstants.{ONE};

use crate::part::{Part, taking_by};
use fee_rules::fee;
use order_rules::{ONE, Side, price};

// The fee of a maker, at its own price. It is at most what the maker gets.
pub(crate) fn maker_fee(m: &Part) -> u64
    requires part { IsPart m.now }

    ensures value { result ≡ maker_fee m.now }
    ensures within { result ≤ taking_by m.now }
    ensures amount { result ≤ MAX_AMOUNT }
{
    let side = m.limit.side();
    let tokens = tokens(side, m.fill, taking_by(m));
    fee(m.rate, tokens, price(&m.limit), side)
}

// The fee of a taker, at what it paid for what it got. It is at most what the taker got.
pub(crate) fn taker_fee(taker: &Part, refund: u64, got: u64) -> u64
    requires part { IsPart taker.now }
    requires got { got ≤ MAX_TOKENS }

    ensures value { let made = taker.now.fill - refund in let side = taker.now.limit.side in result ≡ fee_of side taker.now.rate (tokens_by side made got) (price_by side made got) }
    ensures within { result ≤ got }
{
    let side = taker.limit.side();
    // It is in its range, and what the taker paid is within it.
    let _most = taker.limit.making();
    let made = taker.fill.saturating_sub(refund);
    let price = price_paid(side, made, got);
    fee(taker.rate, tokens(side, made, got), price, side)
}

// How many tokens change hands where a side pays so much for so much.
fn tokens(side: Side, paid: u64, got: u64) -> u64
    ensures { result ≡ tokens_by side paid got }
{
    match side {
        Side::Buy => got,
        Side::Sell => paid,
    }
}

// The cash of a token where a side pays so much for so much, in parts of `ONE`, and 0 where it is of none.
fn price_paid(side: Side, paid: u64, got: u64) -> u128
    ensures { result ≡ price_by side paid got }
{
    match side {
        Side::Buy => parts_of_one(paid, got),
        Side::Sell => parts_of_one(got, paid),
    }
}

// So much cash for so many tokens.
fn parts_of_one(cash: u64, tokens: u64) -> u128
    ensures { result ≡ cash * ONE / tokens }
{
    if tokens == 0 {
        return 0;
    }
    u128::from(cash) * ONE / u128::from(tokens)
}
