//! The rules on the orders that a command names, order by order: of a match the taker is at place 0, and the makers are at
//! 1, 2 and so on.

ghost use Rattle.std.specs.Prelude.{◌≡◌, ◌==◌, ◌&&◌, ◌+◌, ◌≤◌, [], ◌∷◌, length, is_some, IfSome};
ghost use Rattle.std.specs.List.{list_any};
ghost use Rattle.command_words.specs.declared.ranges.TheConstants.{MAX_MAKERS};
ghost use Rattle.order_rules.specs.Kinds.{AreSidesOf};
ghost use Rattle.book_propose.specs.Candidates.{is_crossing};
ghost use Rattle.settle_core.specs.OrderRules.{at_first, by_rule, has_expired, is_apart, is_live, kind_with, match_refusals, never_placed, own, repeated_from, rest_of, uncrossed, unpaired, where_};
ghost use Rattle.settle_core.specs.Orders.{nonce, order_state};
ghost use Rattle.settle_core.specs.Rules.{rule_of};
ghost use Rattle.settle_core.specs.Verdict.{first_some};

use crate::exchange::Exchange;
use command_words::Refusal;
use condition_sets::OrderId;
use order_rules::{Limit, MatchKind, crosses, kind, price};
use order_table::{OrderState, Placed};

/// What an order of a match has to be.
#[derive(Clone, Copy)]
pub(crate) enum Rule {
    /// It is open.
    Open,
    /// It hasn't expired.
    Unexpired,
    /// Its nonce is its maker's present one.
    Present,
    /// It is of another account than the taker.
    OfOther,
    /// It is of the taker's market, and can be matched with it.
    Paired,
    /// Its price crosses the taker's.
    Crossing,
    /// As much as its fill is left of it.
    Left,
}

/// What the rules look at beside the order: the taker of the match, and its moment.
#[derive(Clone, Copy)]
pub(crate) struct Round {
    pub(crate) taker: Placed,
    pub(crate) moment: u64,
}

impl Exchange {
    /// The refusal of a match for its orders: the first of nine causes, at its first place.
    pub(crate) fn match_refusal(
        &self,
        taker: OrderId,
        fill: u64,
        makers: &[(OrderId, u64)],
        now: u64,
    ) -> Option<Refusal>
        requires { length makers.now ≤ MAX_MAKERS }

        ensures { result ≡ first_some (match_refusals (order_state self.now.history) (nonce self.now.history) now taker fill makers.now) }
    {
        let Some(order) = self.orders.get(taker) else {
            return Some(Refusal::NoOrder { place: 0 });
        };
        if let Some(refusal) = self.first_unplaced(1, makers) {
            return Some(refusal);
        }
        let round = Round {
            taker: order.placed,
            moment: now,
        };
        if let Some(refusal) = self.first_of_all(Rule::Open, &round, taker, fill, makers) {
            return Some(refusal);
        }
        if let Some(refusal) = self.first_of_all(Rule::Unexpired, &round, taker, fill, makers) {
            return Some(refusal);
        }
        if let Some(refusal) = self.first_of_all(Rule::Present, &round, taker, fill, makers) {
            return Some(refusal);
        }
        if let Some(refusal) = self.maker_refusal(&round, makers) {
            return Some(refusal);
        }
        self.first_of_all(Rule::Left, &round, taker, fill, makers)
    }

    /// The refusal of the makers by their taker: the first of four causes, at its first place.
    fn maker_refusal(&self, round: &Round, makers: &[(OrderId, u64)]) -> Option<Refusal>
        requires { length makers.now ≤ MAX_MAKERS }

        ensures { let known = order_state self.now.history in
            result ≡ first_some (at_first known (own round.now.taker) 1 makers.now ∷ repeated_from [] 1 makers.now ∷ at_first known (unpaired round.now.taker) 1 makers.now
            ∷ at_first known (uncrossed round.now.taker) 1 makers.now ∷ []) }
    {
        if let Some(refusal) = self.first_refused(Rule::OfOther, round, 1, makers) {
            return Some(refusal);
        }
        if let Some(refusal) = first_repeated(makers) {
            return Some(refusal);
        }
        if let Some(refusal) = self.first_refused(Rule::Paired, round, 1, makers) {
            return Some(refusal);
        }
        self.first_refused(Rule::Crossing, round, 1, makers)
    }

    /// What a rule refuses of a taker and its makers, at its first place.
    fn first_of_all(
        &self,
        rule: Rule,
        round: &Round,
        taker: OrderId,
        fill: u64,
        makers: &[(OrderId, u64)],
    ) -> Option<Refusal>
        requires { length makers.now ≤ MAX_MAKERS }

        ensures { result ≡ at_first (order_state self.now.history) (rule_of (nonce self.now.history) round.now rule) 0 ((taker, fill) ∷ makers.now) }
    {
        match self.refusal_at(rule, round, 0, taker, fill) {
            Some(refusal) => Some(refusal),
            None => self.first_refused(rule, round, 1, makers),
        }
    }

    /// What a rule refuses of some orders, at its first place, counted from this one on.
    fn first_refused(
        &self,
        rule: Rule,
        round: &Round,
        place: u8,
        named: &[(OrderId, u64)],
    ) -> Option<Refusal>
        requires { place + length named.now ≤ MAX_MAKERS + 1 }

        ensures { result ≡ at_first (order_state self.now.history) (rule_of (nonce self.now.history) round.now rule) place named.now }
    {
        match named {
            [] => None,
            [first, rest @ ..] => match self.refusal_at(rule, round, place, first.0, first.1) {
                Some(refusal) => Some(refusal),
                None => self.first_refused(rule, round, place + 1, rest),
            },
        }
    }

    /// The first of some orders that was never placed, counted from this place on.
    fn first_unplaced(&self, place: u8, named: &[(OrderId, u64)]) -> Option<Refusal>
        requires { place + length named.now ≤ MAX_MAKERS + 1 }

        ensures { result ≡ never_placed (order_state self.now.history) place named.now }
    {
        match named {
            [] => None,
            [first, rest @ ..] => match self.orders.get(first.0) {
                Some(_) => self.first_unplaced(place + 1, rest),
                None => Some(Refusal::NoOrder { place }),
            },
        }
    }

    /// What a rule refuses of the order at a place, where it was placed.
    fn refusal_at(
        &self,
        rule: Rule,
        round: &Round,
        place: u8,
        order: OrderId,
        fill: u64,
    ) -> Option<Refusal>
        ensures { result ≡ by_rule (rule_of (nonce self.now.history) round.now rule) place fill (order_state self.now.history order) }
    {
        match self.orders.get(order) {
            Some(facts) => self.refusal_by(rule, round, place, fill, &facts),
            None => None,
        }
    }

    /// What a rule refuses of an order.
    fn refusal_by(
        &self,
        rule: Rule,
        round: &Round,
        place: u8,
        fill: u64,
        order: &OrderState,
    ) -> Option<Refusal>
        requires { order.now.filled ≤ order.now.placed.limit.making }

        ensures { result ≡ rule_of (nonce self.now.history) round.now rule place fill order.now }
    {
        let filled = order.filled;
        let placed = &order.placed;
        match rule {
            Rule::Open => refused(!order.is_open, Refusal::NotOpen { filled, place }),
            Rule::Unexpired => refused(
                has_expired(placed.expires, round.moment),
                Refusal::OrderExpired { place },
            ),
            Rule::Present => {
                let nonce = self.orders.nonce(placed.account);
                refused(placed.nonce != nonce, Refusal::NonceOld { nonce, place })
            }
            Rule::OfOther => refused(
                placed.account == round.taker.account,
                Refusal::SelfMatch { place },
            ),
            Rule::Paired => refused(!is_pair(&round.taker, placed), Refusal::WrongPair { place }),
            Rule::Crossing => refused(
                is_apart(&round.taker, placed),
                Refusal::NotCrossing {
                    maker: price(&placed.limit),
                    place,
                    taker: price(&round.taker.limit),
                },
            ),
            Rule::Left => {
                let remaining = left_of(order);
                refused(remaining < fill, Refusal::Overfill { place, remaining })
            }
        }
    }

    /// Whether an order is live at a moment.
    pub(crate) fn is_live(&self, order: &OrderState, now: u64) -> bool
        ensures { result ≡ is_live (nonce self.now.history) now order.now }
    {
        let placed = &order.placed;
        order.is_open
            && !has_expired(placed.expires, now)
            && placed.nonce == self.orders.nonce(placed.account)
    }
}

/// The refusal, where its condition holds.
fn refused(holds: bool, refusal: Refusal) -> Option<Refusal>
    ensures { result ≡ where_ holds refusal }
{
    if holds { Some(refusal) } else { None }
}

/// Whether an order that counts until a moment has expired; 0 is for ever.
pub(crate) fn has_expired(expires: u64, now: u64) -> bool
    ensures { result ≡ has_expired expires now }
{
    expires != 0 && expires < now
}

/// What is left of an order.
pub(crate) fn left_of(order: &OrderState) -> u64
    requires { order.now.filled ≤ order.now.placed.limit.making }

    ensures { result ≡ rest_of order.now }
{
    order.placed.limit.making() - order.filled
}

/// Whether a maker is of the taker's market, and can be matched with it.
fn is_pair(taker: &Placed, maker: &Placed) -> bool
    ensures { result ≡ ((maker.now.market == taker.now.market) && is_some (kind_with taker.now maker.now)) }
{
    maker.market == taker.market && kind_of(taker, maker).is_some()
}

/// How a maker is matched with the taker.
fn kind_of(taker: &Placed, maker: &Placed) -> Option<MatchKind>
    ensures value { result ≡ kind_with taker.now maker.now }
    ensures sides { IfSome result (λ kind. AreSidesOf kind taker.now.limit.side maker.now.limit.side) }
{
    kind(
        taker.limit.side(),
        taker.token,
        maker.limit.side(),
        maker.token,
    )
}

/// Whether a maker can be matched with the taker, and their prices don't cross.
fn is_apart(taker: &Placed, maker: &Placed) -> bool
    ensures { result ≡ is_apart (kind_with taker.now maker.now) taker.now.limit maker.now.limit }
{
    match kind_of(taker, maker) {
        Some(kind) => !is_crossing(&taker.limit, &maker.limit, kind),
        None => false,
    }
}

/// Whether two limits cross by their prices.
fn is_crossing(a: &Limit, b: &Limit, kind: MatchKind) -> bool
    requires { AreSidesOf kind a.now.side b.now.side }

    ensures { result ≡ is_crossing kind a.now b.now }
{
    crosses(a, b, kind)
}

/// The first maker whose order is named at an earlier maker's place.
fn first_repeated(makers: &[(OrderId, u64)]) -> Option<Refusal>
    requires { length makers.now ≤ MAX_MAKERS }

    ensures { result ≡ repeated_from [] 1 makers.now }
{
    for (index, maker) in makers.iter().enumerate() {
        if is_named(&makers[..index], maker.0) {
            return Some(Refusal::RepeatedOrder {
                place: index as u8 + 1,
            });
        }
    }
    None
}

/// Whether an order is among some.
fn is_named(named: &[(OrderId, u64)], order: OrderId) -> bool
    ensures { result ≡ list_any (λ n. n.0 == order) named.now }
{
    named.iter().any(|other| other.0 == order)
}
