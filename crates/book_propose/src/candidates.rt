//! Which offers can be matched with a taker.

ghost use Rattle.std.specs.Prelude.{◌≡◌, ◌≤◌, IfSome};
ghost use Rattle.book_propose.specs.Candidates.{crosses_by, fit_with, is_candidate, is_crossing, is_crossing_exactly, kind_with};
ghost use Rattle.condition_sets.specs.declared.amount.TheConstants.{MAX_AMOUNT};
ghost use Rattle.order_rules.specs.Kinds.{AreSidesOf};

use book_shelves::Offer;
use order_rules::{Fitted, Limit, MatchKind, crosses, crosses_exactly, fit, kind};

// Whether a maker is a candidate of a taker: it is of another account, has a kind with it, crosses it by their prices and in
// exact fractions, and fits into the whole rest of the taker.
pub(crate) fn is_candidate(taker: &Offer, maker: &Offer) -> bool
    requires taker { taker.now.rest ≤ taker.now.limit.making }
    requires maker { maker.now.rest ≤ maker.now.limit.making }

    ensures { result ≡ is_candidate taker.now maker.now }
{
    if maker.account == taker.account || !are_crossing(taker, maker) {
        return false;
    }
    // What is left of the taker is an amount, being within its limit.
    let _most = taker.limit.making();
    fit_with(taker, maker, taker.rest).is_some()
}

// How two offers can be matched.
pub(crate) fn kind_with(taker: &Offer, maker: &Offer) -> Option<MatchKind>
    ensures value { result ≡ kind_with taker.now maker.now }
    ensures sides { IfSome result (λ kind. AreSidesOf kind taker.now.limit.side maker.now.limit.side) }
{
    kind(
        taker.limit.side(),
        taker.token,
        maker.limit.side(),
        maker.token,
    )
}

// How much of a maker fits into what is left of a taker.
pub(crate) fn fit_with(taker: &Offer, maker: &Offer, left: u64) -> Option<Fitted>
    requires left { left ≤ MAX_AMOUNT }
    requires maker { maker.now.rest ≤ maker.now.limit.making }

    ensures value { result ≡ fit_with taker.now maker.now left }
    ensures within { IfSome result (λ f. f.spent ≤ left) }
    ensures amount { IfSome result (λ f. (1 ≤ f.fill) × (f.fill ≤ MAX_AMOUNT)) }
{
    // The fill is an amount, being within the maker's limit.
    let _most = maker.limit.making();
    match kind_with(taker, maker) {
        Some(kind) => fit(left, maker.rest, &maker.limit, kind),
        None => None,
    }
}

// Whether two offers have a kind and cross, by their prices and in exact fractions.
fn are_crossing(taker: &Offer, maker: &Offer) -> bool
    ensures { result ≡ crosses_by (kind_with taker.now maker.now) taker.now.limit maker.now.limit }
{
    match kind_with(taker, maker) {
        Some(kind) => {
            is_crossing(&taker.limit, &maker.limit, kind)
                && is_crossing_exactly(&taker.limit, &maker.limit, kind)
        }
        None => false,
    }
}

// Whether two limits cross by their prices.
fn is_crossing(a: &Limit, b: &Limit, kind: MatchKind) -> bool
    requires { AreSidesOf kind a.now.side b.now.side }

    ensures { result ≡ is_crossing kind a.now b.now }
{
    crosses(a, b, kind)
}

// Whether they cross in exact fractions.
fn is_crossing_exactly(a: &Limit, b: &Limit, kind: MatchKind) -> bool
    requires { AreSidesOf kind a.now.side b.now.side }

    ensures { result ≡ is_crossing_exactly kind a.now b.now }
{
    crosses_exactly(a, b, kind)
}
