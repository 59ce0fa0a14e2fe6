//! The best candidates of a taker, in their order.

ghost use Rattle.std.specs.Prelude.{◌≡◌, ◌≤◌, List, length, map, take, IfOk, OnOk};
ghost use Rattle.std.specs.List.{position_or_len};
ghost use Rattle.book_propose.specs.Candidates.{candidates, effective, insert, ranked};
ghost use Rattle.book_propose.specs.Pricing.{comes_before, priced};
ghost use Rattle.book_propose.specs.declared.terms.TheConstants.{MAX_MAKERS};
ghost use Rattle.book_shelves.specs.declared.offer.Offer.{Offer};

use crate::candidates::{is_candidate, kind_with};
use crate::priced::Priced;
use crate::terms::MAX_MAKERS;
use book_shelves::{Offer, Snapshot};
use condition_sets::NoMemory;
use order_rules::{MatchKind, ONE, Side, price};
use std::alloc::Global;

// The best candidates of a taker in a snapshot, in their order.
pub(crate) fn best_candidates(
    alloc: Global,
    snapshot: &Snapshot,
    taker: &Offer,
) -> Result<Vec<Priced>, NoMemory>
    requires { taker.now.rest ≤ taker.now.limit.making }

    ensures { IfOk result (λ best. best.items ≡ map (priced taker.now) (take MAX_MAKERS (ranked taker.now (candidates taker.now snapshot.now)))) }
{
    // Room for one more than are kept, so that memory is taken once.
    let mut best = Vec::with_capacity(alloc, MAX_MAKERS + 1)?;
    for i in 0..snapshot.len() {
        let offer = snapshot.offer(i);
        if is_candidate(taker, &offer) {
            keep(&mut best, taker, offer)?;
        }
    }
    Ok(best)
}

// Puts a candidate in its place among the best so far, and lets go of one that is then too many.
fn keep(best: &mut Vec<Priced>, taker: &Offer, offer: Offer) -> Result<(), NoMemory>
    ensures { (kept : List Offer) → length kept ≤ MAX_MAKERS → best.old.items ≡ map (priced taker.now) kept
        → OnOk result (best.new.items ≡ map (priced taker.now) (take MAX_MAKERS (insert taker.now offer kept))) }
{
    let price = effective(taker, &offer);
    let candidate = Priced { offer, price };
    let place = place_of(best, taker.limit.side(), &candidate);
    if place < MAX_MAKERS {
        best.insert(place, candidate)?;
        best.truncate(MAX_MAKERS);
    }
    Ok(())
}

// The place of a candidate among others: the first before which it comes, or else the end.
fn place_of(others: &[Priced], side: Side, candidate: &Priced) -> usize
    ensures value { result ≡ position_or_len (comes_before side candidate.now) others.now }
    ensures within { result ≤ length others.now }
{
    for (index, other) in others.iter().enumerate() {
        if comes_before(side, candidate, other) {
            return index;
        }
    }
    others.len()
}

// Whether a candidate comes before another: the lower price for a buyer, the higher one for a seller, and at one price the
// lower number.
fn comes_before(side: Side, a: &Priced, b: &Priced) -> bool
    ensures { result ≡ comes_before side a.now b.now }
{
    let number = a.offer.order.get();
    let other = b.offer.order.get();
    match side {
        Side::Buy => a.price < b.price || (a.price == b.price && number < other),
        Side::Sell => b.price < a.price || (a.price == b.price && number < other),
    }
}

// What a taker pays or gets for a token with a maker: the maker's price, or what is left of `ONE`.
fn effective(taker: &Offer, maker: &Offer) -> u128
    ensures { result ≡ effective taker.now maker.now }
{
    let price = price(&maker.limit);
    match kind_with(taker, maker) {
        Some(MatchKind::Mint | MatchKind::Merge) => ONE.saturating_sub(price),
        Some(MatchKind::Complementary) | None => price,
    }
}
