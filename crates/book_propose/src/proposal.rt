ghost use Rattle.std.specs.Prelude.{◌≡◌, ◌≤◌, IfOk, IfSome};
ghost use Rattle.book_propose.specs.Proposals.{has_candidate, last_taker, proposal, AreTerms};
ghost use Rattle.book_shelves.specs.Shelves.{IsSnapshot};

use crate::candidates::is_candidate;
use crate::fills::terms_with;
use crate::ranking::best_candidates;
use crate::terms::MatchTerms;
use book_shelves::{Offer, Snapshot};
use condition_sets::NoMemory;
use std::alloc::Global;

/// The match that is proposed on a snapshot: `None` exactly where no offer has a candidate in it. The taker is the offer with
/// the highest number that has one; the makers are the best of its candidates, at most [`MAX_MAKERS`](crate::MAX_MAKERS), in
/// their order, as many as fit one behind another, where all but the last are filled whole. `Err` comes only where memory is
/// wanting.
pub fn propose(alloc: Global, snapshot: &Snapshot) -> Result<Option<MatchTerms>, NoMemory>
    ensures value { IfOk result (λ terms. terms ≡ proposal snapshot.now) }
    ensures ranges { IfOk result (λ terms. IfSome terms AreTerms) }
{
    let Some(taker) = last_taker(snapshot) else {
        return Ok(None);
    };
    let makers = best_candidates(alloc, snapshot, &taker)?;
    let terms = terms_with(alloc, &taker, &makers)?;
    Ok(Some(terms))
}

// The offer with the highest number that has a candidate.
fn last_taker(snapshot: &Snapshot) -> Option<Offer>
    ensures value { result ≡ last_taker snapshot.now snapshot.now }
    ensures within { IfSome result (λ taker. taker.rest ≤ taker.limit.making) }
    ensures valid { IsSnapshot snapshot.now }
{
    for i in (0..snapshot.len()).rev() {
        let taker = snapshot.offer(i);
        if has_candidate(snapshot, &taker) {
            return Some(taker);
        }
    }
    None
}

// Whether an offer has a candidate in a snapshot.
fn has_candidate(snapshot: &Snapshot, taker: &Offer) -> bool
    requires { taker.now.rest ≤ taker.now.limit.making }

    ensures { result ≡ has_candidate snapshot.now taker.now }
{
    for i in 0..snapshot.len() {
        if is_candidate(taker, &snapshot.offer(i)) {
            return true;
        }
    }
    false
}
