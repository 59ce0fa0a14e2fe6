//! What a taker's makers fill.

ghost use Rattle.std.specs.Prelude.{◌≡◌, ◌≤◌, map, All, IfOk};
ghost use Rattle.book_propose.specs.Proposals.{fillings, terms_of};
ghost use Rattle.condition_sets.specs.declared.amount.TheConstants.{MAX_AMOUNT};

use crate::candidates::fit_with;
use crate::priced::Priced;
use crate::terms::MatchTerms;
use book_shelves::Offer;
use condition_sets::{Fills, NoMemory, Sums};
use std::alloc::Global;

// The terms of a match of a taker with these makers, in their order: with those that fit, up to the first that isn't filled
// whole.
pub(crate) fn terms_with(
    alloc: Global,
    taker: &Offer,
    makers: &[Priced],
) -> Result<MatchTerms, NoMemory>
    requires taker { taker.now.rest ≤ taker.now.limit.making }
    requires makers { All (λ m. m.offer.rest ≤ m.offer.limit.making) makers.now }

    ensures value { IfOk result (λ terms. terms ≡ terms_of taker.now (fillings taker.now taker.now.rest (map (λ m. m.offer) makers.now))) }
    ensures within { IfOk result (λ terms. terms.fill ≤ MAX_AMOUNT) }
    ensures each { IfOk result (λ terms. All (λ m. (1 ≤ m.1) × (m.1 ≤ MAX_AMOUNT)) terms.makers) }
{
    // What is left of the taker is an amount, being within its limit.
    let _most = taker.limit.making();
    let mut terms = MatchTerms {
        taker: taker.order,
        fill: 0,
        makers: Fills::new(alloc),
        spent: Sums::new(alloc),
    };
    for candidate in makers {
        let maker = &candidate.offer;
        let Some(fitted) = fit_with(taker, maker, taker.rest - terms.fill) else {
            return Ok(terms);
        };
        terms.makers.push((maker.order, fitted.fill))?;
        terms.spent.push(fitted.spent)?;
        terms.fill += fitted.spent;
        if fitted.fill < maker.rest {
            return Ok(terms);
        }
    }
    Ok(terms)
}
