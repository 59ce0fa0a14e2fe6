//! Laws of proposals: sentences about all offers, each proved once.

ghost use Rattle.std.specs.Prelude.{◌≡◌, ◌≤◌, ◌↔◌, ℕ, true, List, [], length, All, Contains, Some, None};
ghost use Rattle.book_propose.specs.Candidates.{candidates, is_before, is_candidate, ranked};
ghost use Rattle.book_propose.specs.Proposals.{fillings, proposal, Filling, IsFittingFront, IsProposal, IsRanked};
ghost use Rattle.book_propose.specs.declared.terms.MatchTerms.{MatchTerms};
ghost use Rattle.book_propose.specs.declared.terms.TheConstants.{MAX_MAKERS};
ghost use Rattle.book_shelves.specs.Shelves.{IsSnapshot};
ghost use Rattle.book_shelves.specs.declared.offer.Offer.{Offer};

/// Nothing is proposed exactly where no offer has a candidate among the offers.
pub fn no_pair_no_proposal()
    ensures { (offers : List Offer) → (proposal offers ≡ None) ↔ All (λ taker. candidates taker offers ≡ []) offers }
{}

/// The candidates of any taker are all the offers that are candidates of it, as often as they stand there; and those of a
/// snapshot stand in the order of effective prices and numbers.
pub fn candidates_are_ranked()
    ensures in_order { (offers : List Offer) (taker : Offer) → IsSnapshot offers → IsRanked (is_before taker) (ranked taker (candidates taker offers)) }
    ensures members { (offers : List Offer) (taker o : Offer) → Contains (ranked taker (candidates taker offers)) o ↔ (Contains offers o × (is_candidate taker o ≡ true)) }
    ensures as_many { (offers : List Offer) (taker : Offer) → length (ranked taker (candidates taker offers)) ≡ length (candidates taker offers) }
{}

/// The makers of a match are a front of those that are given, each of which fits behind the others, all whole but the last; and
/// there is no longer one.
pub fn makers_are_the_longest_front()
    ensures front { (taker : Offer) (left : ℕ) (makers : List Offer) → IsFittingFront taker left makers (fillings taker left makers) }
    ensures longest { (taker : Offer) (left : ℕ) (makers : List Offer) (fs : List Filling) → IsFittingFront taker left makers fs → length fs ≤ length (fillings taker left makers) }
{}

/// What is proposed on a snapshot is a match of its offers.
pub fn proposal_is_of_its_snapshot()
    ensures { (offers : List Offer) (terms : MatchTerms) → IsSnapshot offers → proposal offers ≡ Some terms → IsProposal offers terms }
{}

/// The number of the public constant.
pub fn constants()
    ensures { MAX_MAKERS ≡ 16 }
{}
