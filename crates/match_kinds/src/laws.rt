//! Laws of matches: sentences about all parts, each proved once.

ghost use Rattle.std.specs.Prelude.{◌≡◌, ℕ, ◌+◌, ◌*◌, List, sum_by, None, All};
ghost use Rattle.collection_keys.specs.Collections.{Pairs, root};
ghost use Rattle.ledger_book.specs.Postings.{IsFunded};
ghost use Rattle.match_kinds.specs.Matching.{IsMaker, IsPart, pairs_merged, pairs_minted, token_of};
ghost use Rattle.match_kinds.specs.Settling.{match_postings, short_place, unfunded};
ghost use Rattle.match_kinds.specs.declared.part.Part.{Part};
ghost use Rattle.order_rules.specs.declared.token.Token.TheVariants.{Yes, No};
ghost use Rattle.match_kinds.specs.declared.part.TheConstants.{MAX_MAKERS};

/// Whatever collections are worth, a match that isn't short pays and takes the same, but that it makes pairs of the two
/// tokens of cash, and cash of pairs.
pub fn match_is_balanced()
    ensures { (value : Pairs → ℕ) (market : ℕ) (taker : Part) (makers : List Part) → IsPart taker → All (IsMaker taker) makers → short_place taker makers ≡ None
        → let pair = value (token_of market Yes) + value (token_of market No) in let ps = match_postings market taker makers in
        sum_by (λ p. p.paid * value p.collection) ps + pairs_minted taker makers * value root + pairs_merged taker makers * pair
        ≡ sum_by (λ p. p.taken * value p.collection) ps + pairs_merged taker makers * value root + pairs_minted taker makers * pair }
{}

/// Where each part of a match is funded, in the order in which they are settled, no position falls below 0.
pub fn funded_match_is_covered()
    ensures { (held : ℕ → Pairs → ℕ) (market : ℕ) (taker : Part) (makers : List Part) → All (IsMaker taker) makers → unfunded held market taker makers ≡ None
        → IsFunded held (match_postings market taker makers) }
{}

/// The number of each public constant.
pub fn constants()
    ensures { MAX_MAKERS ≡ 16 }
{}
