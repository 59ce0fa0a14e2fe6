//! Laws of redemptions: sentences about all balances, reports and sets, each proved once.

ghost use Rattle.std.specs.Prelude.{◌≡◌, ℕ, ◌<◌, List, slice_get, Some, None};
ghost use Rattle.collection_keys.specs.Collections.{Pairs, part};
ghost use Rattle.report_redeem.specs.Redeeming.{redeem_sums};
ghost use Rattle.report_redeem.specs.declared.redeem.TheConstants.{MAX_REDEEMED};

/// A set that is named again is paid nothing, since nothing is left of it.
pub fn named_again_pays_nothing()
    ensures { (held : ℕ → Pairs → ℕ) (a : ℕ) (parent : Pairs) (c : ℕ) (numerators sets : List ℕ) (i j set : ℕ)
        → part parent c ≡ None → i < j → slice_get sets i ≡ Some set → slice_get sets j ≡ Some set
        → slice_get (redeem_sums held a parent c numerators sets) j ≡ Some 0 }
{}

/// The number of each public constant.
pub fn constants()
    ensures { MAX_REDEEMED ≡ 32 }
{}
