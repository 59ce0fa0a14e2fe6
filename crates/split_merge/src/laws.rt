//! Laws of splits and merges: sentences about all amounts and collections, each proved once.

ghost use Rattle.std.specs.Prelude.{◌≡◌, ℕ, List, map, sum_by};
ghost use Rattle.collection_keys.specs.Collections.{Pairs};
ghost use Rattle.ledger_book.specs.declared.posting.Posting.{Posting};
ghost use Rattle.split_merge.specs.Splitting.{split_postings, merge_postings, turned};
ghost use Rattle.split_merge.specs.declared.parts.TheConstants.{MAX_PARTS};

/// A merge is the reverse of a split: any sum over its postings is that over the split's with each sign turned.
pub fn merge_is_the_reverse()
    ensures { (f : Posting → ℕ) (a amount : ℕ) (whole : Pairs) (parts : List Pairs) → sum_by f (merge_postings a whole parts amount) ≡ sum_by f (map turned (split_postings a whole parts amount)) }
{}

/// The number of each public constant.
pub fn constants()
    ensures { MAX_PARTS ≡ 32 }
{}
