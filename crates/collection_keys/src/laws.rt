//! Laws of collections: sentences about all lists of pairs, each proved once.

ghost use Rattle.std.specs.Prelude.{◌≡◌, ◌≢◌, ◌↔◌, ℕ, Some, None, IsTrue};
ghost use Rattle.std.specs.declared.cmp.Ordering.TheVariants.{Equal};
ghost use Rattle.collection_keys.specs.Collections.{Pairs, part, joined, without, IsCollection};
ghost use Rattle.collection_keys.specs.Comparing.{same_collection, collection_cmp};
ghost use Rattle.collection_keys.specs.declared.collection.TheConstants.{MAX_PAIRS};

/// Joining two conditions in either order gives the same collection.
pub fn joined_in_either_order()
    ensures { (k : Pairs) (c d i j : ℕ) → c ≢ d → joined (joined k c i) d j ≡ joined (joined k d j) c i }
{}

/// What is joined is what the collection has of the condition, and of no other condition it has anything else.
pub fn part_of_joined()
    ensures same { (k : Pairs) (c i : ℕ) → part k c ≡ None → part (joined k c i) c ≡ Some i }
    ensures other { (k : Pairs) (c d i : ℕ) → c ≢ d → part (joined k c i) d ≡ part k d }
{}

/// Taking a condition out undoes joining it.
pub fn without_undoes_joining()
    ensures { (k : Pairs) (c i : ℕ) → part k c ≡ None → without (joined k c i) c ≡ k }
{}

/// A collection is known by its parts: two that have the same of each condition are the same.
pub fn known_by_its_parts()
    ensures { (j k : Pairs) → IsCollection j → IsCollection k → ((c : ℕ) → part j c ≡ part k c) → j ≡ k }
{}

/// Equality holds exactly of equal lists of pairs, and these alone tie in the order.
pub fn same_exactly_where_equal()
    ensures same { (j k : Pairs) → IsTrue (same_collection j k) ↔ (j ≡ k) }
    ensures tied { (j k : Pairs) → (collection_cmp j k ≡ Equal) ↔ (j ≡ k) }
{}

/// The number of each public constant.
pub fn constants()
    ensures { MAX_PAIRS ≡ 4 }
{}
