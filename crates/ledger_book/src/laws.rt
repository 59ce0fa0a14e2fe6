//! Laws of the ledger: sentences about all ledgers and postings, each proved once.

ghost use Rattle.std.specs.Prelude.{◌≡◌, ℕ, ℤ, ◌+◌, ◌-◌, ◌≤◌, ◌^◌, [], ◌∷◌, ◌++◌, ◌&&◌, false, not, nat_abs, List, length, IsTrue};
ghost use Rattle.collection_keys.specs.Collections.{Pairs};
ghost use Rattle.ledger_book.specs.declared.posting.Posting.{Posting};
ghost use Rattle.ledger_book.specs.declared.staged.TheConstants.{MAX_POSTED};
ghost use Rattle.ledger_book.specs.declared.ledger.TheConstants.{MAX_ENTRIES};
ghost use Rattle.ledger_book.specs.Entries.{HasEntries, entries_of};
ghost use Rattle.ledger_book.specs.Ledger.{LedgerView, names, supply_at};
ghost use Rattle.ledger_book.specs.Naming.{has, is_changed, new_names, are_ascending, AreApart, AreFresh};
ghost use Rattle.ledger_book.specs.Postings.{credit, debit, credits, debits, IsNetWithin, AreWithin, IsFunded};
ghost use Rattle.ledger_book.specs.Staging.{signed_posting};

/// A collection that has no name has no supply.
#[tactic(auto, unfolding(crate::specs::Ledger::names, crate::specs::Ledger::supply_at))]
pub fn no_supply_without_a_name()
    ensures { (l : LedgerView) (k : Pairs) → has (names l) k ≡ false → supply_at l k ≡ 0 }
{}

/// The collections that get a name are those that have none and of which an account's amount changes, each once,
/// ascending.
pub fn named_where_an_amount_changes()
    ensures among { (old : List Pairs) (ps : List Posting) (k : Pairs) → has (new_names old ps) k ≡ (not (has old k) && is_changed ps k) }
    ensures fresh { (old : List Pairs) (ps : List Posting) → AreFresh old (new_names old ps) }
    ensures ascending { (old : List Pairs) (ps : List Posting) → IsTrue (are_ascending (new_names old ps)) }
    ensures few { (old : List Pairs) (ps : List Posting) → length (new_names old ps) ≤ length ps }
{}

/// No collection gets a second name.
pub fn each_has_one_name()
    ensures { (old : List Pairs) (ps : List Posting) → AreApart old → AreApart (old ++ new_names old ps) }
{}

/// Nothing staged is within any bound, and one posting more moves the bound by its own size. So a caller that counts the
/// sizes of what it stages shows by `within` of each call that the next one may be made.
pub fn net_amounts_grow_by_each_posting()
    ensures none { (a : ℕ) (k : Pairs) → IsNetWithin 0 [] a k }
    ensures credit { (most amount : ℕ) (ps : List Posting) (a : ℕ) (k : Pairs) → AreWithin most ps → most + amount ≤ MAX_POSTED → IsNetWithin MAX_POSTED (ps ++ credit a k amount ∷ []) a k }
    ensures debit { (most amount : ℕ) (ps : List Posting) (a : ℕ) (k : Pairs) → AreWithin most ps → most + amount ≤ MAX_POSTED → IsNetWithin MAX_POSTED (ps ++ debit a k amount ∷ []) a k }
    ensures signed { (most : ℕ) (amount : ℤ) (ps : List Posting) (a : ℕ) (k : Pairs) → AreWithin most ps → most + nat_abs amount ≤ MAX_POSTED → IsNetWithin MAX_POSTED (ps ++ signed_posting a k amount ∷ []) a k }
{}

/// There is one number of the positions that have an amount other than 0.
pub fn one_count()
    ensures { (held : ℕ → Pairs → ℕ) (n m : ℕ) → HasEntries held n → HasEntries held m → n ≡ m }
{}

/// What postings leave where nobody held anything has as many entries as `entries_of` counts of them.
pub fn entries_are_counted()
    ensures { (ps : List Posting) → IsFunded (λ a k. 0) ps → HasEntries (λ a k. credits ps a k - debits ps a k) (entries_of ps) }
{}

/// The number of each public constant.
pub fn constants()
    ensures posted { MAX_POSTED ≡ 10 ^ 17 }
    ensures entries { MAX_ENTRIES ≡ 4_000_000 }
{}
