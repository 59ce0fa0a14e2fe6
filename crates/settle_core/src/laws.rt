//! Laws of the rules: sentences about every history and every command, each proved once.

ghost use Rattle.std.specs.Prelude.{◌≡◌, ℕ, ◌≤◌, List, Option, Some, None, Err, Contains, All, true, false};
ghost use Rattle.book_propose.specs.Proposals.{proposal};
ghost use Rattle.book_propose.specs.declared.terms.MatchTerms.{MatchTerms};
ghost use Rattle.command_words.specs.Command.{in_ranges};
ghost use Rattle.command_words.specs.Ranges.{is_account};
ghost use Rattle.command_words.specs.Refusal.{code_of};
ghost use Rattle.command_words.specs.declared.act.Act.{Act};
ghost use Rattle.command_words.specs.declared.command.Command.TheVariants.{Match};
ghost use Rattle.command_words.specs.declared.refusal.Refusal.{Refusal};
ghost use Rattle.command_words.specs.declared.refusal.Refusal.TheVariants.{SupplyLimit};
ghost use Rattle.collection_keys.specs.Collections.{Pairs, root};
ghost use Rattle.coverage_law.specs.Need.{held_worth, need};
ghost use Rattle.coverage_law.specs.Outcomes.{Outcome, IsLawful};
ghost use Rattle.ledger_book.specs.Entries.{AreEntries};
ghost use Rattle.ledger_book.specs.Staging.{is_above_supply};
ghost use Rattle.settle_core.specs.Book.{book, postings, postings_of};
ghost use Rattle.settle_core.specs.Bounds.{Bounds, standard};
ghost use Rattle.settle_core.specs.Coverage.{CanPay, outlook};
ghost use Rattle.settle_core.specs.Crossings.{IsForRoom, turn};
ghost use Rattle.settle_core.specs.Fairness.{IsFair};
ghost use Rattle.settle_core.specs.Legal.{IsLegal};
ghost use Rattle.settle_core.specs.OrderRules.{match_refusals};
ghost use Rattle.settle_core.specs.Orders.{nonce, order_state, placed};
ghost use Rattle.settle_core.specs.Postings.{balance, supply, held_by_all, vault};
ghost use Rattle.settle_core.specs.Refusals.{Question, little_by, short_by};
ghost use Rattle.settle_core.specs.Snapshots.{snapshot};
ghost use Rattle.settle_core.specs.declared.limits.TheConstants.{MAX_TURNS};
ghost use Rattle.settle_core.specs.Verdict.{Applies, first_some, refusals, verdict};

/// The verdict is the refusal with the lowest number whose condition holds, and there is none where no condition holds.
pub fn lowest_refusal()
    ensures applies { (q : Question) (refusal : Refusal) → verdict q ≡ Some refusal → Applies q refusal }
    ensures lowest { (q : Question) (refusal other : Refusal) → verdict q ≡ Some refusal → Applies q other → code_of refusal ≤ code_of other }
    ensures none { (q : Question) (refusal : Refusal) → verdict q ≡ None → Applies q refusal → ⊥ }
{}

/// For every lawful outcome, of which there is one at the least, the vault covers what all holdings are worth. It is exactly
/// that where nothing was reported and one question of each event comes out YES, or of each event in which something was
/// converted. What all holdings are worth is the sum of balance times worth over the positions that hold anything, each once.
pub fn holdings_are_covered()
    ensures covered { (limits : Bounds) (history : List Act) → IsLegal limits history → CanPay history }
    ensures possible { (limits : Bounds) (history : List Act) → IsLegal limits history → (outcome : Outcome) × IsLawful (outlook history) outcome }
    ensures held { (limits : Bounds) (history : List Act) (value : Pairs → ℕ) (positions : List (ℕ × Pairs)) → IsLegal limits history → AreEntries (balance history) positions
        → held_worth value (balance history) positions ≡ need value (postings history) }
{}

/// The cash of all accounts together is at most what the vault holds, and a command that is refused for a supply isn't
/// refused for that of cash.
pub fn cash_is_covered()
    ensures vault { (limits : Bounds) (history : List Act) → IsLegal limits history → supply history root ≤ vault history }
    ensures limit { (q : Question) (supplied : ℕ) → IsLegal q.limits q.history → in_ranges q.command ≡ true → verdict q ≡ Some (SupplyLimit supplied)
        → is_above_supply (supply q.history) (postings_of (book q.history) q.account q.command) root ≡ false }
{}

/// The supply of a collection is what all accounts together hold of it.
pub fn supply_is_held()
    ensures { (limits : Bounds) (history : List Act) (k : Pairs) → IsLegal limits history → All (λ act. is_account act.account ≡ true) history
        → held_by_all history k ≡ supply history k }
{}

/// No order of a legal history is filled above what it makes, and none receives less for a fill, before its fee, than its limit
/// rounded down.
pub fn orders_get_their_limits()
    ensures { (limits : Bounds) (history : List Act) → IsLegal limits history → IsFair history }
{}

/// What is proposed on the snapshot of a legal history, at its moment, is refused for none of its orders, by no refusal from 19
/// to 27, nor for what goes out of the exchange or for what its taker gets, by 29 and 30.
pub fn proposal_fits()
    ensures orders { (limits : Bounds) (history : List Act) (market now : ℕ) (terms : MatchTerms) → IsLegal limits history → proposal (snapshot history market now) ≡ Some terms
        → first_some (match_refusals (order_state history) (nonce history) now terms.taker terms.fill terms.makers) ≡ None }
    ensures flows { (limits : Bounds) (history : List Act) (market now : ℕ) (terms : MatchTerms) → IsLegal limits history → proposal (snapshot history market now) ≡ Some terms
        → short_by (placed history) (Match terms.taker terms.fill terms.makers) ≡ None }
    ensures proceeds { (limits : Bounds) (history : List Act) (market now : ℕ) (terms : MatchTerms) → IsLegal limits history → proposal (snapshot history market now) ≡ Some terms
        → little_by (placed history) (Match terms.taker terms.fill terms.makers) ≡ None }
{}

/// A turn of a crossing over a legal history is refused for want of room alone. What is proposed may be unpaid for besides, and
/// what is done in its place then, a lapse or the match with its first makers alone, is refused for nothing else either.
pub fn turns_stop_for_room()
    ensures { (limits : Bounds) (history : List Act) (market now : ℕ) (refusal : Refusal) → IsLegal limits history → turn limits history market now ≡ Some (Err refusal) → IsForRoom refusal }
{}

/// The number of the public constant.
pub fn constants()
    ensures { MAX_TURNS ≡ 1_000 }
{}

/// The limits of the program.
pub fn standard_limits()
    ensures { standard ≡ record { conditions = 4_096; events = 512; orders = 10_000; entries = 4_000_000; history = 1_000_000 } }
{}
