//! Laws of worth: what each kind of step does to what all holdings are worth at an outcome, each proved once.
//!
//! The outcome is any, but where a law asks for a slot of the condition. Which collections have a worth that isn't 0 rests
//! on the conditions alone, and never on who holds them.

ghost use Rattle.std.specs.Prelude.{◌≡◌, ◌≢◌, ℕ, ◌+◌, ◌-◌, ◌*◌, ◌/◌, ◌<◌, ◌≤◌, ◌^◌, List, length, map, sum, slice_get, Some, None, All};
ghost use Rattle.collection_keys.specs.Collections.{Pairs, root, part, joined};
ghost use Rattle.condition_sets.specs.Sets.{AreApart, union_of};
ghost use Rattle.condition_table.specs.Shares.{numerators_in, weighted};
ghost use Rattle.condition_table.specs.declared.facts.Facts.{Facts};
ghost use Rattle.convert_positions.specs.Converting.{IsChoice, convert_postings};
ghost use Rattle.ledger_book.specs.Entries.{AreEntries};
ghost use Rattle.ledger_book.specs.Postings.{credit, credits, debits, IsFunded};
ghost use Rattle.ledger_book.specs.declared.posting.Posting.{Posting};
ghost use Rattle.coverage_law.specs.Need.{paid_worth, taken_worth, need, held_worth};
ghost use Rattle.coverage_law.specs.Outcomes.{Outcome, Outlook, IsLawful, winners, with_slot};
ghost use Rattle.coverage_law.specs.Questions.{AreQuestions};
ghost use Rattle.coverage_law.specs.Worth.{Results, worth, denominator, denominator_of, prepared, reported};

/// What all holdings are worth is the sum of balance times worth over the positions that hold anything, each once.
pub fn need_is_what_is_held()
    ensures { (value : Pairs → ℕ) (ps : List Posting) (positions : List (ℕ × Pairs)) → IsFunded (λ a k. 0) ps
        → AreEntries (λ a k. credits ps a k - debits ps a k) positions
        → held_worth value (λ a k. credits ps a k - debits ps a k) positions ≡ need value ps }
{}

/// Where no position falls below 0, no more worth is taken than paid, whatever collections are worth.
pub fn taken_is_within_paid()
    ensures { (value : Pairs → ℕ) (ps : List Posting) → IsFunded (λ a k. 0) ps → taken_worth value ps ≤ paid_worth value ps }
{}

/// A unit of cash is worth the whole denominator, and that isn't 0 where no report's sum is.
pub fn cash_is_worth_the_denominator()
    ensures cash { (results : Results) (outcome : Outcome) → worth results outcome root ≡ denominator results }
    ensures some { (results : Results) → ((c : ℕ) → 0 < denominator_of (results.numerators c)) → 0 < denominator results }
{}

/// Sets that are apart are worth together what their union is; and where they are all slots, what the parent is.
pub fn parts_are_worth_the_whole()
    ensures union { (results : Results) (outcome : Outcome) (k : Pairs) (c a amount : ℕ) (sets : List ℕ) → c < results.conditions → part k c ≡ None → AreApart sets
        → paid_worth (worth results outcome) (map (λ j. credit a j amount) (map (λ set. joined k c set) sets)) ≡ amount * worth results outcome (joined k c (union_of sets)) }
    ensures whole { (results : Results) (outcome : Outcome) (k : Pairs) (c slots full : ℕ) → c < results.conditions → part k c ≡ None → full + 1 ≡ 2 ^ slots → outcome c < slots
        → ((ns : List ℕ) → results.numerators c ≡ Some ns → length ns ≡ slots) → worth results outcome (joined k c full) ≡ worth results outcome k }
{}

/// A condition that is prepared changes no worth of what there was, nor the denominator.
pub fn preparing_changes_no_worth()
    ensures worth { (results : Results) (outcome : Outcome) (k : Pairs) → part k results.conditions ≡ None → worth (prepared results) outcome k ≡ worth results outcome k }
    ensures denominator { (results : Results) → denominator (prepared results) ≡ denominator results }
{}

/// What something is worth after a report is what it was worth with each slot winning, as often as the slot's numerator
/// says; and each of these outcomes was lawful, since the condition is no question.
pub fn report_weighs_the_slots()
    ensures worth { (results : Results) (outcome : Outcome) (k : Pairs) (c : ℕ) (ns : List ℕ) → c < results.conditions → results.numerators c ≡ None
        → worth (reported results c ns) outcome k ≡ weighted ns (λ slot. worth results (with_slot outcome c slot) k) }
    ensures denominator { (results : Results) (c : ℕ) (ns : List ℕ) → c < results.conditions → results.numerators c ≡ None
        → denominator (reported results c ns) ≡ sum ns * denominator results }
    ensures lawful { (outlook : Outlook) (outcome : Outcome) (c slot : ℕ) (facts : Facts) → IsLawful outlook outcome → slice_get outlook.conditions c ≡ Some facts → slot < facts.slots
        → outlook.answers c ≡ None → All (λ questions. All (λ question. question ≢ c) questions) outlook.events → IsLawful outlook (with_slot outcome c slot) }
{}

/// A redemption pays at most what it burns: it loses what the floor drops.
pub fn redemption_loses_the_floor_alone()
    ensures { (results : Results) (outcome : Outcome) (k : Pairs) (c set amount : ℕ) (ns : List ℕ) → c < results.conditions → part k c ≡ None → results.numerators c ≡ Some ns → 0 < sum ns
        → (amount * numerators_in ns set / sum ns) * worth results outcome k ≤ amount * worth results outcome (joined k c set) }
{}

/// A redemption of an answered question pays just what it burns: the numerators' sum is 1, and the slot that wins has it.
pub fn answered_question_is_paid_exactly()
    ensures { (results : Results) (outcome : Outcome) (k : Pairs) (c set amount : ℕ) (ns : List ℕ) → c < results.conditions → part k c ≡ None → results.numerators c ≡ None
        → sum ns ≡ 1 → slice_get ns (outcome c) ≡ Some 1
        → (amount * numerators_in ns set / sum ns) * worth results outcome k ≡ amount * worth results outcome (joined k c set) }
{}

/// A conversion takes just what it pays where one of the event's questions comes out YES; where none does, it takes the
/// amount more.
pub fn conversion_keeps_the_need()
    ensures { (results : Results) (outcome : Outcome) (a amount bips set : ℕ) (questions : List ℕ) → AreQuestions results outcome questions → bips ≤ 10000 → IsChoice (length questions) set
        → winners outcome questions ≤ 1
        → taken_worth (worth results outcome) (convert_postings a amount bips set questions)
        ≡ paid_worth (worth results outcome) (convert_postings a amount bips set questions) + (1 - winners outcome questions) * (amount * denominator results) }
{}
