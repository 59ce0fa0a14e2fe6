//! Laws of the program: sentences about all histories and all bytes, each proved once.

ghost use Rattle.std.specs.Prelude.{◌≡◌, ◌⊎◌, ℕ, ◌^◌, List};
ghost use Rattle.collection_keys.specs.Collections.{Pairs};
ghost use Rattle.command_words.specs.declared.act.Act.{Act};
ghost use Rattle.coverage_law.specs.Need.{held_worth, need};
ghost use Rattle.coverage_law.specs.Outcomes.{Outcome, IsLawful};
ghost use Rattle.coverage_law.specs.Worth.{worth};
ghost use Rattle.ledger_book.specs.Entries.{AreEntries};
ghost use Rattle.settle_core.specs.Book.{postings};
ghost use Rattle.settle_core.specs.Bounds.{Bounds};
ghost use Rattle.settle_core.specs.Coverage.{CanPay, outlook, results};
ghost use Rattle.settle_core.specs.Legal.{IsLegal};
ghost use Rattle.settle_core.specs.Postings.{balance};
ghost use Rattle.exchange_top.specs.Holds.{Holds};
ghost use Rattle.exchange_top.specs.Recovery.{Stops, IsExcused};
ghost use Rattle.exchange_top.specs.declared.recovery.OpenFault.{OpenFault};
ghost use Rattle.exchange_top.specs.declared.serving.TheConstants.{MAX_INPUT};

use settle_core::laws::holdings_are_covered;

/// What the exchange is made for: for every history that the rules allow and every lawful outcome, of which there is one at
/// the least, the vault covers what all holdings are worth; and it is exactly that where nothing was reported and one question
/// of each event comes out YES. What all holdings are worth is balance times worth over the positions that hold anything,
/// each once.
pub fn coverage_holds()
    ensures covered { (limits : Bounds) (history : List Act) → IsLegal limits history → CanPay history }
    ensures possible { (limits : Bounds) (history : List Act) → IsLegal limits history → (outcome : Outcome) × IsLawful (outlook history) outcome }
    ensures held { (limits : Bounds) (history : List Act) (outcome : Outcome) (positions : List (ℕ × Pairs)) → IsLegal limits history → AreEntries (balance history) positions
        → held_worth (worth (results history) outcome) (balance history) positions ≡ need (worth (results history) outcome) (postings history) }
{
    holdings_are_covered();
}

/// Where bytes give no history, they do so for one reason, at one place.
pub fn one_damage()
    ensures { (limits : Bounds) (bytes : List ℕ) (why other : OpenFault) → Stops limits bytes why → Stops limits bytes other
        → IsExcused why ⊎ (IsExcused other ⊎ (why ≡ other)) }
{}

/// Bytes that hold a legal history have no damage.
pub fn no_damage()
    ensures { (limits : Bounds) (bytes : List ℕ) (history : List Act) (why : OpenFault) → Holds bytes history → IsLegal limits history
        → Stops limits bytes why → IsExcused why }
{}

/// The number of each public constant.
pub fn constants()
    ensures { MAX_INPUT ≡ 2 ^ 40 }
{}
