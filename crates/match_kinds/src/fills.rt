//! What the parts of a match pay, and what its makers get.

ghost use Rattle.std.specs.Prelude.{◌≡◌, ℕ, ◌+◌, ◌-◌, ◌*◌, ◌≤◌, ◌++◌, nat_lt, if◌then◌else◌, [], ◌∷◌, length, All, Some, None, OnOk};
ghost use Rattle.std.specs.List.{flat_map};
ghost use Rattle.collection_keys.specs.Collections.{Pairs};
ghost use Rattle.condition_sets.specs.declared.amount.TheConstants.{MAX_AMOUNT};
ghost use Rattle.ledger_book.specs.Entries.{held_after};
ghost use Rattle.ledger_book.specs.Ledger.{amount_at};
ghost use Rattle.ledger_book.specs.Planning.{PlannedBy};
ghost use Rattle.ledger_book.specs.Postings.{credit, debit, AreWithin, IsFunded};
ghost use Rattle.ledger_book.specs.declared.staged.TheConstants.{MAX_POSTED};
ghost use Rattle.match_kinds.specs.Matching.{IsMaker, IsPart, maker_fee, paid_asset, taken_asset, taking_by};
ghost use Rattle.match_kinds.specs.Settling.{maker_postings, unfunded};
ghost use Rattle.match_kinds.specs.declared.part.TheConstants.{MAX_MAKERS};

use crate::assets::{paid_asset, taken_asset};
use crate::charges::maker_fee;
use crate::part::{Part, taking_by};
use condition_sets::{ConditionId, NoMemory};
use ledger_book::laws::net_amounts_grow_by_each_posting;
use ledger_book::{DebitFault, Ledger, PlanFault, Staged};

// Stages what the taker pays, and then what each maker pays and gets.
pub(crate) fn stage_fills(
    s: &mut Staged,
    l: &Ledger,
    market: ConditionId,
    taker: &Part,
    makers: &[Part],
) -> Result<(), PlanFault>
    requires new { s.old.postings ≡ [] }
    requires few { length makers.now ≤ MAX_MAKERS }
    requires taker { IsPart taker.now }
    requires makers { All (IsMaker taker.now) makers.now }

    ensures ok { OnOk result (s.new.postings ≡ debit taker.now.account (paid_asset market taker.now) taker.now.fill ∷ flat_map (maker_postings market) makers.now) }
    ensures short { PlannedBy (unfunded (amount_at l.now) market taker.now makers.now) result }
    ensures vault { s.new.vault ≡ s.old.vault }
    ensures funded { OnOk result (IsFunded (amount_at l.now) s.new.postings) }
    ensures within { OnOk result (AreWithin (33 * MAX_AMOUNT) s.new.postings) }
{
    net_amounts_grow_by_each_posting();
    stage_fill(s, l, market, taker, 0)?;
    for (index, maker) in makers.iter().enumerate() {
        stage_fill(s, l, market, maker, index as u8 + 1)?;
        stage_taking(s, market, maker)?;
    }
    Ok(())
}

// Stages what the part at a place pays.
fn stage_fill(
    s: &mut Staged,
    l: &Ledger,
    market: ConditionId,
    part: &Part,
    place: u8,
) -> Result<(), PlanFault>
    requires part { IsPart part.now }
    requires funded { IsFunded (amount_at l.now) s.old.postings }
    requires within { AreWithin (MAX_POSTED - MAX_AMOUNT) s.old.postings }

    ensures ok { OnOk result (s.new.postings ≡ s.old.postings ++ debit part.now.account (paid_asset market part.now) part.now.fill ∷ []) }
    ensures short { let have = held_after (amount_at l.now) s.old.postings part.now.account (paid_asset market part.now) in PlannedBy (if nat_lt have part.now.fill then Some (place, have) else None) result }
    ensures vault { s.new.vault ≡ s.old.vault }
    ensures funded { OnOk result (IsFunded (amount_at l.now) s.new.postings) }
    ensures within { (most : ℕ) → OnOk result (AreWithin most s.old.postings → AreWithin (most + part.now.fill) s.new.postings) }
    ensures amount { part.now.fill ≤ MAX_AMOUNT }
{
    net_amounts_grow_by_each_posting();
    // It is in its range, and the fill is within it.
    let _most = part.limit.making();
    match s.debit(l, part.account, &paid_asset(market, part), part.fill) {
        Ok(()) => Ok(()),
        Err(DebitFault::Short { have }) => Err(PlanFault::Short { have, place }),
        Err(DebitFault::Memory) => Err(PlanFault::Memory),
    }
}

// Stages what a maker gets, less its fee.
fn stage_taking(s: &mut Staged, market: ConditionId, m: &Part) -> Result<(), NoMemory>
    requires part { IsPart m.now }
    requires within { AreWithin (MAX_POSTED - MAX_AMOUNT) s.old.postings }

    ensures ok { OnOk result (s.new.postings ≡ s.old.postings ++ credit m.now.account (taken_asset market m.now) (taking_by m.now - maker_fee m.now) ∷ []) }
    ensures vault { s.new.vault ≡ s.old.vault }
    ensures funded { (held : ℕ → Pairs → ℕ) → OnOk result (IsFunded held s.old.postings → IsFunded held s.new.postings) }
    ensures within { (most : ℕ) → OnOk result (AreWithin most s.old.postings → AreWithin (most + MAX_AMOUNT) s.new.postings) }
{
    net_amounts_grow_by_each_posting();
    let amount = taking_by(m) - maker_fee(m);
    s.credit(m.account, &taken_asset(market, m), amount)
}
