ghost use Rattle.std.specs.Prelude.{◌≡◌, ℕ, ◌+◌, ◌-◌, ◌*◌, ◌<◌, ◌≤◌, ◌++◌, length, None, IfOk, OnOk, sum};
ghost use Rattle.collection_keys.specs.Collections.{part, joined};
ghost use Rattle.collection_keys.specs.declared.collection.TheConstants.{MAX_PAIRS};
ghost use Rattle.condition_sets.specs.declared.amount.TheConstants.{MAX_AMOUNT};
ghost use Rattle.condition_sets.specs.declared.slot_count.TheConstants.{MAX_SLOTS};
ghost use Rattle.ledger_book.specs.Entries.{held_after};
ghost use Rattle.ledger_book.specs.Ledger.{amount_at};
ghost use Rattle.ledger_book.specs.Postings.{credits, AreWithin, IsFunded};
ghost use Rattle.ledger_book.specs.declared.staged.TheConstants.{MAX_POSTED};
ghost use Rattle.report_redeem.specs.Redeeming.{redeemed_of, postings_for};

use crate::shares::share_of;
use collection_keys::Collection;
use condition_sets::{AccountId, ConditionId, IndexSet, NoMemory};
use ledger_book::laws::net_amounts_grow_by_each_posting;
use ledger_book::{DebitFault, Ledger, Staged};

// Stages the redemption of one set, and answers what is paid for it. Nothing was paid to its position so far.
pub(crate) fn redeem_one(
    s: &mut Staged,
    l: &Ledger,
    a: AccountId,
    parent: &Collection,
    c: ConditionId,
    set: IndexSet,
    numerators: &[u32],
) -> Result<u64, NoMemory>
    requires free { part parent.now c ≡ None }
    requires shallow { length parent.now < MAX_PAIRS }
    requires some { 0 < sum numerators.now }
    requires slots { length numerators.now ≤ MAX_SLOTS }
    requires unpaid { credits s.old.postings a (joined parent.now c set) ≡ 0 }
    requires funded { IsFunded (amount_at l.now) s.old.postings }
    requires within { AreWithin (MAX_POSTED - 2 * MAX_AMOUNT) s.old.postings }

    ensures postings { let burnt = held_after (amount_at l.now) s.old.postings a (joined parent.now c set) in OnOk result (s.new.postings ≡ s.old.postings ++ postings_for a parent.now c (redeemed_of numerators.now set burnt)) }
    ensures paid { let burnt = held_after (amount_at l.now) s.old.postings a (joined parent.now c set) in IfOk result (λ n. n ≡ (redeemed_of numerators.now set burnt).paid) }
    ensures vault { s.new.vault ≡ s.old.vault }
    ensures funded { OnOk result (IsFunded (amount_at l.now) s.new.postings) }
    ensures within { (most : ℕ) → OnOk result (AreWithin most s.old.postings → AreWithin (most + 2 * MAX_AMOUNT) s.new.postings) }
{
    net_amounts_grow_by_each_posting();
    let Ok(part) = parent.with(c, set) else {
        unreachable!()
    };
    let burnt = s.have(l, a, &part);
    let paid = share_of(numerators, set, burnt);
    match s.debit(l, a, &part, burnt) {
        Ok(()) => {}
        Err(DebitFault::Short { .. }) => unreachable!(),
        Err(DebitFault::Memory) => return Err(NoMemory),
    }
    s.credit(a, parent, paid)?;
    Ok(paid)
}
