ghost use Rattle.std.specs.Prelude.{◌≡◌, ℕ, ◌*◌, ◌+◌, ◌<◌, ◌≤◌, nat_lt, if◌then◌else◌, [], ◌∷◌, ◌++◌, Some, None, OnOk};
ghost use Rattle.ledger_book.specs.Ledger.{amount_at};
ghost use Rattle.ledger_book.specs.Planning.{PlannedBy};
ghost use Rattle.ledger_book.specs.Postings.{debit, credits, debits, AreWithin, IsFunded};
ghost use Rattle.split_merge.specs.declared.parts.TheConstants.{MAX_PARTS};

use collection_keys::Collection;
use condition_sets::{AccountId, Amount};
use ledger_book::{DebitFault, Ledger, PlanFault, Staged};

// Stages what is taken at a place, of a position to which nothing is posted so far.
pub(crate) fn take(
    s: &mut Staged,
    l: &Ledger,
    a: AccountId,
    k: &Collection,
    place: u8,
    amount: Amount,
) -> Result<(), PlanFault>
    requires few { place < MAX_PARTS }
    requires unpaid { credits s.old.postings a k.now ≡ 0 }
    requires untaken { debits s.old.postings a k.now ≡ 0 }
    requires within { AreWithin (place * amount) s.old.postings }

    ensures ok { OnOk result (s.new ≡ record s.old { postings = s.old.postings ++ debit a k.now amount ∷ [] }) }
    ensures short { PlannedBy (if nat_lt (amount_at l.now a k.now) amount then Some (place, amount_at l.now a k.now) else None) result }
    ensures vault { s.new.vault ≡ s.old.vault }
    ensures funded { OnOk result (IsFunded (amount_at l.now) s.old.postings → IsFunded (amount_at l.now) s.new.postings) }
    ensures within { OnOk result (AreWithin ((place + 1) * amount) s.new.postings) }
{
    match s.debit(l, a, k, amount.get()) {
        Ok(()) => Ok(()),
        Err(DebitFault::Short { have }) => Err(PlanFault::Short { have, place }),
        Err(DebitFault::Memory) => Err(PlanFault::Memory),
    }
}
