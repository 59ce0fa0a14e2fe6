ghost use Rattle.std.specs.Prelude.{◌≡◌, ℕ, ◌<◌, ◌≤◌, [], ◌∷◌, ◌++◌, length, map, None, OnOk};
ghost use Rattle.collection_keys.specs.Collections.{Pairs, part};
ghost use Rattle.collection_keys.specs.declared.collection.TheConstants.{MAX_PAIRS};
ghost use Rattle.ledger_book.specs.Ledger.{amount_at};
ghost use Rattle.ledger_book.specs.Planning.{first_short, PlannedBy};
ghost use Rattle.ledger_book.specs.Postings.{credit, AreWithin, IsFunded};
ghost use Rattle.split_merge.specs.Splitting.{whole_of, parts_of, split_postings};
ghost use Rattle.split_merge.specs.declared.parts.TheConstants.{MAX_PARTS};

use crate::parts::{part_of, whole};
use crate::taking::take;
use collection_keys::Collection;
use condition_sets::{AccountId, Amount, ConditionId, IndexSet, NoMemory, Union};
use ledger_book::laws::net_amounts_grow_by_each_posting;
use ledger_book::{Ledger, PlanFault, Staged};

/// Stages a split of an account's position: an amount of the whole is taken, and as much of the part of each set is paid,
/// in the order of the sets. The amount is in collateral units, which are also the units of shares. The part of a set is
/// the parent with the condition and the set. The whole is the parent where the sets have every slot of the condition
/// together, as `union` tells, and else the parent with the condition and their union.
///
/// `Short` comes exactly where the account has less of the whole than the amount, at place 0 with what it has.
/// (Gnosis Conditional Tokens, developer documentation: splitting and merging positions.)
pub fn plan_split(
    s: &mut Staged,
    l: &Ledger,
    a: AccountId,
    parent: &Collection,
    c: ConditionId,
    sets: &[IndexSet],
    union: &Union,
    amount: Amount,
) -> Result<(), PlanFault>
    requires new { s.old.postings ≡ [] }
    requires few { length sets.now ≤ MAX_PARTS }
    requires free { part parent.now c ≡ None }
    requires shallow { length parent.now < MAX_PAIRS }

    ensures ok { OnOk result (s.new.postings ≡ split_postings a (whole_of union.now parent.now c) (parts_of parent.now c sets.now) amount) }
    ensures short { PlannedBy (first_short (amount_at l.now a) amount (whole_of union.now parent.now c ∷ [])) result }
    ensures vault { s.new.vault ≡ s.old.vault }
    ensures funded { OnOk result (IsFunded (amount_at l.now) s.new.postings) }
{
    net_amounts_grow_by_each_posting();
    let whole = whole(parent, c, union);
    take(s, l, a, &whole, 0, amount)?;
    pay_parts(s, a, parent, c, sets, amount)?;
    Ok(())
}

// Stages a payment of the part of each set.
fn pay_parts(
    s: &mut Staged,
    a: AccountId,
    parent: &Collection,
    c: ConditionId,
    sets: &[IndexSet],
    amount: Amount,
) -> Result<(), NoMemory>
    requires few { length sets.now ≤ MAX_PARTS }
    requires free { part parent.now c ≡ None }
    requires shallow { length parent.now < MAX_PAIRS }
    requires within { AreWithin amount s.old.postings }

    ensures ok { OnOk result (s.new.postings ≡ s.old.postings ++ map (λ k. credit a k amount) (parts_of parent.now c sets.now)) }
    ensures vault { s.new.vault ≡ s.old.vault }
    ensures funded { (held : ℕ → Pairs → ℕ) → OnOk result (IsFunded held s.old.postings → IsFunded held s.new.postings) }
{
    net_amounts_grow_by_each_posting();
    for set in sets {
        s.credit(a, &part_of(parent, c, *set), amount.get())?;
    }
    Ok(())
}
