ghost use Rattle.std.specs.Prelude.{◌≡◌, ℕ, ◌*◌, ◌<◌, ◌≤◌, [], ◌∷◌, ◌++◌, length, map, None, OnOk};
ghost use Rattle.condition_sets.specs.Sets.{AreApart};
ghost use Rattle.collection_keys.specs.Collections.{Pairs, part};
ghost use Rattle.collection_keys.specs.declared.collection.TheConstants.{MAX_PAIRS};
ghost use Rattle.ledger_book.specs.Ledger.{amount_at};
ghost use Rattle.ledger_book.specs.Planning.{first_short, PlannedBy};
ghost use Rattle.ledger_book.specs.Postings.{debit, AreWithin, IsFunded};
ghost use Rattle.split_merge.specs.Splitting.{whole_of, parts_of, merge_postings};
ghost use Rattle.split_merge.specs.declared.parts.TheConstants.{MAX_PARTS};

use crate::parts::{part_of, whole};
use crate::taking::take;
use collection_keys::Collection;
use collection_keys::laws::{part_of_joined, same_exactly_where_equal};
use condition_sets::{AccountId, Amount, ConditionId, IndexSet, Union};
use ledger_book::laws::net_amounts_grow_by_each_posting;
use ledger_book::{Ledger, PlanFault, Staged};

/// Stages a merge of an account's positions, the reverse of a split: an amount of the part of each set is taken, in the
/// order of the sets, and as much of the whole is paid. The amount is in collateral units, which are also the units of
/// shares. The part of a set is the parent with the condition and the set. The whole is the parent where the sets have
/// every slot of the condition together, as `union` tells, and else the parent with the condition and their union.
///
/// `Short` comes exactly where the account has less of a part than the amount, at the place of the first such set with
/// what it has.
/// (Gnosis Conditional Tokens, developer documentation: splitting and merging positions.)
pub fn plan_merge(
    s: &mut Staged,
    l: &Ledger,
    a: AccountId,
    parent: &Collection,
    c: ConditionId,
    sets: &[IndexSet],
    union: &Union,
    amount: Amount,
) -> Result<(), PlanFault>
    requires new { s.old.postings ≡ [] }
    requires few { length sets.now ≤ MAX_PARTS }
    requires free { part parent.now c ≡ None }
    requires shallow { length parent.now < MAX_PAIRS }
    requires apart { AreApart sets.now }

    ensures ok { OnOk result (s.new.postings ≡ merge_postings a (whole_of union.now parent.now c) (parts_of parent.now c sets.now) amount) }
    ensures short { PlannedBy (first_short (amount_at l.now a) amount (parts_of parent.now c sets.now)) result }
    ensures vault { s.new.vault ≡ s.old.vault }
    ensures funded { OnOk result (IsFunded (amount_at l.now) s.new.postings) }
{
    net_amounts_grow_by_each_posting();
    take_parts(s, l, a, parent, c, sets, amount)?;
    s.credit(a, &whole(parent, c, union), amount.get())?;
    Ok(())
}

// Stages what is taken of the part of each set.
fn take_parts(
    s: &mut Staged,
    l: &Ledger,
    a: AccountId,
    parent: &Collection,
    c: ConditionId,
    sets: &[IndexSet],
    amount: Amount,
) -> Result<(), PlanFault>
    requires new { s.old.postings ≡ [] }
    requires few { length sets.now ≤ MAX_PARTS }
    requires free { part parent.now c ≡ None }
    requires shallow { length parent.now < MAX_PAIRS }
    requires apart { AreApart sets.now }

    ensures ok { OnOk result (s.new.postings ≡ map (λ k. debit a k amount) (parts_of parent.now c sets.now)) }
    ensures short { PlannedBy (first_short (amount_at l.now a) amount (parts_of parent.now c sets.now)) result }
    ensures vault { s.new.vault ≡ s.old.vault }
    ensures funded { OnOk result (IsFunded (amount_at l.now) s.new.postings) }
    ensures within { OnOk result (AreWithin (length sets.now * amount) s.new.postings) }
{
    net_amounts_grow_by_each_posting();
    part_of_joined();
    same_exactly_where_equal();
    for (place, set) in sets.iter().enumerate() {
        // It isn't empty, so that its part is none of those before it.
        let _bits = set.bits();
        take(s, l, a, &part_of(parent, c, *set), place as u8, amount)?;
    }
    Ok(())
}
