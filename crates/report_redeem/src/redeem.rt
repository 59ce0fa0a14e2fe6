ghost use Rattle.std.specs.Prelude.{◌≡◌, ◌<◌, ◌≤◌, [], length, All, None, IfOk, OnOk};
ghost use Rattle.collection_keys.specs.Collections.{part};
ghost use Rattle.collection_keys.specs.declared.collection.TheConstants.{MAX_PAIRS};
ghost use Rattle.condition_sets.specs.Sets.{IsProper};
ghost use Rattle.condition_sets.specs.declared.slot_count.TheConstants.{MAX_SLOTS};
ghost use Rattle.condition_table.specs.Conditions.{IsReport};
ghost use Rattle.ledger_book.specs.Ledger.{amount_at};
ghost use Rattle.ledger_book.specs.Postings.{IsFunded};
ghost use Rattle.report_redeem.specs.Redeeming.{redeem_postings, redeem_sums};
ghost use Rattle.report_redeem.specs.declared.redeem.TheConstants.{MAX_REDEEMED};

use crate::one_set::redeem_one;
use collection_keys::Collection;
use condition_sets::{AccountId, ConditionId, IndexSet, NoMemory, Sums};
use ledger_book::{Ledger, Staged};
use std::alloc::Global;

/// The most sets that one redemption names.
pub const MAX_REDEEMED: usize = 32;

/// Stages the redemption of sets of a reported condition, and answers what is paid for each named set, in collateral units
/// or units of the parent's shares. Of each set in order the account's whole present balance of the parent with the set is
/// burnt, and the part of it that the set's numerators are of all, rounded down, is paid of the parent. A set that is named
/// again has nothing left, and pays 0.
/// (Gnosis Conditional Tokens, developer documentation: redeeming positions.)
pub fn plan_redeem(
    alloc: Global,
    s: &mut Staged,
    l: &Ledger,
    a: AccountId,
    parent: &Collection,
    c: ConditionId,
    sets: &[IndexSet],
    numerators: &[u32],
) -> Result<Sums, NoMemory>
    requires new { s.old.postings ≡ [] }
    requires few { length sets.now ≤ MAX_REDEEMED }
    requires free { part parent.now c ≡ None }
    requires shallow { length parent.now < MAX_PAIRS }
    requires report { IsReport (length numerators.now) numerators.now }
    requires slots { length numerators.now ≤ MAX_SLOTS }
    requires proper { All (IsProper (length numerators.now)) sets.now }

    ensures postings { OnOk result (s.new.postings ≡ redeem_postings (amount_at l.now) a parent.now c numerators.now sets.now) }
    ensures paid { IfOk result (λ sums. sums ≡ redeem_sums (amount_at l.now) a parent.now c numerators.now sets.now) }
    ensures vault { s.new.vault ≡ s.old.vault }
    ensures funded { OnOk result (IsFunded (amount_at l.now) s.new.postings) }
{
    let mut paid = Sums::new(alloc);
    for set in sets {
        paid.push(redeem_one(s, l, a, parent, c, *set, numerators)?)?;
    }
    Ok(paid)
}
