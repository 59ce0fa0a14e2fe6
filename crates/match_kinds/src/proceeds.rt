//! What the taker gets, and what is charged.

ghost use Rattle.std.specs.Prelude.{◌≡◌, ℕ, ◌-◌, ◌*◌, ◌≤◌, ◌++◌, [], ◌∷◌, length, map, All, OnOk};
ghost use Rattle.collection_keys.specs.Collections.{Pairs};
ghost use Rattle.condition_sets.specs.declared.amount.TheConstants.{MAX_AMOUNT};
ghost use Rattle.condition_sets.specs.declared.names.TheConstants.{OPERATOR};
ghost use Rattle.ledger_book.specs.Postings.{credit, AreWithin, IsFunded};
ghost use Rattle.match_kinds.specs.Matching.{IsMaker, maker_fee, paid_asset, taken_asset};
ghost use Rattle.match_kinds.specs.declared.part.TheConstants.{MAX_MAKERS};

use crate::assets::{paid_asset, taken_asset};
use crate::charges::maker_fee;
use crate::part::Part;
use condition_sets::{AccountId, ConditionId, NoMemory, OPERATOR};
use ledger_book::Staged;
use ledger_book::laws::net_amounts_grow_by_each_posting;

// Stages what comes back to the taker, and what it gets.
pub(crate) fn stage_proceeds(
    s: &mut Staged,
    market: ConditionId,
    taker: &Part,
    refund: u64,
    proceeds: u64,
) -> Result<(), NoMemory>
    requires refund { refund ≤ 17 * MAX_AMOUNT }
    requires proceeds { proceeds ≤ 16 * MAX_AMOUNT }
    requires within { AreWithin (33 * MAX_AMOUNT) s.old.postings }

    ensures ok { OnOk result (s.new.postings ≡ s.old.postings ++ credit taker.now.account (paid_asset market taker.now) refund ∷ credit taker.now.account (taken_asset market taker.now) proceeds ∷ []) }
    ensures vault { s.new.vault ≡ s.old.vault }
    ensures funded { (held : ℕ → Pairs → ℕ) → OnOk result (IsFunded held s.old.postings → IsFunded held s.new.postings) }
    ensures within { OnOk result (AreWithin (66 * MAX_AMOUNT) s.new.postings) }
{
    net_amounts_grow_by_each_posting();
    s.credit(taker.account, &paid_asset(market, taker), refund)?;
    s.credit(taker.account, &taken_asset(market, taker), proceeds)?;
    Ok(())
}

// Stages the fees of the makers and then the taker's, each paid to account 0 in what that part gets.
pub(crate) fn stage_fees(
    s: &mut Staged,
    market: ConditionId,
    taker: &Part,
    makers: &[Part],
    fee: u64,
) -> Result<(), NoMemory>
    requires few { length makers.now ≤ MAX_MAKERS }
    requires makers { All (IsMaker taker.now) makers.now }
    requires fee { fee ≤ 16 * MAX_AMOUNT }
    requires within { AreWithin (66 * MAX_AMOUNT) s.old.postings }

    ensures ok { OnOk result (s.new.postings ≡ s.old.postings ++ (map (λ m. credit OPERATOR (taken_asset market m) (maker_fee m)) makers.now ++ credit OPERATOR (taken_asset market taker.now) fee ∷ [])) }
    ensures vault { s.new.vault ≡ s.old.vault }
    ensures funded { (held : ℕ → Pairs → ℕ) → OnOk result (IsFunded held s.old.postings → IsFunded held s.new.postings) }
{
    net_amounts_grow_by_each_posting();
    for maker in makers {
        let asset = taken_asset(market, maker);
        s.credit(AccountId(OPERATOR), &asset, maker_fee(maker))?;
    }
    s.credit(AccountId(OPERATOR), &taken_asset(market, taker), fee)?;
    Ok(())
}
