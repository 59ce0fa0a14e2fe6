ghost use Rattle.std.specs.Prelude.{◌≡◌, ℕ, ◌+◌, ◌-◌, ◌*◌, ◌<◌, ◌≤◌, List, ◌++◌, length, map, IfOk, OnOk};
ghost use Rattle.collection_keys.specs.Collections.{Pairs};
ghost use Rattle.condition_sets.specs.declared.amount.TheConstants.{MAX_AMOUNT};
ghost use Rattle.convert_positions.specs.Converting.{yes_of, others, cash_of, paid_for, IsChoice};
ghost use Rattle.convert_positions.specs.Questions.{conditions_in};
ghost use Rattle.event_table.specs.declared.events.TheConstants.{MAX_QUESTIONS};
ghost use Rattle.ledger_book.specs.Postings.{credit, AreWithin, IsFunded};
ghost use Rattle.ledger_book.specs.declared.staged.TheConstants.{MAX_POSTED};

use crate::questions::{condition_at, is_chosen, yes_of};
use collection_keys::Collection;
use condition_sets::{AccountId, EventId, NoMemory};
use event_table::Events;
use ledger_book::Staged;
use ledger_book::laws::net_amounts_grow_by_each_posting;

// Stages what an account is paid: so much of the YES of each question that isn't in the set, in their order, and the cash
// that comes with it, which is answered. These are at most 32 of the YES, and at most 31 times as much cash as of each.
pub(crate) fn pay(
    s: &mut Staged,
    e: &Events,
    a: AccountId,
    event: EventId,
    questions: u8,
    set: u32,
    each: u64,
) -> Result<u64, NoMemory>
    requires questions { length (conditions_in e.now.events event) ≡ questions }
    requires few { questions ≤ MAX_QUESTIONS }
    requires choice { IsChoice (length (conditions_in e.now.events event)) set }
    requires each { each ≤ MAX_AMOUNT }
    requires within { AreWithin (MAX_POSTED - 63 * each) s.old.postings }

    ensures ok { OnOk result (s.new.postings ≡ s.old.postings ++ paid_for a each set (conditions_in e.now.events event)) }
    ensures cash { IfOk result (λ cash. cash ≡ cash_of each set (conditions_in e.now.events event)) }
    ensures vault { s.new.vault ≡ s.old.vault }
    ensures funded { (held : ℕ → Pairs → ℕ) → OnOk result (IsFunded held s.old.postings → IsFunded held s.new.postings) }
    ensures within { (most : ℕ) → OnOk result (AreWithin most s.old.postings → AreWithin (most + 63 * each) s.new.postings) }
{
    net_amounts_grow_by_each_posting();
    pay_others(s, e, a, event, questions, set, each)?;
    let cash = cash_of(set, each);
    s.credit(a, &Collection::root(), cash)?;
    Ok(cash)
}

// Stages a payment of the YES of each question that isn't in the set.
fn pay_others(
    s: &mut Staged,
    e: &Events,
    a: AccountId,
    event: EventId,
    questions: u8,
    set: u32,
    each: u64,
) -> Result<(), NoMemory>
    requires questions { length (conditions_in e.now.events event) ≡ questions }
    requires few { questions ≤ MAX_QUESTIONS }
    requires each { each ≤ MAX_AMOUNT }
    requires within { AreWithin (MAX_POSTED - 63 * each) s.old.postings }

    ensures ok { OnOk result (s.new.postings ≡ s.old.postings ++ map (λ c. credit a (yes_of c) each) (others set (conditions_in e.now.events event))) }
    ensures vault { s.new.vault ≡ s.old.vault }
    ensures funded { (held : ℕ → Pairs → ℕ) → OnOk result (IsFunded held s.old.postings → IsFunded held s.new.postings) }
    ensures within { (most : ℕ) → OnOk result (AreWithin most s.old.postings → AreWithin (most + questions * each) s.new.postings) }
{
    net_amounts_grow_by_each_posting();
    for place in 0..questions {
        if !is_chosen(set, place) {
            s.credit(a, &yes_of(condition_at(e, event, place)), each)?;
        }
    }
    Ok(())
}

// The cash that comes with so much of each of the others' YES: as much for each question of the set but one.
fn cash_of(set: u32, each: u64) -> u64
    requires some { 0 < set }
    requires each { each ≤ MAX_AMOUNT }

    ensures value { (conditions : List ℕ) → IsChoice (length conditions) set → result ≡ cash_of each set conditions }
    ensures within { result ≤ 31 * each }
{
    u64::from(set.count_ones() - 1) * each
}
