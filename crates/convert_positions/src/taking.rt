ghost use Rattle.std.specs.Prelude.{◌≡◌, ℕ, ◌*◌, ◌+◌, ◌<◌, ◌≤◌, nat_lt, if◌then◌else◌, [], ◌∷◌, ◌++◌, length, map, Some, None, OnOk};
ghost use Rattle.convert_positions.specs.Converting.{no_of, chosen, short_question};
ghost use Rattle.convert_positions.specs.Questions.{conditions_in};
ghost use Rattle.event_table.specs.Events.{AreDistinct};
ghost use Rattle.event_table.specs.declared.events.TheConstants.{MAX_QUESTIONS};
ghost use Rattle.ledger_book.specs.Ledger.{amount_at};
ghost use Rattle.ledger_book.specs.Planning.{PlannedBy};
ghost use Rattle.ledger_book.specs.Postings.{debit, credits, debits, AreWithin, IsFunded};

use crate::questions::{condition_at, is_chosen, no_of};
use collection_keys::Collection;
use condition_sets::{AccountId, Amount, EventId};
use event_table::Events;
use ledger_book::laws::net_amounts_grow_by_each_posting;
use ledger_book::{DebitFault, Ledger, PlanFault, Staged};

// Stages what is taken: the amount of NO of each question in the set, in their order.
pub(crate) fn take_chosen(
    s: &mut Staged,
    l: &Ledger,
    e: &Events,
    a: AccountId,
    event: EventId,
    questions: u8,
    set: u32,
    amount: Amount,
) -> Result<(), PlanFault>
    requires new { s.old.postings ≡ [] }
    requires questions { length (conditions_in e.now.events event) ≡ questions }
    requires few { questions ≤ MAX_QUESTIONS }
    requires distinct { AreDistinct (conditions_in e.now.events event) }

    ensures ok { OnOk result (s.new.postings ≡ map (λ c. debit a (no_of c) amount) (chosen set (conditions_in e.now.events event))) }
    ensures short { PlannedBy (short_question (amount_at l.now a) amount set (conditions_in e.now.events event)) result }
    ensures vault { s.new.vault ≡ s.old.vault }
    ensures funded { OnOk result (IsFunded (amount_at l.now) s.new.postings) }
    ensures within { OnOk result (AreWithin (questions * amount) s.new.postings) }
{
    for place in 0..questions {
        if is_chosen(set, place) {
            let no = no_of(condition_at(e, event, place));
            take(s, l, a, &no, place, amount)?;
        }
    }
    Ok(())
}

// Stages what is taken at a place, of a position to which nothing is posted so far.
fn take(
    s: &mut Staged,
    l: &Ledger,
    a: AccountId,
    k: &Collection,
    place: u8,
    amount: Amount,
) -> Result<(), PlanFault>
    requires few { place < MAX_QUESTIONS }
    requires unpaid { credits s.old.postings a k.now ≡ 0 }
    requires untaken { debits s.old.postings a k.now ≡ 0 }
    requires within { AreWithin (place * amount) s.old.postings }

    ensures ok { OnOk result (s.new ≡ record s.old { postings = s.old.postings ++ debit a k.now amount ∷ [] }) }
    ensures short { PlannedBy (if nat_lt (amount_at l.now a k.now) amount then Some (place, amount_at l.now a k.now) else None) result }
    ensures vault { s.new.vault ≡ s.old.vault }
    ensures funded { OnOk result (IsFunded (amount_at l.now) s.old.postings → IsFunded (amount_at l.now) s.new.postings) }
    ensures within { OnOk result (AreWithin ((place + 1) * amount) s.new.postings) }
{
    net_amounts_grow_by_each_posting();
    match s.debit(l, a, k, amount.get()) {
        Ok(()) => Ok(()),
        Err(DebitFault::Short { have }) => Err(PlanFault::Short { have, place }),
        Err(DebitFault::Memory) => Err(PlanFault::Memory),
    }
}
