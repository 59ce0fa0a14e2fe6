ghost use Rattle.std.specs.Prelude.{◌≡◌, ℕ, [], length, slice_get, IfOk, OnOk, MatchOption};
ghost use Rattle.convert_positions.specs.Converting.{ConvertedBy, IsChoice, convert_postings, converted_of, short_question};
ghost use Rattle.event_table.specs.Events.{EventView};
ghost use Rattle.ledger_book.specs.Ledger.{amount_at};
ghost use Rattle.ledger_book.specs.Postings.{IsFunded};

use crate::fees::fee_of;
use crate::paying::pay;
use crate::taking::take_chosen;
use condition_sets::{AccountId, Amount, EventId, OPERATOR};
use event_table::Events;
use ledger_book::{Ledger, PlanFault, Staged};

/// What a conversion gave the caller: shares of YES of each of the other questions, and collateral units.
#[derive(Clone, Copy, Debug, PartialEq, Eq)]
pub struct Converted {
    pub out: u64,
    pub paid: u64,
}

/// Stages the conversion of an amount of NO of each question of an event that is in the set, by its place. The account is
/// paid the amount less the fee of YES of every other question, and that much cash for each question of the set but one;
/// account 0 is paid the fee of each of these YES and of as much cash. The fee is the event's part of the amount, rounded
/// down. `Short` comes exactly where less NO of a question of the set is held than the amount, with the first such place.
/// (Polymarket, NegRiskAdapter: converting positions.)
pub fn plan_convert(
    s: &mut Staged,
    l: &Ledger,
    e: &Events,
    a: AccountId,
    event: EventId,
    set: u32,
    amount: Amount,
) -> Result<Converted, PlanFault>
    requires new { s.old.postings ≡ [] }
    requires choice { MatchOption (slice_get e.now.events event) ⊥ (λ view. IsChoice (length view.conditions) set) }

    ensures postings { MatchOption (slice_get e.now.events event) ⊥ (λ view. OnOk result (s.new.postings ≡ convert_postings a amount view.bips set view.conditions)) }
    ensures converted { MatchOption (slice_get e.now.events event) ⊥ (λ view. IfOk result (λ converted. converted ≡ converted_of amount view.bips set view.conditions)) }
    ensures short { MatchOption (slice_get e.now.events event) ⊥ (λ view. ConvertedBy (short_question (amount_at l.now a) amount set view.conditions) result) }
    ensures vault { s.new.vault ≡ s.old.vault }
    ensures funded { OnOk result (IsFunded (amount_at l.now) s.new.postings) }
{
    let Some(facts) = e.get(event) else {
        unreachable!()
    };
    let fee = fee_of(amount, facts.bips);
    let out = amount.get() - fee;
    let operator = AccountId(OPERATOR);
    take_chosen(s, l, e, a, event, facts.questions, set, amount)?;
    let paid = pay(s, e, a, event, facts.questions, set, out)?;
    pay(s, e, operator, event, facts.questions, set, fee)?;
    Ok(Converted { out, paid })
}
