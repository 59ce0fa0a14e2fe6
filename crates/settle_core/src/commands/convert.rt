//! `convert`: NO of some of an event's questions becomes YES of the others, and cash.

ghost use Rattle.std.specs.Prelude.{◌≡◌, ℕ, ◌≤◌, ◌^◌, nat_le, true, Option, option_map, Err, IfOk};
ghost use Rattle.command_words.specs.Command.{in_ranges};
ghost use Rattle.command_words.specs.declared.command.Command.TheVariants.{Convert};
ghost use Rattle.command_words.specs.declared.refusal.Refusal.TheVariants.{Unfunded};
ghost use Rattle.convert_positions.specs.Converting.{ConvertedBy};
ghost use Rattle.event_table.specs.declared.events.TheConstants.{MAX_QUESTIONS};
ghost use Rattle.settle_core.specs.Exchange.{asked, AreChangesOf};
ghost use Rattle.settle_core.specs.Verdict.{verdict, AnsweredBy};
ghost use Rattle.settle_core.specs.declared.changes.Changes.{Changes};

use crate::changes::Changes;
use crate::exchange::Exchange;
use command_words::{Refusal, Reply};
use condition_sets::{AccountId, Amount, EXCHANGE, EventId};
use convert_positions::plan_convert;
use ledger_book::{PlanFault, Staged};

impl Exchange {
    #[tactic(auto, unfolding(crate::specs::Verdict::verdict))]
    pub(crate) fn changes_of_convert(
        &self,
        account: AccountId,
        event: EventId,
        set: u32,
        amount: u64,
        now: u64,
    ) -> Result<Changes, Refusal>
        requires { in_ranges (Convert event set amount) ≡ true }

        ensures verdict { AnsweredBy (verdict (asked self.now account (Convert event set amount) now)) result }
        ensures changes { IfOk result (λ changes. AreChangesOf self.now.history account (Convert event set amount) changes) }
    {
        if account.get() == EXCHANGE {
            return Err(Refusal::NotAllowed);
        }
        if set == 0 {
            return Err(Refusal::BadSet);
        }
        let Some(facts) = self.events.get(event) else {
            return Err(Refusal::NoEvent);
        };
        if is_outside(set, facts.questions) {
            return Err(Refusal::BadSet);
        }
        let Some(amount) = Amount::new(amount) else {
            unreachable!()
        };
        let mut staged = Staged::new(self.alloc)?;
        let converted = match plan_convert(
            &mut staged,
            &self.ledger,
            &self.events,
            account,
            event,
            set,
            amount,
        ) {
            Ok(converted) => converted,
            Err(fault) => return Err(refused(fault)),
        };
        match self.refusal_at_last(&staged) {
            Some(refusal) => Err(refusal),
            None => Ok(Changes {
                staged,
                numerators: None,
                reply: Reply::Converted {
                    lsn: self.history.len() as u64,
                    out: converted.out,
                    paid: converted.paid,
                },
            }),
        }
    }
}

/// Whether a set has a question past the last of so many.
fn is_outside(set: u32, questions: u8) -> bool
    requires { questions ≤ MAX_QUESTIONS }
    ensures { result ≡ nat_le (2 ^ questions) set }
{
    u64::from(set) >= 1 << questions
}

/// The refusal of a conversion that can't be planned.
fn refused(fault: PlanFault) -> Refusal
    ensures { (short : Option (ℕ × ℕ)) → ConvertedBy short (Err fault) → AnsweredBy {X = Changes} (option_map (λ short. Unfunded short.1 short.0) short) (Err result) }
{
    match fault {
        PlanFault::Short { have, place } => Refusal::Unfunded { have, place },
        PlanFault::Memory => Refusal::Memory,
    }
}
