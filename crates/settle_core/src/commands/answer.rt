//! `answer`: an event's oracle says of one of its questions whether it came out YES or NO.

ghost use Rattle.std.specs.Prelude.{◌≡◌, if◌then◌else◌, true, None, IfOk};
ghost use Rattle.command_words.specs.Command.{in_ranges};
ghost use Rattle.command_words.specs.declared.command.Command.TheVariants.{Answer};
ghost use Rattle.event_table.specs.Events.{winner_in};
ghost use Rattle.settle_core.specs.Book.{answer_of, events};
ghost use Rattle.settle_core.specs.Exchange.{asked, AreChangesOf};
ghost use Rattle.settle_core.specs.Verdict.{verdict, AnsweredBy};

use crate::changes::Changes;
use crate::commands::report::is_reported;
use crate::exchange::Exchange;
use command_words::{Refusal, Reply};
use condition_sets::{AccountId, Bits, EXCHANGE, EventId, NoMemory};
use ledger_book::Staged;
use std::alloc::Global;

impl Exchange {
    #[tactic(auto, unfolding(crate::specs::Verdict::verdict))]
    pub(crate) fn changes_of_answer(
        &self,
        account: AccountId,
        event: EventId,
        question: u8,
        yes: bool,
        now: u64,
    ) -> Result<Changes, Refusal>
        requires { in_ranges (Answer event question yes) ≡ true }

        ensures verdict { AnsweredBy (verdict (asked self.now account (Answer event question yes) now)) result }
        ensures changes { IfOk result (λ changes. AreChangesOf self.now.history account (Answer event question yes) changes) }
    {
        if account.get() == EXCHANGE {
            return Err(Refusal::NotAllowed);
        }
        let Some(facts) = self.events.get(event) else {
            return Err(Refusal::NoEvent);
        };
        if facts.oracle != account {
            return Err(Refusal::NotAllowed);
        }
        let Some(condition) = self.events.question(event, question) else {
            return Err(Refusal::NoCondition);
        };
        if is_reported(&self.conditions, condition) {
            return Err(Refusal::AlreadyReported);
        }
        if let Some(winner) = self.winner_before(event, yes) {
            return Err(Refusal::Determined { winner });
        }
        if self.is_full() {
            return Err(Refusal::HistoryFull);
        }
        let staged = Staged::new(self.alloc)?;
        let numerators = answer_of(self.alloc, yes)?;
        Ok(Changes {
            staged,
            numerators: Some(numerators),
            reply: Reply::Done {
                lsn: self.history.len() as u64,
            },
        })
    }

    /// The question of an event that was answered YES, where another answer says YES.
    fn winner_before(&self, event: EventId, yes: bool) -> Option<u8>
        ensures { result ≡ (if yes then winner_in (events self.now.history) event else None) }
    {
        if yes { self.events.winner(event) } else { None }
    }
}

/// The numerators of an answer: YES is the first slot, NO the second.
fn answer_of(alloc: Global, yes: bool) -> Result<Bits, NoMemory>
    ensures { IfOk result (λ numerators. numerators ≡ answer_of yes) }
{
    let mut numerators = Bits::new(alloc);
    numerators.push(u32::from(yes))?;
    numerators.push(u32::from(!yes))?;
    Ok(numerators)
}
