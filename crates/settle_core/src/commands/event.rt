//! `event`: the operator makes an event of questions, and with it a condition of two slots for each.

ghost use Rattle.std.specs.Prelude.{◌≡◌, ◌+◌, ◌<◌, ◌≤◌, length, true, IfOk};
ghost use Rattle.command_words.specs.Command.{in_ranges};
ghost use Rattle.command_words.specs.declared.command.Command.TheVariants.{Event};
ghost use Rattle.settle_core.specs.Book.{conditions, events};
ghost use Rattle.settle_core.specs.Exchange.{asked, AreChangesOf};
ghost use Rattle.settle_core.specs.Verdict.{verdict, AnsweredBy};

use crate::changes::Changes;
use crate::exchange::Exchange;
use command_words::{Refusal, Reply};
use condition_sets::{AccountId, ConditionId, EXCHANGE, EventId, OPERATOR};
use ledger_book::Staged;

impl Exchange {
    #[tactic(auto, unfolding(crate::specs::Verdict::verdict))]
    pub(crate) fn changes_of_event(
        &self,
        account: AccountId,
        oracle: AccountId,
        questions: u8,
        fee: u16,
        now: u64,
    ) -> Result<Changes, Refusal>
        requires { in_ranges (Event oracle questions fee) ≡ true }

        ensures verdict { AnsweredBy (verdict (asked self.now account (Event oracle questions fee) now)) result }
        ensures changes { IfOk result (λ changes. AreChangesOf self.now.history account (Event oracle questions fee) changes) }
    {
        if account.get() != OPERATOR || oracle.get() == EXCHANGE {
            return Err(Refusal::NotAllowed);
        }
        if self.events.len() >= self.limits.events() {
            return Err(Refusal::TableFull);
        }
        if self.conditions.len() + u16::from(questions) > self.limits.conditions() {
            return Err(Refusal::TableFull);
        }
        if self.is_full() {
            return Err(Refusal::HistoryFull);
        }
        Ok(Changes {
            staged: Staged::new(self.alloc)?,
            numerators: None,
            reply: self.event_reply(),
        })
    }

    /// The reply to an event that is made.
    fn event_reply(&self) -> Reply
        requires events { length (events self.now.history) < self.now.limits.events }
        requires conditions { length (conditions self.now.history) < self.now.limits.conditions }
        ensures { result ≡ Reply.EventMade (length (events self.now.history)) (length (conditions self.now.history)) (length self.now.history) }
    {
        let (Some(event), Some(first)) = (
            EventId::new(self.events.len()),
            ConditionId::new(self.conditions.len()),
        ) else {
            unreachable!()
        };
        Reply::EventMade {
            event,
            first,
            lsn: self.history.len() as u64,
        }
    }
}
