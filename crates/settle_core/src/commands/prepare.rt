//! `prepare`: a condition of an oracle, a question and a number of outcome slots gets its number.

ghost use Rattle.std.specs.Prelude.{◌≡◌, ◌≤◌, ◌<◌, ◌+◌, ◌++◌, ◌∷◌, [], length, None, IfOk};
ghost use Rattle.condition_sets.specs.declared.slot_count.TheConstants.{MIN_SLOTS, MAX_SLOTS};
ghost use Rattle.settle_core.specs.Book.{conditions};
ghost use Rattle.condition_table.specs.Conditions.{place_of};
ghost use Rattle.command_words.specs.declared.command.Command.TheVariants.{Prepare};
ghost use Rattle.settle_core.specs.Exchange.{asked, AreChangesOf};
ghost use Rattle.settle_core.specs.Verdict.{verdict, AnsweredBy};

use crate::changes::Changes;
use crate::exchange::Exchange;
use command_words::{Refusal, Reply};
use condition_sets::{AccountId, ConditionId, EXCHANGE, SlotCount};
use condition_table::Conditions;
use ledger_book::Staged;

impl Exchange {
    #[tactic(auto, unfolding(crate::specs::Verdict::verdict))]
    pub(crate) fn changes_of_prepare(
        &self,
        account: AccountId,
        oracle: AccountId,
        question: u64,
        slots: u8,
        now: u64,
    ) -> Result<Changes, Refusal>
        requires at_least { MIN_SLOTS ≤ slots }
        requires at_most { slots ≤ MAX_SLOTS }

        ensures verdict { AnsweredBy (verdict (asked self.now account (Prepare oracle question slots) now)) result }
        ensures changes { IfOk result (λ changes. AreChangesOf self.now.history account (Prepare oracle question slots) changes) }
    {
        if account.get() == EXCHANGE || oracle.get() == EXCHANGE {
            return Err(Refusal::NotAllowed);
        }
        let Some(slots) = SlotCount::new(slots) else {
            unreachable!()
        };
        if self.conditions.find(oracle, question, slots).is_some() {
            return Err(Refusal::AlreadyPrepared);
        }
        if self.conditions.len() >= self.limits.conditions() {
            return Err(Refusal::TableFull);
        }
        if self.is_full() {
            return Err(Refusal::HistoryFull);
        }
        Ok(Changes {
            staged: Staged::new(self.alloc)?,
            numerators: None,
            reply: self.prepared_reply(),
        })
    }

    /// The reply to a preparation that is accepted.
    fn prepared_reply(&self) -> Reply
        requires { length (conditions self.now.history) < self.now.limits.conditions }
        ensures { result ≡ Reply.Prepared (length (conditions self.now.history)) (length self.now.history) }
    {
        match ConditionId::new(self.conditions.len()) {
            Some(condition) => Reply::Prepared {
                condition,
                lsn: self.history.len() as u64,
            },
            None => unreachable!(),
        }
    }
}

/// Puts a condition behind those of the table.
pub(crate) fn prepare(conditions: &mut Conditions, oracle: AccountId, question: u64, slots: u8)
    requires at_least { MIN_SLOTS ≤ slots }
    requires at_most { slots ≤ MAX_SLOTS }
    requires new { place_of (record { oracle = oracle; question = question; slots = slots }) conditions.old.facts ≡ None }
    requires within { length conditions.old.facts < conditions.old.limit }
    requires room { 0 < conditions.old.room }

    ensures numerators { conditions.new.numerators ≡ conditions.old.numerators ++ None ∷ [] }
    ensures conditions { conditions.new.facts ≡ conditions.old.facts ++ record { oracle = oracle; question = question; slots = slots } ∷ [] }
    ensures limit { conditions.new.limit ≡ conditions.old.limit }
    ensures room { conditions.old.room ≤ conditions.new.room + 1 }
{
    match SlotCount::new(slots) {
        Some(slots) => {
            let _condition = conditions.prepare(oracle, question, slots);
        }
        None => unreachable!(),
    }
}
