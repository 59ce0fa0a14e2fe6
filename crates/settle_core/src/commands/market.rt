//! `market`: the operator opens a market for orders on a condition of two slots.

ghost use Rattle.std.specs.Prelude.{◌≡◌, IfOk};
ghost use Rattle.command_words.specs.declared.command.Command.TheVariants.{Market};
ghost use Rattle.settle_core.specs.Exchange.{asked, AreChangesOf};
ghost use Rattle.settle_core.specs.Verdict.{verdict, AnsweredBy};

use crate::changes::Changes;
use crate::exchange::Exchange;
use command_words::Refusal;
use condition_sets::{AccountId, ConditionId, OPERATOR};

/// How many slots a market's condition has: one for each token.
const TWO_SLOTS: u8 = 2;

impl Exchange {
    #[tactic(auto, unfolding(crate::specs::Verdict::verdict))]
    pub(crate) fn changes_of_market(
        &self,
        account: AccountId,
        condition: ConditionId,
        now: u64,
    ) -> Result<Changes, Refusal>
        ensures verdict { AnsweredBy (verdict (asked self.now account (Market condition) now)) result }
        ensures changes { IfOk result (λ changes. AreChangesOf self.now.history account (Market condition) changes) }
    {
        if account.get() != OPERATOR {
            return Err(Refusal::NotAllowed);
        }
        let Some(facts) = self.conditions.get(condition) else {
            return Err(Refusal::NoCondition);
        };
        if self.orders.is_market(condition) {
            return Err(Refusal::AlreadyPrepared);
        }
        if facts.slots.get() != TWO_SLOTS {
            return Err(Refusal::BadSet);
        }
        if self.is_full() {
            return Err(Refusal::HistoryFull);
        }
        self.nothing()
    }
}
