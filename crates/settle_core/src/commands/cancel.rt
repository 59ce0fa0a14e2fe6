//! `cancel`: an order's maker ends it.

ghost use Rattle.std.specs.Prelude.{◌≡◌, IfOk};
ghost use Rattle.command_words.specs.declared.command.Command.TheVariants.{Cancel};
ghost use Rattle.settle_core.specs.Exchange.{asked, AreChangesOf};
ghost use Rattle.settle_core.specs.Verdict.{verdict, AnsweredBy};

use crate::changes::Changes;
use crate::exchange::Exchange;
use command_words::Refusal;
use condition_sets::{AccountId, EXCHANGE, OrderId};

impl Exchange {
    #[tactic(auto, unfolding(crate::specs::Verdict::verdict))]
    pub(crate) fn changes_of_cancel(
        &self,
        account: AccountId,
        order: OrderId,
        now: u64,
    ) -> Result<Changes, Refusal>
        ensures verdict { AnsweredBy (verdict (asked self.now account (Cancel order) now)) result }
        ensures changes { IfOk result (λ changes. AreChangesOf self.now.history account (Cancel order) changes) }
    {
        if account.get() == EXCHANGE {
            return Err(Refusal::NotAllowed);
        }
        let Some(facts) = self.orders.get(order) else {
            return Err(Refusal::NoOrder { place: 0 });
        };
        if facts.placed.account != account {
            return Err(Refusal::NotAllowed);
        }
        if !facts.is_open {
            return Err(Refusal::NotOpen {
                filled: facts.filled,
                place: 0,
            });
        }
        if self.is_full() {
            return Err(Refusal::HistoryFull);
        }
        self.nothing()
    }
}
