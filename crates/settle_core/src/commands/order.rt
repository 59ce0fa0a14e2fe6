//! `order`: how far an order is filled, and whether it is open.

ghost use Rattle.std.specs.Prelude.{◌≡◌, ℕ, IfOk};
ghost use Rattle.std.specs.Result.{result_err};
ghost use Rattle.command_words.specs.Reply.{IsSound};
ghost use Rattle.command_words.specs.declared.command.Command.TheVariants.{Order};
ghost use Rattle.settle_core.specs.Exchange.{asked};
ghost use Rattle.settle_core.specs.Reply.{accepted_reply};
ghost use Rattle.settle_core.specs.Verdict.{verdict};

use crate::exchange::Exchange;
use command_words::{Refusal, Reply};
use condition_sets::{AccountId, EXCHANGE, OrderId};

impl Exchange {
    /// The reply to a question for an order, or its refusal.
    #[tactic(auto, unfolding(crate::specs::Verdict::verdict))]
    pub(crate) fn read_order(&self, account: AccountId, order: OrderId) -> Result<Reply, Refusal>
        ensures ok { IfOk result (λ reply. reply ≡ accepted_reply self.now.history account (Order order)) }
        ensures verdict { (now : ℕ) → result_err result ≡ verdict (asked self.now account (Order order) now) }
        ensures sound { IfOk result IsSound }
    {
        if account.get() == EXCHANGE {
            return Err(Refusal::NotAllowed);
        }
        let Some(facts) = self.orders.get(order) else {
            return Err(Refusal::NoOrder { place: 0 });
        };
        Ok(Reply::Ordered {
            filled: facts.filled,
            live: facts.is_open,
            rests: self.history.len() as u64,
        })
    }
}
