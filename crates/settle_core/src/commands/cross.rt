//! `cross`: the operator has the orders of a market matched. Its turns are for whoever keeps the book of the market; the exchange
//! says whether it is refused.

ghost use Rattle.std.specs.Prelude.{◌≡◌, ℕ};
ghost use Rattle.command_words.specs.declared.command.Command.TheVariants.{Cross};
ghost use Rattle.settle_core.specs.Exchange.{asked};
ghost use Rattle.settle_core.specs.Verdict.{verdict};

use crate::exchange::Exchange;
use command_words::Refusal;
use condition_sets::{AccountId, ConditionId, OPERATOR};

impl Exchange {
    /// The refusal of a crossing of a market, at any moment alike; `None` exactly where it isn't refused. It takes no memory.
    #[tactic(auto, unfolding(crate::specs::Verdict::verdict))]
    pub fn refusal_of_cross(&self, account: AccountId, market: ConditionId) -> Option<Refusal>
        ensures { (now : ℕ) → result ≡ verdict (asked self.now account (Cross market) now) }
    {
        if account.get() != OPERATOR {
            return Some(Refusal::NotAllowed);
        }
        if !self.orders.is_market(market) {
            return Some(Refusal::NoMarket);
        }
        None
    }
}
