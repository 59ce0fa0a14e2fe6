//! `lapse`: the operator ends an order that isn't live, or whose maker hasn't what is left of it.

ghost use Rattle.std.specs.Prelude.{◌≡◌, IfOk};
ghost use Rattle.command_words.specs.declared.command.Command.TheVariants.{Lapse};
ghost use Rattle.settle_core.specs.Exchange.{asked, AreChangesOf};
ghost use Rattle.settle_core.specs.OrderRules.{paid_by};
ghost use Rattle.settle_core.specs.Postings.{balance};
ghost use Rattle.settle_core.specs.Verdict.{verdict, AnsweredBy};

use crate::changes::Changes;
use crate::commands::match_::part_of;
use crate::exchange::Exchange;
use crate::rules::left_of;
use command_words::Refusal;
use condition_sets::{AccountId, OPERATOR, OrderId};
use match_kinds::paid_asset;
use order_table::Placed;

impl Exchange {
    #[tactic(auto, unfolding(crate::specs::Verdict::verdict))]
    pub(crate) fn changes_of_lapse(
        &self,
        account: AccountId,
        order: OrderId,
        now: u64,
    ) -> Result<Changes, Refusal>
        ensures verdict { AnsweredBy (verdict (asked self.now account (Lapse order) now)) result }
        ensures changes { IfOk result (λ changes. AreChangesOf self.now.history account (Lapse order) changes) }
    {
        if account.get() != OPERATOR {
            return Err(Refusal::NotAllowed);
        }
        let Some(facts) = self.orders.get(order) else {
            return Err(Refusal::NoOrder { place: 0 });
        };
        if !facts.is_open {
            return Err(Refusal::NotOpen {
                filled: facts.filled,
                place: 0,
            });
        }
        let have = self.held_to_pay(&facts.placed);
        if self.is_live(&facts, now) && left_of(&facts) <= have {
            return Err(Refusal::Funded { have });
        }
        if self.is_full() {
            return Err(Refusal::HistoryFull);
        }
        self.nothing()
    }

    /// What the maker of an order has of what the order pays.
    fn held_to_pay(&self, order: &Placed) -> u64
        ensures { result ≡ balance self.now.history order.now.account (paid_by order.now) }
    {
        let part = part_of(order, 0);
        self.ledger
            .balance(order.account, &paid_asset(order.market, &part))
    }
}
