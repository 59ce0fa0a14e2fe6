//! `balance`: what an account holds of a collection.

ghost use Rattle.std.specs.Prelude.{◌≡◌, ℕ, true, IfOk};
ghost use Rattle.std.specs.Result.{result_err};
ghost use Rattle.command_words.specs.Command.{in_ranges};
ghost use Rattle.command_words.specs.Reply.{IsSound};
ghost use Rattle.command_words.specs.declared.command.Command.TheVariants.{Balance};
ghost use Rattle.settle_core.specs.Exchange.{asked};
ghost use Rattle.settle_core.specs.Reply.{accepted_reply};
ghost use Rattle.settle_core.specs.Verdict.{verdict};

use crate::exchange::Exchange;
use crate::keys::{collection_of, key_is_improper, key_is_unprepared};
use collection_keys::MAX_PAIRS;
use command_words::{Refusal, Reply};
use condition_sets::{AccountId, EXCHANGE, Pairs};

impl Exchange {
    /// The reply to a question for a balance, or its refusal.
    #[tactic(auto, unfolding(crate::specs::Verdict::verdict))]
    pub(crate) fn read_balance(
        &self,
        account: AccountId,
        of: AccountId,
        key: &Pairs,
    ) -> Result<Reply, Refusal>
        requires { in_ranges (Balance of key.now) ≡ true }

        ensures ok { IfOk result (λ reply. reply ≡ accepted_reply self.now.history account (Balance of key.now)) }
        ensures verdict { (now : ℕ) → result_err result ≡ verdict (asked self.now account (Balance of key.now) now) }
        ensures sound { IfOk result IsSound }
    {
        if account.get() == EXCHANGE {
            return Err(Refusal::NotAllowed);
        }
        let key = key.as_slice();
        if key_is_unprepared(&self.conditions, key) {
            return Err(Refusal::NoCondition);
        }
        if key_is_improper(&self.conditions, key) {
            return Err(Refusal::BadSet);
        }
        if key.len() > MAX_PAIRS {
            return Err(Refusal::TooDeep);
        }
        let collection = collection_of(&self.conditions, key);
        Ok(Reply::Balanced {
            amount: self.ledger.balance(of, &collection),
            rests: self.history.len() as u64,
        })
    }
}
