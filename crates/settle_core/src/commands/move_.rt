//! `move`: an amount of a position goes from the caller to another account.

ghost use Rattle.std.specs.Prelude.{◌≡◌, true, IfOk};
ghost use Rattle.command_words.specs.Command.{in_ranges};
ghost use Rattle.command_words.specs.declared.command.Command.TheVariants.{Move};
ghost use Rattle.settle_core.specs.Exchange.{asked, AreChangesOf};
ghost use Rattle.settle_core.specs.Verdict.{verdict, AnsweredBy};

use crate::changes::Changes;
use crate::exchange::Exchange;
use crate::keys::{collection_of, key_is_improper, key_is_unprepared};
use collection_keys::MAX_PAIRS;
use command_words::Refusal;
use condition_sets::{AccountId, EXCHANGE, Pairs};
use ledger_book::Staged;
use ledger_book::laws::net_amounts_grow_by_each_posting;

impl Exchange {
    #[tactic(auto, unfolding(crate::specs::Verdict::verdict))]
    pub(crate) fn changes_of_move(
        &self,
        account: AccountId,
        to: AccountId,
        key: &Pairs,
        amount: u64,
        now: u64,
    ) -> Result<Changes, Refusal>
        requires { in_ranges (Move to key.now amount) ≡ true }

        ensures verdict { AnsweredBy (verdict (asked self.now account (Move to key.now amount) now)) result }
        ensures changes { IfOk result (λ changes. AreChangesOf self.now.history account (Move to key.now amount) changes) }
    {
        if account.get() == EXCHANGE || to.get() == EXCHANGE {
            return Err(Refusal::NotAllowed);
        }
        let key = key.as_slice();
        if key_is_unprepared(&self.conditions, key) {
            return Err(Refusal::NoCondition);
        }
        if key_is_improper(&self.conditions, key) {
            return Err(Refusal::BadSet);
        }
        if key.len() > MAX_PAIRS {
            return Err(Refusal::TooDeep);
        }
        let collection = collection_of(&self.conditions, key);
        let mut staged = Staged::new(self.alloc)?;
        net_amounts_grow_by_each_posting();
        match self.take(&mut staged, account, &collection, amount) {
            Ok(()) => {}
            Err(refusal) => return Err(refusal),
        }
        staged.credit(to, &collection, amount)?;
        match self.refusal_at_last(&staged) {
            Some(refusal) => Err(refusal),
            None => Ok(self.done(staged)),
        }
    }
}
