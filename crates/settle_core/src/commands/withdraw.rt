//! `withdraw`: an amount of the caller's cash is paid out of the vault.

ghost use Rattle.std.specs.Prelude.{◌≡◌, ◌≤◌, IfOk};
ghost use Rattle.condition_sets.specs.declared.amount.TheConstants.{MAX_AMOUNT};
ghost use Rattle.command_words.specs.declared.command.Command.TheVariants.{Withdraw};
ghost use Rattle.settle_core.specs.Exchange.{asked, AreChangesOf};
ghost use Rattle.settle_core.specs.Verdict.{verdict, AnsweredBy};

use crate::changes::Changes;
use crate::exchange::Exchange;
use collection_keys::Collection;
use command_words::Refusal;
use condition_sets::{AccountId, EXCHANGE};
use ledger_book::Staged;
use ledger_book::laws::net_amounts_grow_by_each_posting;

impl Exchange {
    #[tactic(auto, unfolding(crate::specs::Verdict::verdict))]
    pub(crate) fn changes_of_withdraw(
        &self,
        account: AccountId,
        amount: u64,
        now: u64,
    ) -> Result<Changes, Refusal>
        requires { amount ≤ MAX_AMOUNT }

        ensures verdict { AnsweredBy (verdict (asked self.now account (Withdraw amount) now)) result }
        ensures changes { IfOk result (λ changes. AreChangesOf self.now.history account (Withdraw amount) changes) }
    {
        if account.get() == EXCHANGE {
            return Err(Refusal::NotAllowed);
        }
        let mut staged = Staged::new(self.alloc)?;
        net_amounts_grow_by_each_posting();
        match self.take(&mut staged, account, &Collection::root(), amount) {
            Ok(()) => {}
            Err(refusal) => return Err(refusal),
        }
        staged.change_vault(-i128::from(amount));
        match self.refusal_at_last(&staged) {
            Some(refusal) => Err(refusal),
            None => Ok(self.done(staged)),
        }
    }
}
