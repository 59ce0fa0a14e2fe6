//! `deposit`: the operator pays collateral into the vault, as cash of an account.

ghost use Rattle.std.specs.Prelude.{◌≡◌, ◌≤◌, IfOk};
ghost use Rattle.condition_sets.specs.declared.amount.TheConstants.{MAX_AMOUNT};
ghost use Rattle.command_words.specs.declared.command.Command.TheVariants.{Deposit};
ghost use Rattle.settle_core.specs.Exchange.{asked, AreChangesOf};
ghost use Rattle.settle_core.specs.Verdict.{verdict, AnsweredBy};

use crate::changes::Changes;
use crate::exchange::Exchange;
use collection_keys::Collection;
use command_words::Refusal;
use condition_sets::{AccountId, EXCHANGE, MAX_AMOUNT, OPERATOR};
use ledger_book::Staged;
use ledger_book::laws::net_amounts_grow_by_each_posting;

impl Exchange {
    #[tactic(auto, unfolding(crate::specs::Verdict::verdict))]
    pub(crate) fn changes_of_deposit(
        &self,
        account: AccountId,
        to: AccountId,
        amount: u64,
        now: u64,
    ) -> Result<Changes, Refusal>
        requires { amount ≤ MAX_AMOUNT }

        ensures verdict { AnsweredBy (verdict (asked self.now account (Deposit to amount) now)) result }
        ensures changes { IfOk result (λ changes. AreChangesOf self.now.history account (Deposit to amount) changes) }
    {
        if account.get() != OPERATOR || to.get() == EXCHANGE {
            return Err(Refusal::NotAllowed);
        }
        let vault = self.ledger.vault();
        if amount > MAX_AMOUNT - vault {
            return Err(Refusal::VaultLimit { vault });
        }
        let mut staged = Staged::new(self.alloc)?;
        net_amounts_grow_by_each_posting();
        staged.credit(to, &Collection::root(), amount)?;
        staged.change_vault(i128::from(amount));
        match self.refusal_at_last(&staged) {
            Some(refusal) => Err(refusal),
            None => Ok(self.done(staged)),
        }
    }
}
