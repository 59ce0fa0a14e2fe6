//! `bump`: the caller's nonce is raised by one, so that its older orders count no more.

ghost use Rattle.std.specs.Prelude.{◌≡◌, ◌+◌, IfOk};
ghost use Rattle.command_words.specs.declared.command.Command.TheVariants.{Bump};
ghost use Rattle.settle_core.specs.Exchange.{asked, AreChangesOf};
ghost use Rattle.settle_core.specs.Orders.{nonce};
ghost use Rattle.settle_core.specs.Verdict.{verdict, AnsweredBy};

use crate::changes::Changes;
use crate::exchange::Exchange;
use command_words::{Refusal, Reply};
use condition_sets::{AccountId, EXCHANGE};
use ledger_book::Staged;

impl Exchange {
    #[tactic(auto, unfolding(crate::specs::Verdict::verdict))]
    pub(crate) fn changes_of_bump(&self, account: AccountId, now: u64) -> Result<Changes, Refusal>
        ensures verdict { AnsweredBy (verdict (asked self.now account Bump now)) result }
        ensures changes { IfOk result (λ changes. AreChangesOf self.now.history account Bump changes) }
    {
        if account.get() == EXCHANGE {
            return Err(Refusal::NotAllowed);
        }
        if self.is_full() {
            return Err(Refusal::HistoryFull);
        }
        Ok(Changes {
            staged: Staged::new(self.alloc)?,
            numerators: None,
            reply: Reply::Bumped {
                lsn: self.history.len() as u64,
                nonce: self.next_nonce(account),
            },
        })
    }

    /// The nonce of an account once it is raised.
    fn next_nonce(&self, account: AccountId) -> u64
        ensures { result ≡ nonce self.now.history account + 1 }
    {
        self.orders.nonce(account) + 1
    }
}
