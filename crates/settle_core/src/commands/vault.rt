//! `vault`: what the vault holds.

ghost use Rattle.std.specs.Prelude.{◌≡◌, ℕ, IfOk};
ghost use Rattle.std.specs.Result.{result_err};
ghost use Rattle.command_words.specs.Reply.{IsSound};
ghost use Rattle.command_words.specs.declared.command.Command.TheVariants.{Vault};
ghost use Rattle.settle_core.specs.Exchange.{asked};
ghost use Rattle.settle_core.specs.Reply.{accepted_reply};
ghost use Rattle.settle_core.specs.Verdict.{verdict};

use crate::exchange::Exchange;
use command_words::{Refusal, Reply};
use condition_sets::{AccountId, EXCHANGE};

impl Exchange {
    /// The reply to a question for the vault, or its refusal.
    #[tactic(auto, unfolding(crate::specs::Verdict::verdict))]
    pub(crate) fn read_vault(&self, account: AccountId) -> Result<Reply, Refusal>
        ensures ok { IfOk result (λ reply. reply ≡ accepted_reply self.now.history account Vault) }
        ensures verdict { (now : ℕ) → result_err result ≡ verdict (asked self.now account Vault now) }
        ensures sound { IfOk result IsSound }
    {
        if account.get() == EXCHANGE {
            return Err(Refusal::NotAllowed);
        }
        Ok(Reply::Vaulted {
            rests: self.history.len() as u64,
            vault: self.ledger.vault(),
        })
    }
}
