//! `redeem`: all that the caller holds of each of a reported condition's sets is paid out, in the parent position.

ghost use Rattle.std.specs.Prelude.{◌≡◌, true, IfOk};
ghost use Rattle.command_words.specs.Command.{in_ranges};
ghost use Rattle.command_words.specs.declared.command.Command.TheVariants.{Redeem};
ghost use Rattle.settle_core.specs.Exchange.{asked, AreChangesOf};
ghost use Rattle.settle_core.specs.Verdict.{verdict, AnsweredBy};

use crate::changes::Changes;
use crate::exchange::Exchange;
use crate::keys::chosen;
use command_words::{Refusal, Reply};
use condition_sets::{AccountId, Bits, ConditionId, EXCHANGE, Pairs};
use ledger_book::Staged;
use report_redeem::plan_redeem;

impl Exchange {
    pub(crate) fn changes_of_redeem(
        &self,
        account: AccountId,
        parent: &Pairs,
        condition: ConditionId,
        sets: &Bits,
        now: u64,
    ) -> Result<Changes, Refusal>
        requires { in_ranges (Redeem parent.now condition sets.now) ≡ true }

        ensures verdict { AnsweredBy (verdict (asked self.now account (Redeem parent.now condition sets.now) now)) result }
        ensures changes { IfOk result (λ changes. AreChangesOf self.now.history account (Redeem parent.now condition sets.now) changes) }
    {
        if account.get() == EXCHANGE {
            return Err(Refusal::NotAllowed);
        }
        let chosen = match chosen(
            self.alloc,
            &self.conditions,
            parent.as_slice(),
            condition,
            sets.as_slice(),
        ) {
            Ok(chosen) => chosen,
            Err(refusal) => return Err(refusal),
        };
        let Some(numerators) = self.conditions.numerators(condition) else {
            return Err(Refusal::NotReported);
        };
        let mut staged = Staged::new(self.alloc)?;
        let paid = plan_redeem(
            self.alloc,
            &mut staged,
            &self.ledger,
            account,
            &chosen.parent,
            condition,
            &chosen.sets,
            numerators,
        )?;
        match self.refusal_at_last(&staged) {
            Some(refusal) => Err(refusal),
            None => Ok(Changes {
                staged,
                numerators: None,
                reply: Reply::Redeemed {
                    lsn: self.history.len() as u64,
                    paid,
                },
            }),
        }
    }
}
