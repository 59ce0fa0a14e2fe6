//! `split`: an amount of the parent position becomes as much of each of the condition's sets.

ghost use Rattle.std.specs.Prelude.{◌≡◌, true, IfOk};
ghost use Rattle.command_words.specs.Command.{in_ranges};
ghost use Rattle.command_words.specs.declared.command.Command.TheVariants.{Split};
ghost use Rattle.settle_core.specs.Exchange.{asked, AreChangesOf};
ghost use Rattle.settle_core.specs.Verdict.{verdict, AnsweredBy};

use crate::changes::Changes;
use crate::exchange::Exchange;
use crate::keys::parted;
use command_words::Refusal;
use condition_sets::{AccountId, Amount, Bits, ConditionId, EXCHANGE, Pairs};
use ledger_book::{PlanFault, Staged};
use split_merge::plan_split;

impl Exchange {
    pub(crate) fn changes_of_split(
        &self,
        account: AccountId,
        parent: &Pairs,
        condition: ConditionId,
        sets: &Bits,
        amount: u64,
        now: u64,
    ) -> Result<Changes, Refusal>
        requires { in_ranges (Split parent.now condition sets.now amount) ≡ true }

        ensures verdict { AnsweredBy (verdict (asked self.now account (Split parent.now condition sets.now amount) now)) result }
        ensures changes { IfOk result (λ changes. AreChangesOf self.now.history account (Split parent.now condition sets.now amount) changes) }
    {
        if account.get() == EXCHANGE {
            return Err(Refusal::NotAllowed);
        }
        let parted = match parted(
            self.alloc,
            &self.conditions,
            parent.as_slice(),
            condition,
            sets.as_slice(),
        ) {
            Ok(parted) => parted,
            Err(refusal) => return Err(refusal),
        };
        let Some(amount) = Amount::new(amount) else {
            unreachable!()
        };
        let mut staged = Staged::new(self.alloc)?;
        match plan_split(
            &mut staged,
            &self.ledger,
            account,
            &parted.parent,
            condition,
            &parted.sets,
            &parted.union,
            amount,
        ) {
            Ok(()) => {}
            Err(PlanFault::Short { have, place }) => {
                return Err(Refusal::Unfunded { have, place });
            }
            Err(PlanFault::Memory) => return Err(Refusal::Memory),
        }
        match self.refusal_at_last(&staged) {
            Some(refusal) => Err(refusal),
            None => Ok(self.done(staged)),
        }
    }
}
