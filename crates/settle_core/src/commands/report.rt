//! `report`: a condition's oracle tells how it came out, a numerator for each slot.

ghost use Rattle.std.specs.Prelude.{◌≡◌, ◌==◌, true, Some, IfOk, is_some};
ghost use Rattle.std.specs.List.{list_all};
ghost use Rattle.command_words.specs.Command.{in_ranges};
ghost use Rattle.command_words.specs.declared.command.Command.TheVariants.{Report};
ghost use Rattle.condition_table.specs.Conditions.{numerators_at};
ghost use Rattle.settle_core.specs.Exchange.{asked, AreChangesOf};
ghost use Rattle.settle_core.specs.Refusals.{is_no_report};
ghost use Rattle.settle_core.specs.Verdict.{verdict, AnsweredBy};

use crate::changes::Changes;
use crate::exchange::Exchange;
use command_words::{Refusal, Reply};
use condition_sets::{AccountId, Bits, ConditionId, EXCHANGE};
use condition_table::{Conditions, Facts};
use ledger_book::Staged;

impl Exchange {
    #[tactic(auto, unfolding(crate::specs::Verdict::verdict))]
    pub(crate) fn changes_of_report(
        &self,
        account: AccountId,
        condition: ConditionId,
        payouts: &Bits,
        now: u64,
    ) -> Result<Changes, Refusal>
        requires { in_ranges (Report condition payouts.now) ≡ true }

        ensures verdict { AnsweredBy (verdict (asked self.now account (Report condition payouts.now) now)) result }
        ensures changes { IfOk result (λ changes. AreChangesOf self.now.history account (Report condition payouts.now) changes) }
    {
        if account.get() == EXCHANGE {
            return Err(Refusal::NotAllowed);
        }
        let Some(facts) = self.conditions.get(condition) else {
            return Err(Refusal::NoCondition);
        };
        if facts.oracle != account {
            return Err(Refusal::NotAllowed);
        }
        if is_reported(&self.conditions, condition) {
            return Err(Refusal::AlreadyReported);
        }
        if is_no_report(payouts.as_slice(), &facts) {
            return Err(Refusal::BadPayouts);
        }
        if self.is_full() {
            return Err(Refusal::HistoryFull);
        }
        let staged = Staged::new(self.alloc)?;
        let numerators = payouts.copy(self.alloc)?;
        Ok(Changes {
            staged,
            numerators: Some(numerators),
            reply: Reply::Done {
                lsn: self.history.len() as u64,
            },
        })
    }
}

/// Whether numerators were reported on a condition.
pub(crate) fn is_reported(conditions: &Conditions, condition: ConditionId) -> bool
    ensures { result ≡ is_some (numerators_at conditions.now.numerators condition) }
{
    conditions.numerators(condition).is_some()
}

/// Whether these are no report on a condition of so many slots: not one numerator for each slot, or all of them 0.
fn is_no_report(payouts: &[u32], facts: &Facts) -> bool
    ensures { result ≡ is_no_report (Some facts.now) payouts.now }
{
    payouts.len() != usize::from(facts.slots.get()) || are_zero(payouts)
}

/// Whether all of these are 0.
fn are_zero(payouts: &[u32]) -> bool
    ensures { result ≡ list_all (λ payout. payout == 0) payouts.now }
{
    payouts.iter().all(|payout| *payout == 0)
}
