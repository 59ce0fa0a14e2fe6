//! `match`: the operator fills a taker order against maker orders of its market, all of them or none.

ghost use Rattle.std.specs.Prelude.{◌≡◌, [], slice_get, true, Some, None, IfOk, OnOk};
ghost use Rattle.command_words.specs.Command.{in_ranges};
ghost use Rattle.command_words.specs.declared.command.Command.TheVariants.{Match};
ghost use Rattle.ledger_book.specs.Postings.{IsFunded};
ghost use Rattle.settle_core.specs.Exchange.{asked, AreChangesOf};
ghost use Rattle.settle_core.specs.Matches.{matched_in, part_of, parts_in, sums_in};
ghost use Rattle.settle_core.specs.OrderRules.{match_refusals};
ghost use Rattle.settle_core.specs.Orders.{nonce, order_state, placed};
ghost use Rattle.settle_core.specs.Postings.{balance};
ghost use Rattle.settle_core.specs.Rules.{fault_refusal, funding_refusals};
ghost use Rattle.settle_core.specs.Verdict.{first_some, verdict, AnsweredBy};

use crate::changes::Changes;
use crate::exchange::Exchange;
use command_words::{Refusal, Reply};
use condition_sets::{AccountId, Fills, NoMemory, OPERATOR, OrderId};
use ledger_book::Staged;
use match_kinds::{MatchFault, MatchSums, Part, plan_match};
use order_table::Placed;

impl Exchange {
    #[tactic(auto, unfolding(crate::specs::Verdict::verdict))]
    pub(crate) fn changes_of_match(
        &self,
        account: AccountId,
        taker: OrderId,
        fill: u64,
        makers: &Fills,
        now: u64,
    ) -> Result<Changes, Refusal>
        requires { in_ranges (Match taker fill makers.now) ≡ true }

        ensures verdict { AnsweredBy (verdict (asked self.now account (Match taker fill makers.now) now)) result }
        ensures changes { IfOk result (λ changes. AreChangesOf self.now.history account (Match taker fill makers.now) changes) }
    {
        if account.get() != OPERATOR {
            return Err(Refusal::NotAllowed);
        }
        if let Some(refusal) = self.match_refusal(taker, fill, makers.as_slice(), now) {
            return Err(refusal);
        }
        let mut staged = Staged::new(self.alloc)?;
        let sums = match self.stage_match(&mut staged, taker, fill, makers.as_slice(), now) {
            Ok(sums) => sums,
            Err(refusal) => return Err(refusal),
        };
        match self.refusal_at_last(&staged) {
            Some(refusal) => Err(refusal),
            None => Ok(Changes {
                staged,
                numerators: None,
                reply: Reply::Matched {
                    fee: sums.fee,
                    got: sums.got,
                    lsn: self.history.len() as u64,
                    refund: sums.refund,
                },
            }),
        }
    }

    /// Stages a match that isn't refused for its orders, or refuses it for what its parts pay and get.
    fn stage_match(
        &self,
        staged: &mut Staged,
        taker: OrderId,
        fill: u64,
        makers: &[(OrderId, u64)],
        now: u64,
    ) -> Result<MatchSums, Refusal>
        requires new { staged.old.postings ≡ [] }
        requires ranges { in_ranges (Match taker fill makers.now) ≡ true }
        requires right { first_some (match_refusals (order_state self.now.history) (nonce self.now.history) now taker fill makers.now) ≡ None }

        ensures verdict { AnsweredBy (first_some (funding_refusals (placed self.now.history) (balance self.now.history) taker fill makers.now)) result }
        ensures postings { OnOk result (staged.new.postings ≡ matched_in (slice_get (placed self.now.history) taker) fill (parts_in (placed self.now.history) makers.now)) }
        ensures sums { IfOk result (λ sums. sums_in (slice_get (placed self.now.history) taker) fill (parts_in (placed self.now.history) makers.now) ≡ Some sums) }
        ensures vault { staged.new.vault ≡ staged.old.vault }
        ensures funded { OnOk result (IsFunded (balance self.now.history) staged.new.postings) }
    {
        let Some(order) = self.orders.get(taker) else {
            unreachable!()
        };
        let part = part_of(&order.placed, fill);
        let parts = self.parts_of(makers)?;
        match plan_match(staged, &self.ledger, order.placed.market, &part, &parts) {
            Ok(sums) => Ok(sums),
            Err(fault) => Err(refused(fault)),
        }
    }

    /// The parts of makers that were placed, in their order.
    fn parts_of(&self, makers: &[(OrderId, u64)]) -> Result<Vec<Part>, NoMemory>
        ensures { IfOk result (λ parts. parts.items ≡ parts_in (placed self.now.history) makers.now) }
    {
        let mut parts = Vec::new(self.alloc);
        for maker in makers {
            if let Some(facts) = self.orders.get(maker.0) {
                parts.push(part_of(&facts.placed, maker.1))?;
            }
        }
        Ok(parts)
    }
}

/// An order's part in a match, with its fill.
pub(crate) fn part_of(order: &Placed, fill: u64) -> Part
    ensures { result ≡ part_of order.now fill }
{
    Part {
        account: order.account,
        token: order.token,
        limit: order.limit,
        rate: order.rate,
        fill,
    }
}

/// The refusal of a match that can't be planned.
fn refused(fault: MatchFault) -> Refusal
    ensures { result ≡ fault_refusal fault }
{
    match fault {
        MatchFault::Unfunded { have, place } => Refusal::Unfunded { have, place },
        MatchFault::Short { place } => Refusal::ExchangeShort { place },
        MatchFault::TooLittle { floor, got } => Refusal::TooLittle { floor, got },
        MatchFault::Memory => Refusal::Memory,
    }
}
