//! A crossing: the operator's matches and lapses on a market, turn by turn.

ghost use Rattle.std.specs.Prelude.{◌≡◌, false, None, Some, IfOk, IfSome};
ghost use Rattle.book_propose.specs.Proposals.{proposal, AreTerms};
ghost use Rattle.command_words.specs.Reply.{IsSound};
ghost use Rattle.command_words.specs.declared.command.Command.TheVariants.{Cross};
ghost use Rattle.command_words.specs.declared.reply.Reply.TheVariants.{Crossed};
ghost use Rattle.settle_core.specs.Crossings.{chosen, in_its_place, match_of, or_refused, says_of, turn};
ghost use Rattle.settle_core.specs.Exchange.{asked};
ghost use Rattle.settle_core.specs.Reply.{Answered};
ghost use Rattle.settle_core.specs.Snapshots.{snapshot};
ghost use Rattle.settle_core.specs.Verdict.{verdict};
ghost use Rattle.ledger_lock.specs.Turns.{AreNumbers, EndsForRoom, StopsForRoom, TurnedBy};

use crate::house::House;
use crate::turn_commands::{in_its_place, match_of};
use crate::turned::Turned;
use book_propose::{MatchTerms, propose};
use command_words::{Refusal, Reply};
use condition_sets::{AccountId, ConditionId, NoMemory, OPERATOR};
use settle_core::MAX_TURNS;
use settle_core::laws::{proposal_fits, turns_stop_for_room};

impl House {
    /// Takes the turns of a crossing that isn't refused: as many as make acts, and at most [`MAX_TURNS`].
    pub(crate) fn cross(&mut self, account: AccountId, market: ConditionId, now: u64) -> Reply
        requires { verdict (asked self.old account (Cross market) now) ≡ None }

        ensures answered { Answered (asked self.old account (Cross market) now) result self.new.history }
        ensures limits { self.new.limits ≡ self.old.limits }
        ensures sound { IsSound result }
        ensures stop { EndsForRoom result }
    {
        let lsn = self.exchange.history().len() as u64;
        for turns in 0..MAX_TURNS {
            match self.turn(market, now) {
                Turned::Acted => {}
                Turned::Over => return crossed(turns, lsn, 0),
                Turned::Stopped(refusal) => return crossed(turns, lsn, refusal.code()),
            }
        }
        Reply::Crossed {
            acts: u64::from(MAX_TURNS),
            lsn,
            more: true,
            stop: 0,
        }
    }

    /// Takes a turn: the match that is proposed, or what is done in its place where an order isn't paid for.
    fn turn(&mut self, market: ConditionId, now: u64) -> Turned
        ensures turned { TurnedBy (turn self.old.limits self.old.history market now) now self.old.history result self.new.history }
        ensures limits { self.new.limits ≡ self.old.limits }
        ensures room { StopsForRoom result }
    {
        // Read for what holds of them: the acts are a legal history.
        let _acts = self.exchange.history();
        turns_stop_for_room();
        match self.proposal(market, now) {
            Ok(Some(terms)) => self.carry_out(&terms, now),
            Ok(None) => Turned::Over,
            Err(NoMemory) => Turned::Stopped(Refusal::Memory),
        }
    }

    /// The match that is proposed on the live orders of a market.
    fn proposal(&self, market: ConditionId, now: u64) -> Result<Option<MatchTerms>, NoMemory>
        ensures value { IfOk result (λ terms. terms ≡ proposal (snapshot self.now.history market now)) }
        ensures ranges { IfOk result (λ terms. IfSome terms AreTerms) }
        ensures numbers { IfOk result (λ terms. IfSome terms AreNumbers) }
    {
        // Read for what holds of them: the orders have numbers of 32 bits, and the acts are a legal history.
        let _orders = self.exchange.orders();
        let _acts = self.exchange.history();
        proposal_fits();
        let offers = self.snapshot(market, now)?;
        propose(self.alloc, &offers)
    }

    /// Carries out the match that is proposed, or what is done in its place.
    fn carry_out(&mut self, terms: &MatchTerms, now: u64) -> Turned
        requires terms { AreTerms terms.now }
        requires numbers { AreNumbers terms.now }

        ensures turned { let says = says_of self.old.limits self.old.history now in
            TurnedBy (Some (chosen says terms.now (says (match_of terms.now)))) now self.old.history result self.new.history }
        ensures limits { self.new.limits ≡ self.old.limits }
    {
        let Ok(command) = match_of(self.alloc, terms) else {
            return Turned::Stopped(Refusal::Memory);
        };
        match self.act(AccountId(OPERATOR), &command, now) {
            Ok(_) => Turned::Acted,
            Err(Refusal::Unfunded { place, .. }) => self.carry_out_instead(terms, place, now),
            Err(refusal) => Turned::Stopped(refusal),
        }
    }

    /// Carries out what is done in place of a match of which the order at a place isn't paid for.
    fn carry_out_instead(&mut self, terms: &MatchTerms, place: u8, now: u64) -> Turned
        requires terms { AreTerms terms.now }
        requires numbers { AreNumbers terms.now }

        ensures turned { let command = in_its_place place terms.now in
            TurnedBy (Some (or_refused (says_of self.old.limits self.old.history now command) command)) now self.old.history result self.new.history }
        ensures limits { self.new.limits ≡ self.old.limits }
    {
        let Ok(command) = in_its_place(self.alloc, terms, place) else {
            return Turned::Stopped(Refusal::Memory);
        };
        match self.act(AccountId(OPERATOR), &command, now) {
            Ok(_) => Turned::Acted,
            Err(refusal) => Turned::Stopped(refusal),
        }
    }
}

/// The reply to a crossing that ended after so many acts, by the refusal of this number, or by none.
fn crossed(acts: u32, lsn: u64, stop: u8) -> Reply
    ensures { result ≡ Crossed acts lsn false stop }
{
    Reply::Crossed {
        acts: u64::from(acts),
        lsn,
        more: false,
        stop,
    }
}
