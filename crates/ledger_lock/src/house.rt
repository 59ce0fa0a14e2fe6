ghost use Rattle.std.specs.Prelude.{◌≡◌, ℕ, ◌++◌, ◌∷◌, [], length, true, IfOk, OnOk, OnErr};
ghost use Rattle.command_words.specs.Command.{in_ranges, is_reading};
ghost use Rattle.command_words.specs.Reply.{IsSound};
ghost use Rattle.command_words.specs.declared.command.Command.TheVariants.{Cross};
ghost use Rattle.settle_core.specs.Exchange.{asked, IsSame};
ghost use Rattle.settle_core.specs.Legal.{IsPlannable};
ghost use Rattle.settle_core.specs.Reply.{accepted_reply, act_of, Answered, refused_reply};
ghost use Rattle.settle_core.specs.Snapshots.{snapshot};
ghost use Rattle.settle_core.specs.Verdict.{verdict, AnsweredBy};
ghost use Rattle.ledger_lock.specs.Turns.{EndsForRoom};

use crate::books::{books_of, follow, make_room_for, offers_of};
use book_shelves::{Book, Snapshot};
use command_words::{Command, Refusal, Reply};
use condition_sets::{AccountId, ConditionId, NoMemory, OrderId};
use settle_core::Exchange;
use std::alloc::Global;
use std::marker::Model;

/// An exchange with the book of each market's open orders. Contracts see the exchange.
#[derive(Drop)]
pub struct House {
    pub(crate) alloc: Global,
    pub(crate) exchange: Exchange,
    books: Vec<Book>,
}

impl Model for House {
    ghost use Rattle.settle_core.specs.Exchange.{ExchangeView};
    ghost use Rattle.ledger_lock.specs.Books.{AreBooksOf};

    ghost Value = { ExchangeView };

    ghost view = { λ h. h.exchange };

    ghost invariant = { λ h. AreBooksOf h.exchange.limits h.exchange.history h.books.items };
}

impl House {
    /// A house over an exchange, with the books of its open orders. `Err` comes only where memory is wanting.
    pub fn new(alloc: Global, exchange: Exchange) -> Result<House, NoMemory>
        ensures { IfOk result (λ house. house ≡ exchange) }
    {
        let books = books_of(alloc, &exchange)?;
        Ok(House {
            alloc,
            exchange,
            books,
        })
    }

    /// The exchange. It takes no memory.
    pub fn exchange(&self) -> &Exchange
        ensures { result.now ≡ self.now }
    {
        &self.exchange
    }

    /// Answers a command of an account at a moment: a reading by what the history gives, and any other by the act, or by the acts
    /// of a crossing, that the history goes on by. A refusal changes nothing; nor does want of memory, but that earlier turns
    /// of a crossing stand. What stops a crossing is a limit of supplies, balances or acts, or want of memory, and nothing else.
    pub fn answer(&mut self, account: AccountId, command: &Command, now: u64) -> Reply
        requires { in_ranges command.now ≡ true }

        ensures answered { Answered (asked self.old account command.now now) result self.new.history }
        ensures limits { self.new.limits ≡ self.old.limits }
        ensures sound { IsSound result }
        ensures stop { EndsForRoom result }
    {
        match command {
            Command::Cross { market } => self.answer_crossing(account, *market, now),
            Command::Balance { .. } | Command::Order { .. } | Command::Vault => {
                self.answer_reading(account, command)
            }
            _ => self.answer_act(account, command, now),
        }
    }

    /// Answers a command that becomes an act.
    fn answer_act(&mut self, account: AccountId, command: &Command, now: u64) -> Reply
        requires { IsPlannable command.now }

        ensures answered { Answered (asked self.old account command.now now) result self.new.history }
        ensures limits { self.new.limits ≡ self.old.limits }
        ensures sound { IsSound result }
        ensures stop { EndsForRoom result }
    {
        match self.act(account, command, now) {
            Ok(reply) => reply,
            Err(refusal) => refused(&self.exchange, refusal),
        }
    }

    /// Answers a reading, at any moment alike.
    fn answer_reading(&self, account: AccountId, command: &Command) -> Reply
        requires reading { is_reading command.now ≡ true }
        requires ranges { in_ranges command.now ≡ true }

        ensures answered { (now : ℕ) → Answered (asked self.now account command.now now) result self.now.history }
        ensures sound { IsSound result }
        ensures stop { EndsForRoom result }
    {
        match self.exchange.read(account, command) {
            Ok(reply) => reply,
            Err(refusal) => refused(&self.exchange, refusal),
        }
    }

    /// Answers a crossing of a market.
    fn answer_crossing(&mut self, account: AccountId, market: ConditionId, now: u64) -> Reply
        ensures answered { Answered (asked self.old account (Cross market) now) result self.new.history }
        ensures limits { self.new.limits ≡ self.old.limits }
        ensures sound { IsSound result }
        ensures stop { EndsForRoom result }
    {
        match self.exchange.refusal_of_cross(account, market) {
            Some(refusal) => refused(&self.exchange, refusal),
            None => self.cross(account, market, now),
        }
    }

    /// Makes a command the next act, where it isn't refused. The books follow it.
    pub(crate) fn act(
        &mut self,
        account: AccountId,
        command: &Command,
        now: u64,
    ) -> Result<Reply, Refusal>
        requires { IsPlannable command.now }

        ensures verdict { AnsweredBy (verdict (asked self.old account command.now now)) result }
        ensures reply { IfOk result (λ reply. reply ≡ accepted_reply self.old.history account command.now) }
        ensures sound { IfOk result IsSound }
        ensures history { OnOk result (self.new.history ≡ self.old.history ++ act_of (asked self.old account command.now now) ∷ []) }
        ensures limits { self.new.limits ≡ self.old.limits }
        ensures err { OnErr result (IsSame self.old self.new) }
    {
        make_room_for(&mut self.books, command)?;
        let number = OrderId(self.exchange.orders());
        let reply = self.exchange.submit(account, command, now)?;
        follow(&mut self.books, &self.exchange, command, number);
        Ok(reply)
    }

    /// The live orders of a market at a moment, as offers by ascending numbers.
    pub(crate) fn snapshot(&self, market: ConditionId, now: u64) -> Result<Snapshot, NoMemory>
        ensures { IfOk result (λ offers. offers ≡ snapshot self.now.history market now) }
    {
        let book = &self.books[usize::from(market.get())];
        offers_of(self.alloc, &self.exchange, book, now)
    }
}

/// The reply to a refusal. It rests on the whole history, but for want of memory, which rests on nothing.
fn refused(exchange: &Exchange, refusal: Refusal) -> Reply
    ensures value { result ≡ refused_reply refusal (length exchange.now.history) }
    ensures sound { IsSound result }
    ensures stop { EndsForRoom result }
{
    let rests = match refusal {
        Refusal::Memory => 0,
        _ => exchange.history().len() as u64,
    };
    Reply::Refused { refusal, rests }
}
