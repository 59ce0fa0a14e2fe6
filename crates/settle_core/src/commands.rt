//! The commands that are carried out, a room each: its refusals in the order of their numbers, its changes, and what it
//! answers where it has a reply of its own.

mod answer;
mod balance;
mod bump;
mod cancel;
mod convert;
mod cross;
mod deposit;
mod event;
mod lapse;
mod market;
mod match_;
mod merge;
mod move_;
mod order;
mod place;
mod prepare;
mod redeem;
mod report;
mod split;
mod vault;
mod withdraw;

ghost use Rattle.std.specs.Prelude.{◌≡◌, ◌==◌, ◌&&◌, ◌||◌, ◌+◌, ℕ, if◌then◌else◌, IfOk, IfErr, OnOk, ◌<◌, ◌≤◌, ◌++◌, [], None, pos, length, min, false, true};
ghost use Rattle.std.specs.List.{list_any};
ghost use Rattle.command_words.specs.Command.{in_ranges};
ghost use Rattle.command_words.specs.declared.refusal.Refusal.TheVariants.{Memory};
ghost use Rattle.command_words.specs.declared.reply.Reply.TheVariants.{Done};
ghost use Rattle.order_table.specs.Orders.{is_market, nonce_of};
ghost use Rattle.settle_core.specs.Book.{events_after, posts, prepared_by};
ghost use Rattle.settle_core.specs.Exchange.{asked, numerators_of, AreChangesOf};
ghost use Rattle.settle_core.specs.Kept.{MayEnter, MayFillAll, MayTrade, filled_in, numerators_after, orders_after, questions_made};
ghost use Rattle.settle_core.specs.Legal.{IsPlannable};
ghost use Rattle.settle_core.specs.Orders.{is_bump, opened_by, trades};
ghost use Rattle.settle_core.specs.Verdict.{verdict, AnsweredBy};

use crate::changes::Changes;
use crate::exchange::Exchange;
use command_words::{Command, Refusal};
use condition_sets::{AccountId, Bits, NoMemory, OrderId};
use condition_table::Conditions;
use event_table::Events;
use ledger_book::Staged;
use order_table::Orders;

impl Exchange {
    /// The changes that a command makes, or its refusal, the one with the lowest number first.
    pub(crate) fn changes_of(
        &self,
        account: AccountId,
        command: &Command,
        now: u64,
    ) -> Result<Changes, Refusal>
        requires { IsPlannable command.now }

        ensures verdict { AnsweredBy (verdict (asked self.now account command.now now)) result }
        ensures changes { IfOk result (λ changes. AreChangesOf self.now.history account command.now changes) }
    {
        match command {
            Command::Deposit { to, amount } => self.changes_of_deposit(account, *to, *amount, now),
            Command::Withdraw { amount } => self.changes_of_withdraw(account, *amount, now),
            Command::Move { to, key, amount } => {
                self.changes_of_move(account, *to, key, *amount, now)
            }
            Command::Split {
                parent,
                condition,
                sets,
                amount,
            } => self.changes_of_split(account, parent, *condition, sets, *amount, now),
            Command::Merge {
                parent,
                condition,
                sets,
                amount,
            } => self.changes_of_merge(account, parent, *condition, sets, *amount, now),
            Command::Redeem {
                parent,
                condition,
                sets,
            } => self.changes_of_redeem(account, parent, *condition, sets, now),
            Command::Convert { event, set, amount } => {
                self.changes_of_convert(account, *event, *set, *amount, now)
            }
            Command::Match {
                taker,
                fill,
                makers,
            } => self.changes_of_match(account, *taker, *fill, makers, now),
            _ => self.changes_of_tables(account, command, now),
        }
    }

    /// The same of a command that posts nothing, and changes the tables of conditions and events alone.
    fn changes_of_tables(
        &self,
        account: AccountId,
        command: &Command,
        now: u64,
    ) -> Result<Changes, Refusal>
        requires plannable { IsPlannable command.now }
        requires posts_nothing { posts command.now ≡ false }

        ensures verdict { AnsweredBy (verdict (asked self.now account command.now now)) result }
        ensures changes { IfOk result (λ changes. AreChangesOf self.now.history account command.now changes) }
    {
        match command {
            Command::Prepare {
                oracle,
                question,
                slots,
            } => self.changes_of_prepare(account, *oracle, *question, *slots, now),
            Command::Event {
                oracle,
                questions,
                fee,
            } => self.changes_of_event(account, *oracle, *questions, *fee, now),
            Command::Report { condition, payouts } => {
                self.changes_of_report(account, *condition, payouts, now)
            }
            Command::Answer {
                event,
                question,
                yes,
            } => self.changes_of_answer(account, *event, *question, *yes, now),
            _ => self.changes_of_orders(account, command, now),
        }
    }

    /// The same of a command that changes the table of orders alone.
    fn changes_of_orders(
        &self,
        account: AccountId,
        command: &Command,
        now: u64,
    ) -> Result<Changes, Refusal>
        requires plannable { IsPlannable command.now }
        requires trades { trades command.now ≡ true }

        ensures verdict { AnsweredBy (verdict (asked self.now account command.now now)) result }
        ensures changes { IfOk result (λ changes. AreChangesOf self.now.history account command.now changes) }
    {
        match command {
            Command::Market { condition } => self.changes_of_market(account, *condition, now),
            Command::Place { .. } => self.changes_of_place(account, command, now),
            Command::Cancel { order } => self.changes_of_cancel(account, *order, now),
            Command::Bump => self.changes_of_bump(account, now),
            Command::Lapse { order } => self.changes_of_lapse(account, *order, now),
            _ => unreachable!(),
        }
    }

    /// The changes of a command that posts nothing, reports nothing, and is answered by the number of its act.
    pub(crate) fn nothing(&self) -> Result<Changes, Refusal>
        ensures ok { IfOk result (λ changes. changes ≡ record { staged = record { postings = []; vault = pos 0 }; numerators = None; reply = Done (length self.now.history) }) }
        ensures err { IfErr result (λ refusal. refusal ≡ Memory) }
    {
        Ok(self.done(Staged::new(self.alloc)?))
    }
}

/// Makes room for what a command prepares. Both tables are as they were.
pub(crate) fn reserve(
    events: &mut Events,
    conditions: &mut Conditions,
    command: &Command,
) -> Result<(), NoMemory>
    requires { in_ranges command.now ≡ true }

    ensures room { OnOk result (0 < conditions.new.room) }
    ensures questions { OnOk result (questions_made command.now ≤ min events.new.room conditions.new.room) }
    ensures events { events.new.events ≡ events.old.events }
    ensures events_limit { events.new.limit ≡ events.old.limit }
    ensures facts { conditions.new.facts ≡ conditions.old.facts }
    ensures numerators { conditions.new.numerators ≡ conditions.old.numerators }
    ensures limit { conditions.new.limit ≡ conditions.old.limit }
{
    match command {
        Command::Event { questions, .. } => events.reserve(conditions, *questions),
        _ => conditions.reserve(1),
    }
}

/// Enters an accepted command into the tables: what it prepares, reports or answers. It takes no memory.
pub(crate) fn enter(
    events: &mut Events,
    conditions: &mut Conditions,
    command: &Command,
    numerators: Option<Bits>,
)
    requires ranges { in_ranges command.now ≡ true }
    requires may { MayEnter events.old conditions.old command.now }
    requires numerators { numerators ≡ numerators_of command.now }

    ensures facts { conditions.new.facts ≡ conditions.old.facts ++ prepared_by events.old.events command.now }
    ensures numerators { conditions.new.numerators ≡ numerators_after events.old.events conditions.old.numerators command.now }
    ensures events { events.new.events ≡ events_after (length conditions.old.facts) events.old.events command.now }
    ensures limit { conditions.new.limit ≡ conditions.old.limit }
    ensures events_limit { events.new.limit ≡ events.old.limit }
{
    match command {
        Command::Prepare {
            oracle,
            question,
            slots,
        } => prepare::prepare(conditions, *oracle, *question, *slots),
        Command::Event {
            oracle,
            questions,
            fee,
        } => {
            let _event = events.make(conditions, *oracle, *fee, *questions);
        }
        Command::Report { condition, .. } => match numerators {
            Some(numerators) => conditions.report(*condition, numerators),
            None => unreachable!(),
        },
        Command::Answer {
            event,
            question,
            ..
        } => match numerators {
            Some(numerators) => events.answer(conditions, *event, *question, numerators),
            None => unreachable!(),
        },
        _ => {}
    }
}

/// Enters an accepted command into the table of orders: the market that it opens, the order that it places or ends, the nonce
/// that it raises, or the orders that it fills. It takes no memory.
pub(crate) fn trade(orders: &mut Orders, account: AccountId, command: &Command)
    requires ranges { in_ranges command.now ≡ true }
    requires may { MayTrade orders.old account command.now }

    ensures orders { orders.new.orders ≡ orders_after account orders.old.orders command.now }
    ensures markets { (c : ℕ) → is_market orders.new c ≡ (is_market orders.old c || list_any (λ market. market == c) (opened_by command.now)) }
    ensures nonces { (a : ℕ) → nonce_of orders.new a ≡ nonce_of orders.old a + (if (account == a) && is_bump command.now then 1 else 0) }
    ensures limit { orders.new.limit ≡ orders.old.limit }
{
    match command {
        Command::Market { condition } => orders.open_market(*condition),
        Command::Place { .. } => match place::placed_of(account, command) {
            Some(order) => {
                let _order = orders.place(order);
            }
            None => unreachable!(),
        },
        Command::Cancel { order } => orders.end(*order),
        Command::Lapse { order } => orders.end(*order),
        Command::Match {
            taker,
            fill,
            makers,
        } => {
            orders.fill(*taker, *fill);
            fill_all(orders, makers.as_slice());
        }
        Command::Bump => orders.bump(account),
        _ => {}
    }
}

/// Fills some orders, each by so much more.
fn fill_all(orders: &mut Orders, fills: &[(OrderId, u64)])
    requires { MayFillAll orders.old.orders fills.now }

    ensures orders { orders.new.orders ≡ filled_in orders.old.orders fills.now }
    ensures markets { orders.new.markets ≡ orders.old.markets }
    ensures nonces { orders.new.nonces ≡ orders.old.nonces }
    ensures limit { orders.new.limit ≡ orders.old.limit }
{
    if let [first, rest @ ..] = fills {
        orders.fill(first.0, first.1);
        fill_all(orders, rest);
    }
}
