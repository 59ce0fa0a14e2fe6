ghost use Rattle.std.specs.Prelude.{◌≡◌, ℕ, ◌<◌, ◌≤◌, [], ◌∷◌, ◌++◌, true, false, None, Some, length, nat_le, option_map, All, OnOk, OnErr, IfOk};
ghost use Rattle.std.specs.Result.{result_err};
ghost use Rattle.collection_keys.specs.Collections.{Pairs};
ghost use Rattle.command_words.specs.Command.{in_ranges, is_reading, may_be_act};
ghost use Rattle.command_words.specs.Reply.{IsSound};
ghost use Rattle.command_words.specs.declared.act.TheConstants.{MAX_HISTORY};
ghost use Rattle.command_words.specs.declared.reply.Reply.TheVariants.{Done};
ghost use Rattle.condition_sets.specs.declared.amount.TheConstants.{MAX_AMOUNT};
ghost use Rattle.command_words.specs.declared.refusal.Refusal.TheVariants.{Unfunded, SupplyLimit, EntriesLimit, HistoryFull};
ghost use Rattle.ledger_book.specs.Ledger.{amount_at, supply_at};
ghost use Rattle.ledger_book.specs.Planning.{first_short};
ghost use Rattle.ledger_book.specs.Postings.{debit, AreWithin, IsFunded};
ghost use Rattle.ledger_book.specs.Staging.{oversupplied};
ghost use Rattle.condition_table.specs.Conditions.{numerators_at};
ghost use Rattle.settle_core.specs.Book.{conditions, events, postings, told};
ghost use Rattle.settle_core.specs.Exchange.{ExchangeView, asked, IsSame, AreChangesOf, IsPlanFor};
ghost use Rattle.settle_core.specs.Legal.{IsAccepted, IsLegal, IsPlannable};
ghost use Rattle.settle_core.specs.Postings.{vault, balance, supply};
ghost use Rattle.settle_core.specs.OrderRules.{where_};
ghost use Rattle.settle_core.specs.Refusals.{is_above_entries};
ghost use Rattle.settle_core.specs.Reply.{act_of, accepted_reply};
ghost use Rattle.settle_core.specs.Verdict.{verdict, first_some, AnsweredBy};

use crate::changes::Changes;
use crate::commands::{enter, reserve, trade};
use crate::limits::Limits;
use crate::plan::Plan;
use collection_keys::Collection;
use command_words::{Act, Acts, Command, Refusal, Reply};
use condition_sets::{AccountId, ListOf, NoMemory};
use condition_table::Conditions;
use event_table::Events;
use ledger_book::laws::net_amounts_grow_by_each_posting;
use ledger_book::{DebitFault, Ledger, LedgerFull, Staged};
use order_table::Orders;
use std::alloc::Global;
use std::marker::Model;

/// An exchange: the history of its acts, and what it keeps of them so that the next answer is quick.
///
/// Contracts see its limits, its history, and what it has room for without memory: so many acts more, so many questions of
/// one event, and changes for which its ledger is ready.
#[derive(Drop)]
pub struct Exchange {
    pub(crate) alloc: Global,
    pub(crate) limits: Limits,
    pub(crate) events: Events,
    pub(crate) conditions: Conditions,
    pub(crate) orders: Orders,
    pub(crate) ledger: Ledger,
    pub(crate) history: Vec<Act>,
}

impl Model for Exchange {
    ghost use Rattle.std.specs.Prelude.{◌-◌, min, vec_len, vec_capacity};
    ghost use Rattle.settle_core.specs.Exchange.{ExchangeView};

    ghost Value = { ExchangeView };

    ghost use Rattle.settle_core.specs.Kept.{AreOrdersOf, IsKept};

    ghost view = { λ e. record { limits = e.limits; history = e.history.items; room = min (min (vec_capacity e.history - vec_len e.history) e.conditions.room) e.orders.room; questions = min e.events.room e.conditions.room; ledger = e.ledger } };

    ghost invariant = { λ e. IsKept e.limits e.events e.conditions e.ledger e.history.items × AreOrdersOf e.limits e.orders e.history.items };
}

impl Exchange {
    /// The empty history.
    pub fn new(alloc: Global, limits: Limits) -> Result<Exchange, NoMemory>
        ensures limits { IfOk result (λ exchange. exchange.limits ≡ limits) }
        ensures history { IfOk result (λ exchange. exchange.history ≡ []) }
    {
        // The limit of the history is within the longest one: what is told of lengths rests on it.
        let _most = limits.history();
        Ok(Exchange {
            alloc,
            limits,
            events: Events::new(alloc, limits.events())?,
            conditions: Conditions::new(alloc, limits.conditions())?,
            orders: Orders::new(alloc, limits.orders())?,
            ledger: Ledger::new(alloc, limits.entries())?,
            history: Vec::new(alloc),
        })
    }

    /// Plans a command that makes an act, and takes the memory that the act will need. The history is as it was.
    pub fn plan(&mut self, account: AccountId, command: &Command, now: u64) -> Result<Plan, Refusal>
        requires { IsPlannable command.now }

        ensures verdict { AnsweredBy (verdict (asked self.old account command.now now)) result }
        ensures act { IfOk result (λ plan. plan.act ≡ act_of (asked self.old account command.now now)) }
        ensures copy { IfOk result (λ plan. plan.copy ≡ Some plan.act) }
        ensures plan { IfOk result (λ plan. IsPlanFor self.new plan) }
        ensures same { IsSame self.old self.new }
    {
        let changes = self.accepted_changes(account, command, now)?;
        let act = Act {
            moment: now,
            account,
            command: command.copy(self.alloc)?,
        };
        let copy = act.copy(self.alloc)?;
        self.history.reserve(1)?;
        reserve(&mut self.events, &mut self.conditions, command)?;
        self.orders.reserve()?;
        self.ledger.reserve(&changes.staged)?;
        Ok(Plan::new(act, copy, changes))
    }

    /// Makes the plan's act the last of the history, and answers the plan's reply. It takes no memory.
    pub fn apply(&mut self, plan: Plan) -> Reply
        requires { IsPlanFor self.old plan }

        ensures reply { result ≡ plan.changes.reply }
        ensures sound { IsSound result }
        ensures history { self.new.history ≡ self.old.history ++ plan.act ∷ [] }
        ensures limits { self.new.limits ≡ self.old.limits }
    {
        let (act, changes) = plan.into_parts();
        enter(
            &mut self.events,
            &mut self.conditions,
            &act.command,
            changes.numerators,
        );
        trade(&mut self.orders, act.account, &act.command);
        self.ledger.commit(changes.staged);
        self.history.push_reserved(act);
        changes.reply
    }

    /// Plans a command that makes an act and applies the plan. A refusal leaves the exchange as it was.
    pub fn submit(
        &mut self,
        account: AccountId,
        command: &Command,
        now: u64,
    ) -> Result<Reply, Refusal>
        requires { IsPlannable command.now }

        ensures verdict { AnsweredBy (verdict (asked self.old account command.now now)) result }
        ensures reply { IfOk result (λ reply. reply ≡ accepted_reply self.old.history account command.now) }
        ensures sound { IfOk result IsSound }
        ensures history { OnOk result (self.new.history ≡ self.old.history ++ act_of (asked self.old account command.now now) ∷ []) }
        ensures limits { self.new.limits ≡ self.old.limits }
        ensures err { OnErr result (IsSame self.old self.new) }
    {
        let plan = self.plan(account, command, now)?;
        Ok(self.apply(plan))
    }

    /// Answers a reading, at any moment alike. It takes no memory.
    pub fn read(&self, account: AccountId, command: &Command) -> Result<Reply, Refusal>
        requires reading { is_reading command.now ≡ true }
        requires ranges { in_ranges command.now ≡ true }

        ensures ok { IfOk result (λ reply. reply ≡ accepted_reply self.now.history account command.now) }
        ensures verdict { (now : ℕ) → result_err result ≡ verdict (asked self.now account command.now now) }
        ensures sound { IfOk result IsSound }
    {
        match command {
            Command::Balance { of, key } => self.read_balance(account, *of, key),
            Command::Order { order } => self.read_order(account, *order),
            Command::Vault => self.read_vault(account),
            _ => unreachable!(),
        }
    }

    /// Its limits.
    pub fn limits(&self) -> Limits
        ensures { result ≡ self.now.limits }
    {
        self.limits
    }

    /// The acts so far, the oldest first. Each was accepted over those before it.
    pub fn history(&self) -> &[Act]
        ensures value { result.now ≡ self.now.history }
        ensures legal { IsLegal self.now.limits result.now }
        ensures acts { All (λ act. may_be_act act.command ≡ true) result.now }
        ensures within { length result.now ≤ MAX_HISTORY }
    {
        self.history.as_slice()
    }

    /// The ledger of the history.
    pub fn ledger(&self) -> &Ledger
        ensures vault { result.now.vault ≡ vault self.now.history }
        ensures balances { (a : ℕ) (k : Pairs) → amount_at result.now a k ≡ balance self.now.history a k }
        ensures supplies { (k : Pairs) → supply_at result.now k ≡ supply self.now.history k }
    {
        &self.ledger
    }

    /// The conditions that the history prepared, with what it told of each.
    pub fn conditions(&self) -> &Conditions
        ensures facts { result.now.facts ≡ conditions self.now.history }
        ensures numerators { (condition : ℕ) → numerators_at result.now.numerators condition ≡ told self.now.history condition }
    {
        &self.conditions
    }

    /// The events that the history made, with what it answered YES.
    pub fn events(&self) -> &Events
        ensures { result.now.events ≡ events self.now.history }
    {
        &self.events
    }

    /// The history by value. It takes no memory.
    pub fn end(self) -> Acts
        ensures value { result ≡ self.history }
        ensures legal { IsLegal self.limits result }
    {
        ListOf::of(self.history)
    }

    /// The changes of a command that is accepted as it stands, or its refusal.
    fn accepted_changes(
        &self,
        account: AccountId,
        command: &Command,
        now: u64,
    ) -> Result<Changes, Refusal>
        requires { IsPlannable command.now }

        ensures verdict { AnsweredBy (verdict (asked self.now account command.now now)) result }
        ensures changes { IfOk result (λ changes. AreChangesOf self.now.history account command.now changes) }
        ensures accepted { IfOk result (λ _. IsAccepted self.now.limits self.now.history (act_of (asked self.now account command.now now))) }
    {
        self.changes_of(account, command, now)
    }

    /// Stages what a command takes of one position of the caller, as its first posting, or refuses it at place 0.
    pub(crate) fn take(
        &self,
        staged: &mut Staged,
        account: AccountId,
        k: &Collection,
        amount: u64,
    ) -> Result<(), Refusal>
        requires new { staged.old.postings ≡ [] }
        requires amount { amount ≤ MAX_AMOUNT }

        ensures verdict { AnsweredBy (option_map (λ short. Unfunded short.1 short.0) (first_short (balance self.now.history account) amount (k.now ∷ []))) result }
        ensures ok { OnOk result (staged.new ≡ record staged.old { postings = debit account k.now amount ∷ [] }) }
        ensures funded { OnOk result (IsFunded (balance self.now.history) staged.new.postings) }
        ensures within { OnOk result (AreWithin amount staged.new.postings) }
    {
        net_amounts_grow_by_each_posting();
        match staged.debit(&self.ledger, account, k, amount) {
            Ok(()) => Ok(()),
            Err(DebitFault::Short { have }) => Err(Refusal::Unfunded { have, place: 0 }),
            Err(DebitFault::Memory) => Err(Refusal::Memory),
        }
    }

    /// The changes of a command that changes no condition, and that is answered by the number of its act.
    pub(crate) fn done(&self, staged: Staged) -> Changes
        ensures { result ≡ record { staged = staged; numerators = None; reply = Done (length self.now.history) } }
    {
        Changes {
            staged,
            numerators: None,
            reply: Reply::Done {
                lsn: self.history.len() as u64,
            },
        }
    }

    /// The refusal of changes that are staged: a supply above its limit, too many balances, or a full history.
    pub(crate) fn refusal_at_last(&self, staged: &Staged) -> Option<Refusal>
        requires some { 0 < length staged.now.postings }
        requires funded { IsFunded (balance self.now.history) staged.now.postings }

        ensures { result ≡ first_some (option_map SupplyLimit (oversupplied (supply self.now.history) staged.now.postings)
            ∷ where_ (is_above_entries self.now.limits.entries (postings self.now.history) staged.now.postings) EntriesLimit
            ∷ where_ (nat_le self.now.limits.history (length self.now.history)) HistoryFull ∷ []) }
    {
        match self.ledger.admits(staged) {
            Ok(()) => {}
            Err(LedgerFull::Supply { supply }) => return Some(Refusal::SupplyLimit { supply }),
            Err(LedgerFull::Entries) => return Some(Refusal::EntriesLimit),
        }
        if self.is_full() {
            return Some(Refusal::HistoryFull);
        }
        None
    }

    /// Whether the history has as many acts as its limit.
    pub(crate) fn is_full(&self) -> bool
        ensures { result ≡ nat_le self.now.limits.history (length self.now.history) }
    {
        self.history.len() >= self.limits.history() as usize
    }
}
