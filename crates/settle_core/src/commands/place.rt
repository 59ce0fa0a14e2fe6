//! `place`: an account places a limit order in a market. It asks for no funds.

ghost use Rattle.std.specs.Prelude.{◌≡◌, ◌==◌, ◌||◌, ◌∷◌, [], length, None, true, IfOk, IfSome};
ghost use Rattle.command_words.specs.Command.{in_ranges};
ghost use Rattle.settle_core.specs.Exchange.{asked, AreChangesOf};
ghost use Rattle.settle_core.specs.Orders.{is_place, orders};
ghost use Rattle.settle_core.specs.Placing.{placed_by, token_of};
ghost use Rattle.settle_core.specs.Verdict.{verdict, AnsweredBy};

use crate::changes::Changes;
use crate::exchange::Exchange;
use crate::rules::has_expired;
use command_words::{Command, Refusal, Reply};
use condition_sets::{AccountId, EXCHANGE, OPERATOR, OrderId};
use ledger_book::Staged;
use order_rules::{Limit, Token};
use order_table::Placed;

/// The index set of a market's first token, and of its second.
const YES: u8 = 1;

const NO: u8 = 2;

impl Exchange {
    #[tactic(auto, unfolding(crate::specs::Verdict::verdict))]
    pub(crate) fn changes_of_place(
        &self,
        account: AccountId,
        command: &Command,
        now: u64,
    ) -> Result<Changes, Refusal>
        requires { is_place command.now ≡ true }

        ensures verdict { AnsweredBy (verdict (asked self.now account command.now now)) result }
        ensures changes { IfOk result (λ changes. AreChangesOf self.now.history account command.now changes) }
    {
        let Command::Place {
            market,
            set,
            expires,
            nonce,
            ..
        } = command
        else {
            unreachable!()
        };
        if account.get() == OPERATOR || account.get() == EXCHANGE {
            return Err(Refusal::NotAllowed);
        }
        if self.orders.open_in(*market) >= self.limits.orders() {
            return Err(Refusal::TableFull);
        }
        if !is_token(*set) {
            return Err(Refusal::BadSet);
        }
        if !self.orders.is_market(*market) {
            return Err(Refusal::NoMarket);
        }
        if has_expired(*expires, now) {
            return Err(Refusal::OrderExpired { place: 0 });
        }
        let present = self.orders.nonce(account);
        if *nonce != present {
            return Err(Refusal::NonceOld {
                nonce: present,
                place: 0,
            });
        }
        if self.is_full() {
            return Err(Refusal::HistoryFull);
        }
        Ok(Changes {
            staged: Staged::new(self.alloc)?,
            numerators: None,
            reply: self.placed_reply(),
        })
    }

    /// The reply to an order that is placed.
    fn placed_reply(&self) -> Reply
        ensures { result ≡ Reply.Placed (length self.now.history) (length (orders self.now.history)) }
    {
        Reply::Placed {
            lsn: self.history.len() as u64,
            order: OrderId(self.orders.len()),
        }
    }
}

/// The order that a command places, where it places one.
pub(crate) fn placed_of(account: AccountId, command: &Command) -> Option<Placed>
    requires { in_ranges command.now ≡ true }

    ensures some { IfSome result (λ order. placed_by account command.now ≡ order ∷ []) }
    ensures none { result ≡ None → placed_by account command.now ≡ [] }
{
    match command {
        Command::Place {
            market,
            set,
            side,
            making,
            taking,
            expires,
            nonce,
            fee,
        } => {
            let Some(limit) = Limit::new(*side, *making, *taking) else {
                unreachable!()
            };
            Some(Placed {
                account,
                market: *market,
                token: token_of(*set),
                limit,
                expires: *expires,
                nonce: *nonce,
                rate: *fee,
            })
        }
        _ => None,
    }
}

/// Whether a set is that of a token.
fn is_token(set: u8) -> bool
    ensures { result ≡ ((set == 1) || (set == 2)) }
{
    set == YES || set == NO
}

/// The token of a set.
fn token_of(set: u8) -> Token
    ensures { result ≡ token_of set }
{
    if set == YES { Token::Yes } else { Token::No }
}
