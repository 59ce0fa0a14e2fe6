//! What is told of markets and orders. It takes no memory.

ghost use Rattle.std.specs.Prelude.{◌≡◌, ◌≤◌, length, option_map};
ghost use Rattle.order_table.specs.Orders.{open_in};
ghost use Rattle.settle_core.specs.Offers.{facts_of, offer_at, offer_of};
ghost use Rattle.settle_core.specs.Orders.{is_market, order_state, orders};

use crate::exchange::Exchange;
use crate::rules::left_of;
use book_shelves::Offer;
use condition_sets::{AccountId, ConditionId, OrderId};
use order_rules::{Limit, Token};
use order_table::OrderState;

/// What is known of an order: whose it is and in which market, for which of its tokens, its limit, what is left of it in
/// units of what it pays, and whether it is open.
#[derive(Clone, Copy, Debug, PartialEq, Eq)]
pub struct OrderFacts {
    pub account: AccountId,
    pub market: ConditionId,
    pub token: Token,
    pub limit: Limit,
    pub rest: u64,
    pub is_open: bool,
}

impl Exchange {
    /// Whether a condition is a market.
    pub fn is_market(&self, c: ConditionId) -> bool
        ensures { result ≡ is_market self.now.history c }
    {
        self.orders.is_market(c)
    }

    /// How many orders were placed; these have the numbers below it.
    pub fn orders(&self) -> u32
        ensures { result ≡ length (orders self.now.history) }
    {
        self.orders.len()
    }

    /// How many orders of a market are open.
    pub fn open_orders(&self, c: ConditionId) -> u32
        ensures value { result ≡ open_in (orders self.now.history) c }
        ensures within { result ≤ self.now.limits.orders }
    {
        self.orders.open_in(c)
    }

    /// What is known of an order; `None` exactly where none has this number.
    pub fn order_facts(&self, o: OrderId) -> Option<OrderFacts>
        ensures { result ≡ option_map facts_of (order_state self.now.history o) }
    {
        match self.orders.get(o) {
            Some(order) => Some(facts_of(&order)),
            None => None,
        }
    }

    /// An order as it is offered at a moment; `None` exactly where it isn't live then. (Polymarket CTF Exchange, first
    /// published source.)
    pub fn offer(&self, o: OrderId, now: u64) -> Option<Offer>
        ensures { result ≡ offer_at self.now.history now o }
    {
        match self.orders.get(o) {
            Some(order) => {
                if self.is_live(&order, now) {
                    Some(offer_of(o, &order))
                } else {
                    None
                }
            }
            None => None,
        }
    }
}

/// What is known of an order.
fn facts_of(order: &OrderState) -> OrderFacts
    requires { order.now.filled ≤ order.now.placed.limit.making }

    ensures { result ≡ facts_of order.now }
{
    let placed = &order.placed;
    OrderFacts {
        account: placed.account,
        market: placed.market,
        token: placed.token,
        limit: placed.limit,
        rest: left_of(order),
        is_open: order.is_open,
    }
}

/// The offer of an order.
fn offer_of(number: OrderId, order: &OrderState) -> Offer
    requires { order.now.filled ≤ order.now.placed.limit.making }

    ensures { result ≡ offer_of number order.now }
{
    let placed = &order.placed;
    Offer {
        order: number,
        account: placed.account,
        token: placed.token,
        limit: placed.limit,
        rest: left_of(order),
    }
}
