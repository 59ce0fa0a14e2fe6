//! An order as it was placed, and as the table keeps it.

ghost use Rattle.std.specs.Prelude.{◌≡◌, ◌≤◌, true, false};
ghost use Rattle.order_table.specs.Orders.{after_end, after_fill, state_of, is_open, rest_of};

use condition_sets::{AccountId, ConditionId};
use order_rules::{Limit, Token};
use std::marker::Model;

/// An order as it was placed: by whom, in which market, for which of its two tokens, and its limit. `expires` is a moment in
/// seconds, or 0 for never, `nonce` the one that its account has to have, and `rate` that of its fee in basis points.
/// (Polymarket CTF Exchange, first published source: orders.)
#[derive(Clone, Copy, Debug, PartialEq, Eq)]
pub struct Placed {
    pub account: AccountId,
    pub market: ConditionId,
    pub token: Token,
    pub limit: Limit,
    pub expires: u64,
    pub nonce: u64,
    pub rate: u16,
}

/// An order as it was placed, what was filled of it in units of what its maker pays, and whether it is open: neither ended
/// nor filled to what it makes.
#[derive(Clone, Copy, Debug, PartialEq, Eq)]
pub struct OrderState {
    pub placed: Placed,
    pub filled: u64,
    pub is_open: bool,
}

// An order is never filled above what it makes.
#[derive(Drop)]
pub(crate) struct Order {
    placed: Placed,
    filled: u64,
    ended: bool,
}

impl Model for Order {
    ghost use Rattle.std.specs.Prelude.{◌≤◌};
    ghost use Rattle.order_table.specs.Orders.{OrderView};

    ghost Value = { OrderView };

    ghost view = { λ o. record { placed = o.placed; filled = o.filled; ended = o.ended } };

    ghost invariant = { λ o. o.filled ≤ o.placed.limit.making };
}

impl Order {
    // An order of which nothing is filled. A limit makes at least 1, so it is open.
    pub(crate) fn new(placed: Placed) -> Order
        ensures value { result ≡ record { placed = placed; filled = 0; ended = false } }
        ensures open { is_open result ≡ true }
    {
        let _most = placed.limit.making();
        Order {
            placed,
            filled: 0,
            ended: false,
        }
    }

    // Its state.
    pub(crate) fn state(&self) -> OrderState
        ensures value { result ≡ state_of self.now }
        ensures within { result.filled ≤ result.placed.limit.making }
    {
        OrderState {
            placed: self.placed,
            filled: self.filled,
            is_open: self.is_open(),
        }
    }

    // Whether it is neither ended nor filled.
    pub(crate) fn is_open(&self) -> bool
        ensures { result ≡ is_open self.now }
    {
        !self.ended && self.filled < self.placed.limit.making()
    }

    // The market in which it was placed.
    pub(crate) fn market(&self) -> ConditionId
        ensures { result ≡ self.now.placed.market }
    {
        self.placed.market
    }

    // Ends it.
    pub(crate) fn end(&mut self)
        ensures { self.new ≡ after_end self.old }
    {
        self.ended = true;
    }

    // Fills so much more of it.
    pub(crate) fn fill(&mut self, amount: u64)
        requires { amount ≤ rest_of self.old }
        ensures { self.new ≡ after_fill self.old amount }
    {
        let _most = self.placed.limit.making();
        self.filled += amount;
    }
}
