ghost use Rattle.std.specs.Prelude.{◌≡◌, ◌≢◌, ℕ, ◌+◌, ◌-◌, ◌<◌, ◌≤◌, ◌↔◌, [], ◌∷◌, ◌++◌, length, slice_set, true, false, Some, IfOk, IfSome, IsTrue, MatchOption, OnOk, option_map};
ghost use Rattle.std.specs.Option.{unwrap_or};
ghost use Rattle.order_table.specs.Orders.{MayFill, after_end, after_fill, state_of, is_market, is_open, nonce_of, open_in, order_at};

use crate::order::{Order, OrderState, Placed};
use condition_sets::{AccountId, ConditionId, MAX_CONDITION, NoMemory, OrderId};
use std::alloc::Global;
use std::marker::Model;

/// The most orders that a table has.
pub const MAX_ORDERS: u32 = 1_000_000;

/// The highest nonce of an account.
pub const MAX_NONCE: u64 = 1_000_000_000_000_000;

/// The orders that were placed, numbered from 0, the conditions that are markets, and the nonces of the accounts.
///
/// Contracts see the list of orders, whether each condition is a market, each account's nonce, how many orders of a market
/// may be open, and how many more orders find room without memory.
#[derive(Drop)]
pub struct Orders {
    orders: Vec<Order>,
    // For each condition: none where it is no market, and else how many of its orders are open.
    counts: Vec<Option<u32>>,
    // For each of the accounts, whose numbers have 16 bits.
    nonces: Vec<u64>,
    limit: u32,
}

impl Model for Orders {
    ghost use Rattle.std.specs.Prelude.{◌≡◌, ◌+◌, ◌-◌, ◌≤◌, is_some, map, vec_len, vec_capacity};
    ghost use Rattle.condition_sets.specs.declared.names.TheConstants.{MAX_CONDITION};
    ghost use Rattle.order_table.specs.Counts.{AreCounted, AreWithin};
    ghost use Rattle.order_table.specs.Orders.{OrdersView};
    ghost use Rattle.order_table.specs.declared.orders.TheConstants.{MAX_ORDERS};

    ghost Value = { OrdersView };

    ghost view = { λ t. record { orders = t.orders.items; markets = map is_some t.counts.items; nonces = t.nonces.items; limit = t.limit; room = vec_capacity t.orders - vec_len t.orders } };

    ghost invariant = { λ t. (vec_len t.orders ≤ MAX_ORDERS) × (vec_len t.counts ≡ MAX_CONDITION + 1) × (vec_len t.nonces ≡ 65_536) × AreCounted t.orders.items t.counts.items t.limit × AreWithin t.nonces.items };
}

impl Orders {
    /// No order is placed, no condition is a market, each nonce is 0, and of a market at most `limit` orders will be open.
    pub fn new(alloc: Global, limit: u32) -> Result<Orders, NoMemory>
        ensures orders { IfOk result (λ table. table.orders ≡ []) }
        ensures markets { IfOk result (λ table. (c : ℕ) → is_market table c ≡ false) }
        ensures nonces { IfOk result (λ table. (a : ℕ) → nonce_of table a ≡ 0) }
        ensures limit { IfOk result (λ table. table.limit ≡ limit) }
    {
        let counts = vec![in alloc; None; usize::from(MAX_CONDITION) + 1]?;
        let nonces = vec![in alloc; 0; 65_536]?;
        Ok(Orders {
            orders: Vec::new(alloc),
            counts,
            nonces,
            limit,
        })
    }

    /// How many orders were placed. It takes no memory.
    pub fn len(&self) -> u32
        ensures value { result ≡ length self.now.orders }
        ensures within { result ≤ MAX_ORDERS }
    {
        self.orders.len() as u32
    }

    /// The state of an order; `None` exactly where none has this number. It takes no memory.
    pub fn get(&self, o: OrderId) -> Option<OrderState>
        ensures value { result ≡ option_map state_of (order_at self.now.orders o) }
        ensures within { IfSome result (λ order. order.filled ≤ order.placed.limit.making) }
        ensures market { IfSome result (λ order. order.is_open ≡ true → is_market self.now order.placed.market ≡ true) }
    {
        let order = self.orders.get(o.get() as usize)?;
        Some(order.state())
    }

    /// Whether a condition is a market. It takes no memory.
    pub fn is_market(&self, c: ConditionId) -> bool
        ensures { result ≡ is_market self.now c }
    {
        self.counts[usize::from(c.get())].is_some()
    }

    /// How many orders of a market are open, and 0 where the condition is no market. It takes no memory.
    pub fn open_in(&self, c: ConditionId) -> u32
        ensures value { result ≡ open_in self.now.orders c }
        ensures within { result ≤ self.now.limit }
        ensures none { is_market self.now c ≡ false → result ≡ 0 }
    {
        self.counts[usize::from(c.get())].unwrap_or(0)
    }

    /// Whether as many orders of a market are open as may be. It takes no memory.
    pub fn is_full(&self, c: ConditionId) -> bool
        ensures { IsTrue result ↔ (self.now.limit ≤ open_in self.now.orders c) }
    {
        self.open_in(c) >= self.limit
    }

    /// The nonce of an account. It takes no memory.
    pub fn nonce(&self, a: AccountId) -> u64
        ensures value { result ≡ nonce_of self.now a }
        ensures within { result ≤ MAX_NONCE }
    {
        self.nonces[usize::from(a.get())]
    }

    /// Makes room for an order more. The table is as it was.
    pub fn reserve(&mut self) -> Result<(), NoMemory>
        ensures ok { OnOk result (1 ≤ self.new.room) }
        ensures orders { self.new.orders ≡ self.old.orders }
        ensures markets { self.new.markets ≡ self.old.markets }
        ensures nonces { self.new.nonces ≡ self.old.nonces }
        ensures limit { self.new.limit ≡ self.old.limit }
    {
        self.orders.reserve(1)?;
        Ok(())
    }

    /// Makes a condition a market, and changes nothing else. It takes no memory.
    pub fn open_market(&mut self, c: ConditionId)
        requires { is_market self.old c ≡ false }

        ensures market { is_market self.new c ≡ true }
        ensures others { (d : ℕ) → d ≢ c → is_market self.new d ≡ is_market self.old d }
        ensures orders { self.new.orders ≡ self.old.orders }
        ensures nonces { self.new.nonces ≡ self.old.nonces }
        ensures limit { self.new.limit ≡ self.old.limit }
        ensures room { self.new.room ≡ self.old.room }
    {
        self.counts[usize::from(c.get())] = Some(0);
    }

    /// Adds 1 to the nonce of an account, and changes nothing else. It takes no memory.
    pub fn bump(&mut self, a: AccountId)
        requires { nonce_of self.old a < MAX_NONCE }

        ensures nonce { nonce_of self.new a ≡ nonce_of self.old a + 1 }
        ensures others { (b : ℕ) → b ≢ a → nonce_of self.new b ≡ nonce_of self.old b }
        ensures orders { self.new.orders ≡ self.old.orders }
        ensures markets { self.new.markets ≡ self.old.markets }
        ensures limit { self.new.limit ≡ self.old.limit }
        ensures room { self.new.room ≡ self.old.room }
    {
        self.nonces[usize::from(a.get())] += 1;
    }

    /// Places an order, the last of the table, with nothing filled. It takes no memory.
    pub fn place(&mut self, order: Placed) -> OrderId
        requires market { is_market self.old order.market ≡ true }
        requires below { open_in self.old.orders order.market < self.old.limit }
        requires few { length self.old.orders < MAX_ORDERS }
        requires room { 0 < self.old.room }

        ensures number { result ≡ length self.old.orders }
        ensures orders { self.new.orders ≡ self.old.orders ++ record { placed = order; filled = 0; ended = false } ∷ [] }
        ensures markets { self.new.markets ≡ self.old.markets }
        ensures nonces { self.new.nonces ≡ self.old.nonces }
        ensures limit { self.new.limit ≡ self.old.limit }
        ensures room { self.new.room + 1 ≡ self.old.room }
    {
        let number = self.orders.len() as u32;
        let open = self.open_in(order.market);
        self.orders.push_reserved(Order::new(order));
        self.counts[usize::from(order.market.get())] = Some(open + 1);
        OrderId(number)
    }

    /// Ends an open order, as it is cancelled or its time is over, and changes nothing else. It takes no memory.
    pub fn end(&mut self, o: OrderId)
        requires { MatchOption (order_at self.old.orders o) ⊥ (λ order. is_open order ≡ true) }

        ensures orders { MatchOption (order_at self.old.orders o) ⊥ (λ order. self.new.orders ≡ slice_set self.old.orders o (after_end order)) }
        ensures markets { self.new.markets ≡ self.old.markets }
        ensures nonces { self.new.nonces ≡ self.old.nonces }
        ensures limit { self.new.limit ≡ self.old.limit }
        ensures room { self.new.room ≡ self.old.room }
    {
        let order = &mut self.orders[o.get() as usize];
        order.end();
        let market = order.market();
        close_one(&mut self.counts[usize::from(market.get())]);
    }

    /// Fills so much more of an open order, in units of what its maker pays, and changes nothing else. It takes no memory.
    pub fn fill(&mut self, o: OrderId, amount: u64)
        requires { MatchOption (order_at self.old.orders o) ⊥ (λ order. MayFill order amount) }

        ensures orders { MatchOption (order_at self.old.orders o) ⊥ (λ order. self.new.orders ≡ slice_set self.old.orders o (after_fill order amount)) }
        ensures markets { self.new.markets ≡ self.old.markets }
        ensures nonces { self.new.nonces ≡ self.old.nonces }
        ensures limit { self.new.limit ≡ self.old.limit }
        ensures room { self.new.room ≡ self.old.room }
    {
        let order = &mut self.orders[o.get() as usize];
        order.fill(amount);
        if !order.is_open() {
            let market = order.market();
            close_one(&mut self.counts[usize::from(market.get())]);
        }
    }
}

// One order of a market less is open.
fn close_one(count: &mut Option<u32>)
    requires { 0 < unwrap_or count.old 0 }
    ensures { count.new ≡ Some (unwrap_or count.old 0 - 1) }
{
    if let Some(open) = count {
        *open -= 1;
    }
}
