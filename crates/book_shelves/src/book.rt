ghost use Rattle.std.specs.Prelude.{◌≡◌, ◌+◌, ◌<◌, ◌≤◌, [], ◌∷◌, ◌++◌, length, slice_get, All, Some, IfOk, OnOk, OnErr};
ghost use Rattle.book_shelves.specs.Shelves.{IsAscending, without};

use condition_sets::{NoMemory, OrderId};
use order_rules::{Limit, Token};
use std::alloc::Global;
use std::marker::Model;

/// The open orders of one market, by ascending numbers, no more than its limit.
///
/// Contracts see the numbers of the orders, how many there may be, and how many more find room without memory.
#[derive(Drop)]
pub struct Book {
    orders: Vec<OrderId>,
    limit: u32,
}

impl Model for Book {
    ghost use Rattle.std.specs.Prelude.{◌-◌, ◌≤◌, vec_len, vec_capacity};
    ghost use Rattle.book_shelves.specs.Shelves.{BookView, IsAscending};

    ghost Value = { BookView };

    ghost view = { λ b. record { orders = b.orders.items; limit = b.limit; room = vec_capacity b.orders - vec_len b.orders } };

    ghost invariant = { λ b. (vec_len b.orders ≤ b.limit) × IsAscending b.orders.items };
}

impl Book {
    /// A book of no orders, which will hold at most `limit`. `Err` comes only where memory is wanting.
    pub fn new(alloc: Global, limit: u32) -> Result<Book, NoMemory>
        ensures orders { IfOk result (λ book. book.orders ≡ []) }
        ensures limit { IfOk result (λ book. book.limit ≡ limit) }
    {
        Ok(Book {
            orders: Vec::new(alloc),
            limit,
        })
    }

    /// Makes room for an order more. `Err` comes where memory is wanting; the orders and the room are then as they were.
    pub fn reserve(&mut self) -> Result<(), NoMemory>
        ensures ok { OnOk result (1 ≤ self.new.room) }
        ensures orders { self.new.orders ≡ self.old.orders }
        ensures limit { self.new.limit ≡ self.old.limit }
        ensures room { self.old.room ≤ self.new.room }
        ensures err { OnErr result (self.new ≡ self.old) }
    {
        self.orders.reserve(1)?;
        Ok(())
    }

    /// Adds an order behind the others, whose numbers are all below its own. It takes no memory.
    pub fn add(&mut self, o: OrderId, _limit: &Limit, _token: Token)
        requires above { All (λ n. n < o) self.old.orders }
        requires below { length self.old.orders < self.old.limit }
        requires room { 0 < self.old.room }

        ensures orders { self.new.orders ≡ self.old.orders ++ o ∷ [] }
        ensures limit { self.new.limit ≡ self.old.limit }
        ensures room { self.new.room + 1 ≡ self.old.room }
    {
        // The limit and the token are what levels of prices would be kept by; a list of numbers reads neither.
        self.orders.push_reserved(o);
    }

    /// Takes an order out, as it is filled, cancelled or over; where it isn't there, nothing changes. It takes no memory.
    pub fn take_out(&mut self, o: OrderId)
        ensures orders { self.new.orders ≡ without o self.old.orders }
        ensures limit { self.new.limit ≡ self.old.limit }
        ensures room { self.new.room + length self.new.orders ≡ self.old.room + length self.old.orders }
    {
        if let Ok(place) = self.orders.binary_search(&o) {
            self.orders.remove(place);
        }
    }

    /// How many orders are open. It takes no memory.
    pub fn len(&self) -> u32
        ensures value { result ≡ length self.now.orders }
        ensures within { result ≤ self.now.limit }
        ensures ascending { IsAscending self.now.orders }
    {
        // Read so that its range is known, which is that of the number of orders.
        let _most = self.limit;
        self.orders.len() as u32
    }

    /// The number of the order at a place, from 0. It takes no memory.
    pub fn order(&self, i: u32) -> OrderId
        requires inside { i < length self.now.orders }

        ensures value { slice_get self.now.orders i ≡ Some result }
        ensures ascending { IsAscending self.now.orders }
    {
        self.orders[i as usize]
    }
}
