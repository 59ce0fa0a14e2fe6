//! The books of markets, one for each condition, and how they follow what becomes of the orders.

ghost use Rattle.std.specs.Prelude.{◌≡◌, ◌==◌, ◌+◌, ◌<◌, ℕ, [], length, All, IfOk, OnOk};
ghost use Rattle.condition_sets.specs.declared.names.TheConstants.{MAX_CONDITION};
ghost use Rattle.settle_core.specs.Offers.{offer_at};
ghost use Rattle.settle_core.specs.Orders.{order_state};
ghost use Rattle.ledger_lock.specs.Books.{AreBehind, AreBooks, AreBooksOf, HasRoom, IfPlaced, IsNext, book_of, is_named, listed, offers_of, orders_in, struck};

use book_shelves::{Book, Snapshot};
use command_words::Command;
use condition_sets::{ConditionId, MAX_CONDITION, NoMemory, OrderId};
use settle_core::Exchange;
use std::alloc::Global;

/// The books of an exchange, one for each condition, with the open orders of its market.
pub(crate) fn books_of(alloc: Global, exchange: &Exchange) -> Result<Vec<Book>, NoMemory>
    ensures { IfOk result (λ books. AreBooksOf exchange.now.limits exchange.now.history books.items) }
{
    let mut books = empty_books(alloc, exchange.limits().orders())?;
    for number in 0..exchange.orders() {
        let order = OrderId(number);
        if let Some(facts) = exchange.order_facts(order) {
            make_room(&mut books, facts.market)?;
        }
        list(&mut books, exchange, order);
    }
    Ok(books)
}

/// An empty book for each condition, for at most `limit` orders.
fn empty_books(alloc: Global, limit: u32) -> Result<Vec<Book>, NoMemory>
    ensures as_many { IfOk result (λ books. length books.items ≡ MAX_CONDITION + 1) }
    ensures empty { IfOk result (λ books. All (λ book. book.orders ≡ []) books.items) }
    ensures limit { IfOk result (λ books. All (λ book. book.limit ≡ limit) books.items) }
{
    let mut books = Vec::new(alloc);
    for _condition in 0..=MAX_CONDITION {
        books.push(Book::new(alloc, limit)?)?;
    }
    Ok(books)
}

/// Makes room for an order more in the book of a market. Its orders are as they were.
fn make_room(books: &mut Vec<Book>, market: ConditionId) -> Result<(), NoMemory>
    requires { length books.old.items ≡ MAX_CONDITION + 1 }

    ensures room { OnOk result (0 < (book_of books.new.items market).room) }
    ensures orders { (other : ℕ) → orders_in books.new.items other ≡ orders_in books.old.items other }
    ensures limit { (other : ℕ) → (book_of books.new.items other).limit ≡ (book_of books.old.items other).limit }
    ensures as_many { length books.new.items ≡ length books.old.items }
{
    books[usize::from(market.get())].reserve()?;
    Ok(())
}

/// The same in the book of the market in which a command places an order, where it places one.
pub(crate) fn make_room_for(books: &mut Vec<Book>, command: &Command) -> Result<(), NoMemory>
    requires { length books.old.items ≡ MAX_CONDITION + 1 }

    ensures room { OnOk result (IfPlaced command.now (λ market. 0 < (book_of books.new.items market).room)) }
    ensures orders { (market : ℕ) → orders_in books.new.items market ≡ orders_in books.old.items market }
    ensures limit { (market : ℕ) → (book_of books.new.items market).limit ≡ (book_of books.old.items market).limit }
    ensures as_many { length books.new.items ≡ length books.old.items }
{
    match command {
        Command::Place { market, .. } => make_room(books, *market),
        _ => Ok(()),
    }
}

/// Lets the books follow an act, the last of the history, whose command this is. `number` is that of the order that it places,
/// where it places one.
pub(crate) fn follow(books: &mut Vec<Book>, exchange: &Exchange, command: &Command, number: OrderId)
    requires { AreBehind exchange.now.limits exchange.now.history command.now number books.old.items }

    ensures { AreBooksOf exchange.now.limits exchange.now.history books.new.items }
{
    match command {
        Command::Place { .. } => list(books, exchange, number),
        Command::Cancel { order } => strike(books, exchange, *order),
        Command::Lapse { order } => strike(books, exchange, *order),
        Command::Match { taker, makers, .. } => {
            strike(books, exchange, *taker);
            strike_all(books, exchange, makers.as_slice());
        }
        _ => {}
    }
}

/// Lists an order in the book of its market, where it is open.
fn list(books: &mut Vec<Book>, exchange: &Exchange, o: OrderId)
    requires books { AreBooks exchange.now.limits books.old.items }
    requires next { IsNext exchange.now.history o books.old.items }
    requires room { HasRoom exchange.now.history o books.old.items }

    ensures orders { (market : ℕ) → orders_in books.new.items market ≡ listed (order_state exchange.now.history) market o (orders_in books.old.items market) }
    ensures books { AreBooks exchange.now.limits books.new.items }
{
    if let Some(facts) = exchange.order_facts(o) {
        if facts.is_open {
            // Read for its bound: there are no more open orders of a market than the book may have.
            let _open = exchange.open_orders(facts.market);
            books[usize::from(facts.market.get())].add(o, &facts.limit, facts.token);
        }
    }
}

/// Strikes an order off the book of its market, where it isn't open any more.
fn strike(books: &mut Vec<Book>, exchange: &Exchange, o: OrderId)
    requires { AreBooks exchange.now.limits books.old.items }

    ensures orders { (market : ℕ) → orders_in books.new.items market ≡ struck (order_state exchange.now.history) market (λ n. o == n) (orders_in books.old.items market) }
    ensures books { AreBooks exchange.now.limits books.new.items }
{
    if let Some(facts) = exchange.order_facts(o) {
        if !facts.is_open {
            books[usize::from(facts.market.get())].take_out(o);
        }
    }
}

/// The same of the orders of a match, each of which is given with its fill.
fn strike_all(books: &mut Vec<Book>, exchange: &Exchange, makers: &[(OrderId, u64)])
    requires { AreBooks exchange.now.limits books.old.items }

    ensures orders { (market : ℕ) → orders_in books.new.items market ≡ struck (order_state exchange.now.history) market (is_named makers.now) (orders_in books.old.items market) }
    ensures books { AreBooks exchange.now.limits books.new.items }
{
    for maker in makers {
        strike(books, exchange, maker.0);
    }
}

/// The offers of the orders in a book that are live at a moment.
pub(crate) fn offers_of(
    alloc: Global,
    exchange: &Exchange,
    book: &Book,
    now: u64,
) -> Result<Snapshot, NoMemory>
    ensures { IfOk result (λ snapshot. snapshot ≡ offers_of (offer_at exchange.now.history now) book.now.orders) }
{
    let mut snapshot = Snapshot::new(alloc)?;
    for place in 0..book.len() {
        if let Some(offer) = exchange.offer(book.order(place), now) {
            snapshot.push(offer)?;
        }
    }
    Ok(snapshot)
}
