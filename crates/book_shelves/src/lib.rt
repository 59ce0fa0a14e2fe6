//! What is read of the open orders of a market, and which they are.
//!
//! An [`Offer`] is an open order with what is left of it, a [`Snapshot`] a list of offers by ascending numbers, and a
//! [`Book`] the numbers of a market's open orders, in ascending order and no more than its limit. Nothing here knows a
//! table of orders: who fills a snapshot or a book says what stands in it. Memory is taken by `new`, by `push` and by
//! `reserve` alone.
#![tactic(auto)]

mod book;
mod offer;
mod snapshot;

pub use book::Book;
pub use offer::Offer;
pub use snapshot::Snapshot;
