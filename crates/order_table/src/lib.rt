//! The table of orders: which were placed and what was filled of each, which conditions are markets, and each account's
//! nonce.
//!
//! [`Orders`] is seen as the list of its orders, whether each condition is a market, and the nonce of each account. How
//! many orders of a market are open is a count over the list. Each writing call changes the one order, market or nonce
//! that it names, and takes no memory but for `reserve`.
//! (Polymarket CTF Exchange, first published source: orders and nonces.)
#![tactic(auto)]

pub mod laws;
mod order;
mod orders;

pub use order::{OrderState, Placed};
pub use orders::{MAX_NONCE, MAX_ORDERS, Orders};
