//! The match that the exchange proposes for a market, of what a snapshot of its open orders holds.
//!
//! [`propose`] takes the order with the highest number that has a candidate, an order that it can be matched with, and as
//! makers the best of its candidates: for a buyer those of the lowest price, for a seller those of the highest, and at one
//! price the lower number first. What it answers are [`MatchTerms`], of at most [`MAX_MAKERS`] makers, and exactly those of
//! the definition; the [`laws`] say what these are worth. It knows no table of orders and no balances: who fills the snapshot
//! says what stands in it, and whether the accounts can pay is for a match to find out.
#![tactic(auto)]

mod candidates;
mod fills;
pub mod laws;
mod priced;
mod proposal;
mod ranking;
mod terms;

pub use proposal::propose;
pub use terms::{MAX_MAKERS, MatchTerms};
