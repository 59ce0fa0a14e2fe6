//! How a match is settled: what each part pays and gets, what is charged, and why a match isn't planned.
//!
//! A taker order is matched with up to 16 maker orders of one market. What they pay goes into the exchange and what they
//! get comes out of it, and the exchange keeps nothing. [`plan_match`] stages the postings of one match in a new `Staged`.
//! (Polymarket CTF Exchange, first published source.)
#![tactic(auto)]

mod assets;
mod charges;
mod fills;
mod flows;
pub mod laws;
mod part;
mod proceeds;
mod settle;

pub use assets::paid_asset;
pub use part::{MAX_MAKERS, Part};
pub use settle::{MatchFault, MatchSums, plan_match};
