//! What a conversion posts: NO shares of some questions of an event become YES shares of all the others, and cash.
//!
//! Where just one question of the event comes out YES, both sides are worth the same. [`plan_convert`] stages the postings
//! of one command in a new `Staged`, or finds the first question of which too little NO is held.
//! (Polymarket, NegRiskAdapter: converting positions.)
#![tactic(auto)]

mod convert;
mod fees;
pub mod laws;
mod paying;
mod questions;
mod taking;

pub use convert::{Converted, plan_convert};
