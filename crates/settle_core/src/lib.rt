//! The exchange as a value: what a command is answered, and the history that it leaves.
//!
//! `specs/` has the rules: [`Exchange`] is seen as its limits, its history and its room, and each of its calls
//! promises the verdict, the reply and the history that the rules give. The conditions, balances and running
//! totals that it keeps are told only as what the history gives.
#![tactic(auto)]

mod changes;
mod commands;
mod exchange;
mod keys;
pub mod laws;
mod limits;
mod orders;
mod plan;
mod replay;
mod rules;

pub use exchange::Exchange;
pub use limits::{Limits, MAX_TURNS};
pub use orders::OrderFacts;
pub use plan::Plan;
pub use replay::ReplayFault;
