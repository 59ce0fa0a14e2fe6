//! The bytes of an act, as the journal keeps them.
//!
//! [`write_act`] writes the one spelling of an act, and [`read_act`] reads exactly what spells one: other bytes are
//! none. The [`laws`] say that an act has one spelling, and that bytes spell at most one act.
#![tactic(auto)]

mod condition_bodies;
mod fault;
mod fund_bodies;
pub mod laws;
mod lists;
mod named;
mod numbers;
mod order_bodies;
mod pieces;
mod reading;
mod writing;

pub use reading::read_act;
pub use writing::{MAX_ACT, write_act};
