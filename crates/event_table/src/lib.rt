//! The table of events: lists of questions of which at most one comes out YES, over the table of conditions.
//!
//! [`Events`] is seen as the list of events, each with its oracle, its fee, the conditions of its questions and its winner.
//! Making an event prepares the conditions of its questions, and an answer reports on one of them.
//! (Polymarket, NegRiskAdapter.)
#![tactic(auto)]

mod event;
mod events;
pub mod laws;

pub use events::{EventFacts, Events, MAX_BIPS, MAX_QUESTIONS, MIN_QUESTIONS};
