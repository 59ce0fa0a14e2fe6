//! The plain values that pass between a client, an exchange and its journal.
//!
//! A [`Command`] is what a client asks, an [`Act`] one that was accepted, with who asked it and when, and a [`Reply`]
//! what is answered. Copies are equal, the ranges of a command's members are told exactly, and each number that these
//! types have too. A [`Clock`] tells the moments.
#![tactic(auto)]

mod act;
mod clock;
mod command;
mod copying;
pub mod laws;
mod line_fault;
mod ranges;
mod refusal;
mod reply;

pub use act::{Act, Acts, MAX_HISTORY};
pub use clock::{Clock, ListClock};
pub use command::Command;
pub use line_fault::LineFault;
pub use ranges::{
    MAX_EVENT_FEE, MAX_KEY, MAX_MAKERS, MAX_NUMBER, MAX_ORDER_FEE, MAX_PAYOUT, MAX_QUESTIONS,
    MAX_SETS, MIN_QUESTIONS,
};
pub use refusal::Refusal;
pub use reply::Reply;
