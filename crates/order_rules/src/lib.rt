//! What a limit order is worth: its price, what a fill of it takes, and how two orders meet.
//!
//! A [`Limit`] is the side of an order and what its maker makes and takes. [`kind`] says whether two orders can be
//! matched and how, [`crosses`] and [`crosses_exactly`] whether their limits meet, and [`fit`] how much of a maker fits
//! into what is left of a taker. Each call is exactly its formula, and none takes memory. The [`laws`] say what matches
//! and proposals rest on.
#![tactic(auto)]

mod crossing;
mod fits;
mod kinds;
pub mod laws;
mod limit;
mod prices;
mod side;
mod token;

pub use crossing::{crosses, crosses_exactly};
pub use fits::{Fitted, fit};
pub use kinds::{MatchKind, kind};
pub use limit::Limit;
pub use prices::{ONE, price, taking};
pub use side::Side;
pub use token::Token;
