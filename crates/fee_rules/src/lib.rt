//! The fees of a match, which are this exchange's own.
//!
//! [`fee`] is what one side of a match pays on so many tokens at a price, exactly by its formula, and never more than a
//! tenth of what the side gets. It takes no memory.
#![tactic(auto)]

mod fees;
pub mod laws;

pub use fees::{MAX_RATE, MAX_TOKENS, fee};
