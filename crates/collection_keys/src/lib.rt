//! Collections of at most four conditions, each with an index set: the names of positions.
//!
//! A [`Collection`] is a plain value, which contracts see as the ascending list of its pairs. Its equality, order and
//! hash are those of that list. No call takes memory.
#![tactic(auto)]

mod collection;
mod comparing;
pub mod laws;
mod shifting;

pub use collection::{Collection, KeyFault, MAX_PAIRS};
