//! What splits and merges post: an amount of a position becomes as much of each of its parts, and the reverse.
//!
//! [`plan_split`] and [`plan_merge`] stage the postings of one command in a new `Staged`, and answer whether the account
//! has what the command takes. They ask the caller that the condition can be joined to the parent, and a merge that its
//! sets are apart. Neither takes memory but for the postings.
#![tactic(auto)]

pub mod laws;
mod merge;
mod parts;
mod split;
mod taking;

pub use merge::plan_merge;
pub use parts::MAX_PARTS;
pub use split::plan_split;
