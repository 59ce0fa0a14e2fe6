//! The table of conditions: which were prepared, and what was reported on them.
//!
//! [`Conditions`] is seen as the list of their [`Facts`] and the list of their numerators. A condition is prepared once
//! and reported once; each writing call changes the one condition that it names, and takes no memory.
#![tactic(auto)]

mod facts;
mod table;

pub use facts::Facts;
pub use table::Conditions;
