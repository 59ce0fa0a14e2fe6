//! The ledger: what every account holds of every collection, what all hold together, and what the vault holds.
//!
//! A [`Staged`] collects postings that are planned together; a [`Ledger`] admits it, reserves what it needs, and commits
//! it whole, which can't fail. To its callers a ledger is its words: no contract above speaks of how it keeps things.
#![tactic(auto)]

mod carrying;
mod keeping;
pub mod laws;
mod ledger;
mod moved;
mod naming;
mod plan_fault;
mod posting;
mod staged;

pub use ledger::{Ledger, LedgerFull, MAX_ENTRIES};
pub use plan_fault::PlanFault;
pub use posting::Posting;
pub use staged::{DebitFault, MAX_POSTED, PostFault, Staged};
