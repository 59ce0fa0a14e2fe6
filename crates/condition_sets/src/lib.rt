//! The numbers, names and index sets on which every other crate stands, and the four lists of its commands.
//!
//! Each constructor answers `None` exactly outside its range, and [`check_partition`] tells exactly whether
//! sets are a partition, and of what. Nothing here takes memory but the lists.
#![tactic(auto)]

mod amount;
mod index_set;
pub mod laws;
mod list;
mod names;
mod no_memory;
mod partition;
mod slot_count;

pub use amount::{Amount, MAX_AMOUNT};
pub use index_set::IndexSet;
pub use list::{Bits, Fills, ListOf, Pairs, Sums};
pub use names::{
    AccountId, ConditionId, EXCHANGE, EventId, Lsn, MAX_CONDITION, MAX_EVENT, OPERATOR, OrderId,
};
pub use no_memory::NoMemory;
pub use partition::{PartitionFault, Union, check_partition};
pub use slot_count::{MAX_SLOTS, MIN_SLOTS, SlotCount};
