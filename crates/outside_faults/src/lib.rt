//! What every object of the outside tells: a count of its faults that never falls, and its content where it can.
//!
//! A source, a sink, a disk or a clock is used through a trait whose clauses are written in the words of this
//! crate. Behind each such object stands a [`FaultCount`]; objects in memory also have [`FailingCalls`], the
//! numbers of their calls that are to fail.
#![tactic(auto)]

mod failing_calls;
mod fault_count;

pub use failing_calls::FailingCalls;
pub use fault_count::{Failed, FaultCount};
