//! What a redemption posts: all that an account holds of each named set of a reported condition is burnt, and its share by
//! the report is paid of the parent.
//!
//! [`plan_redeem`] stages the postings of one command in a new `Staged`, and answers what is paid for each set. It asks the
//! caller that the condition can be joined to the parent, and takes no memory but for the postings and the sums.
#![tactic(auto)]

pub mod laws;
mod one_set;
mod redeem;
mod shares;

pub use redeem::{MAX_REDEEMED, plan_redeem};
