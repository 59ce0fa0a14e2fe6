//! The journal: a list of payloads on a disk, of which a crash can tear no part that was answered.
//!
//! A [`Reader`] opens a disk and tells the payloads one by one, up to the end or to the place where the journal breaks
//! off; after the end it gives the [`Journal`], to which batches are appended. The [`laws`] say that what it tells is
//! exactly what the bytes stand for.
#![tactic(auto)]

mod appending;
mod batch;
mod gate;
mod journal;
pub mod laws;
mod limits;
mod making;
mod opening;
mod outcome;
mod payload;
mod reader;
mod window;

pub use batch::Batch;
pub use journal::{DiskFault, Journal};
pub use limits::{MAX_PAYLOAD, MAX_PAYLOADS, VERSION};
pub use outcome::{BeginFailed, BeginFault, Next, NextFault};
pub use reader::Reader;
