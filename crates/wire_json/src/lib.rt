//! Requests and replies as JSON text, one of each a line.
//!
//! [`read_line`] tells the request that a line is, or why it is none: first the kinds of all members, then their ranges.
//! [`write_reply`] makes the text of every reply, byte for byte as the definition of texts has it, in a [`Text`] that
//! took its room before: it takes no memory.
#![tactic(auto)]

pub mod laws;
mod reading;
mod request;
mod text;
mod writing;

pub use reading::read_line;
pub use request::Request;
pub use text::{TEXT_BYTES, Text};
pub use writing::write_reply;
