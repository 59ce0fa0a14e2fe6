//! Bytes of the outside as lines, and lines of replies as bytes of the outside.
//!
//! A [`Source`] is read and a [`Sink`] is written; each counts its faults and may tell its bytes. A
//! [`LineReader`] cuts what a source gives into lines that do not depend on how the bytes came in pieces, and
//! [`write_all`] writes a text whole or counts a fault. [`Status`] says how a run ended.
#![tactic(auto)]

pub mod laws;
mod line_reader;
mod link;
mod memory_link;
mod memory_sink;
mod memory_source;
mod sink;
mod source;
mod status;

pub use line_reader::{Line, LineReader, MAX_LINE, ReadEnd};
pub use link::Link;
pub use memory_link::MemoryLink;
pub use memory_sink::MemorySink;
pub use memory_source::MemorySource;
pub use sink::{Sink, WriteFault, write_all};
pub use source::Source;
pub use status::Status;
