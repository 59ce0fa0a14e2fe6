//! The exchange as a program over its outside: bytes of a source in, bytes of a sink out, and a disk that keeps its acts.
//!
//! [`run`] is the program. Its contract says, for every input, what is read, what each line is answered, what is
//! stored and written, what a crash at any moment leaves, and why the run ended. [`recover`] reads a journal back.
#![tactic(auto)]

mod answering;
mod ended;
mod ending;
pub mod laws;
mod program;
mod recovery;
mod serving;
mod storing;

pub use ended::Ended;
pub use program::run;
pub use recovery::{OpenFailed, OpenFault, recover};
pub use serving::{MAX_INPUT, Opened};
