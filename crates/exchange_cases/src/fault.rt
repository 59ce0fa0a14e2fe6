//! Why a case isn't met, or can't be read.

use condition_sets::NoMemory;
use hex::FromHexError;
use std::alloc::{AllocError, AllocFailed, Global};
use std::io;
use thiserror::Error;

/// Why cases aren't met.
#[derive(Debug, Drop, Error)]
pub enum CaseFault {
    /// Memory was wanting.
    #[error("out of memory")]
    Memory,
    /// The folder or a file of it can't be read, or nothing can be written.
    #[error("{0}")]
    Outside(io::Error),
    /// The folder has no case.
    #[error("no case in this folder")]
    NoCase,
    /// The line of a case wants something that isn't so, or can't be read.
    #[error("{line}: {what}")]
    Found { line: usize, what: String },
}

impl From<AllocError> for CaseFault {
    fn from(_error: AllocError) -> CaseFault {
        CaseFault::Memory
    }
}

impl<T: Drop> From<AllocFailed<T>> for CaseFault {
    fn from(_error: AllocFailed<T>) -> CaseFault {
        CaseFault::Memory
    }
}

impl From<NoMemory> for CaseFault {
    fn from(_error: NoMemory) -> CaseFault {
        CaseFault::Memory
    }
}

impl From<io::Error> for CaseFault {
    fn from(error: io::Error) -> CaseFault {
        CaseFault::Outside(error)
    }
}

/// What the line of a case wants, and what there is in its place.
pub fn found(alloc: Global, line: usize, wanted: &str, got: &str) -> CaseFault {
    match format!(in alloc; "wanted {wanted}, got {got}") {
        Ok(what) => CaseFault::Found { line, what },
        Err(_) => CaseFault::Memory,
    }
}

/// Digits in a case that are no bytes.
pub fn no_bytes(alloc: Global, line: usize, digits: &str, error: &FromHexError) -> CaseFault {
    match error {
        FromHexError::OutOfMemory => CaseFault::Memory,
        _ => found(alloc, line, "pairs of hexadecimal digits", digits),
    }
}
