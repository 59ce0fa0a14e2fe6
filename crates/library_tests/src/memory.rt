//! Objects of the outside in memory, some of whose calls fail.

use journal_disk::MemoryDisk;
use line_link::{MemorySink, MemorySource};
use outside_faults::FailingCalls;
use std::alloc::{AllocError, Global};
use std::test::Fail;

/// A source of these bytes in pieces of this size, whose calls of these numbers fail.
pub fn source(
    alloc: Global,
    bytes: &[u8],
    piece: usize,
    failing: &[u64],
) -> Result<MemorySource, AllocError> {
    let failing = FailingCalls::new(failing.to_vec(alloc)?);
    Ok(MemorySource::new(bytes.to_vec(alloc)?, piece.max(1), failing))
}

/// A sink that takes pieces of this size, and whose calls of these numbers fail.
pub fn sink(alloc: Global, piece: usize, failing: &[u64]) -> Result<MemorySink, AllocError> {
    let failing = FailingCalls::new(failing.to_vec(alloc)?);
    Ok(MemorySink::new(alloc, piece.max(1), failing))
}

/// A disk that has these bytes stored, and whose calls of these numbers fail.
pub fn disk(alloc: Global, first: &[u8], failing: &[u64]) -> Result<MemoryDisk, Fail> {
    let failing = FailingCalls::new(Vec::from_slice(alloc, failing)?);
    Ok(MemoryDisk::new(alloc, Vec::from_slice(alloc, first)?, failing)?)
}
