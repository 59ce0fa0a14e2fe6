use thiserror::Error;

/// Why a journal could not be opened.
#[derive(Debug, Error, Clone, Copy, PartialEq, Eq)]
pub enum BeginFault {
    /// The disk failed.
    #[error("the disk failed")]
    Disk,
    /// The disk has more than 17 bytes, and they don't begin with the header of a journal.
    #[error("the disk has something other than a journal")]
    NotJournal,
    /// There was no memory for the reader.
    #[error("out of memory")]
    Memory,
}

/// A journal that could not be opened, with its disk.
#[derive(Drop)]
pub struct BeginFailed<D> {
    pub why: BeginFault,
    pub disk: D,
}

/// What a reader came to.
#[derive(Debug, Clone, Copy, PartialEq, Eq)]
pub enum Next {
    /// One payload more.
    Payload,
    /// The closed gate behind the last batch.
    End,
}

/// Why a reader could not go on.
#[derive(Debug, Error, Clone, Copy, PartialEq, Eq)]
pub enum NextFault {
    /// The disk failed.
    #[error("the disk failed")]
    Disk,
    /// Behind the open gate at this place, in bytes from the start of the disk, no whole batch stands with one byte more.
    #[error("the journal breaks off at byte {at}")]
    Cut { at: u64 },
}
