use condition_sets::ListOf;

/// A call that was made of a disk in memory, and whether it succeeded.
#[derive(Debug, Drop)]
pub enum Call {
    /// A piece of `len` bytes was read at a place.
    Read {
        at: u64,
        len: usize,
        ok: bool,
    },
    /// These bytes were written at a place.
    Write {
        at: u64,
        bytes: ListOf<u8>,
        ok: bool,
    },
    /// The bytes were cut to a length.
    Cut {
        len: u64,
        ok: bool,
    },
    /// What a read gave was made to stay.
    Sync {
        ok: bool,
    },
}
