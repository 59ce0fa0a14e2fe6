/// The most bytes of a payload. It has one at least.
pub const MAX_PAYLOAD: usize = 512;

/// The most payloads of a batch. It has one at least.
pub const MAX_PAYLOADS: usize = 64;

/// The last byte of the header.
pub const VERSION: u8 = b'1';

/// How many bytes the header has.
pub(crate) const HEADER_BYTES: usize = 16;

/// The bytes of an empty journal: the header, and a closed gate.
pub(crate) const EMPTY: &[u8; HEADER_BYTES + 1] = b"ctx-journal-v001\0";

/// The most bytes of a batch: its size, and each payload with its own.
pub(crate) const MAX_BATCH: usize = 4 + MAX_PAYLOADS * (2 + MAX_PAYLOAD);
