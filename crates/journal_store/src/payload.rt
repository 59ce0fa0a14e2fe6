//! Payloads and batches in bytes that were read.

ghost use Rattle.std.specs.Prelude.{◌≡◌, ◌≤◌, List, ℕ, ◌++◌, length, IfSome, IfNone, All};
ghost use Rattle.byteorder.specs.Endian.{big_number};
ghost use Rattle.journal_store.specs.Format.{IsPayload, payload_bytes, body};
ghost use Rattle.journal_store.specs.Cut.{HasPayloads, HasBatch, HasNoBatch};

use crate::limits::{MAX_PAYLOAD, MAX_PAYLOADS};

/// The number in the first two bytes, the highest first.
fn first_u16(bytes: &[u8]) -> u16
    requires { 2 ≤ length bytes.now }
    ensures { result ≡ big_number 2 bytes.now }
{
    u16::from_be_bytes([bytes[0], bytes[1]])
}

/// The number in the first four bytes, the highest first.
fn first_u32(bytes: &[u8]) -> u32
    requires { 4 ≤ length bytes.now }
    ensures { result ≡ big_number 4 bytes.now }
{
    u32::from_be_bytes([bytes[0], bytes[1], bytes[2], bytes[3]])
}

/// The payload in front of the bytes and what is behind it, where a whole one is there.
pub fn split_payload(bytes: &[u8]) -> Option<(&[u8], &[u8])>
    ensures some { IfSome result (λ cut. IsPayload cut.0.now) }
    ensures bytes { IfSome result (λ cut. bytes.now ≡ payload_bytes cut.0.now ++ cut.1.now) }
    ensures none { IfNone result ((p us : List ℕ) → IsPayload p → bytes.now ≡ payload_bytes p ++ us → ⊥) }
{
    if bytes.len() < 2 {
        return None;
    }
    let size = first_u16(bytes) as usize;
    if size == 0 || size > MAX_PAYLOAD || bytes.len() - 2 < size {
        return None;
    }
    Some(bytes[2..].split_at(size))
}

/// How many payloads the bytes are, where they are whole payloads and nothing else.
fn count_payloads(bytes: &[u8]) -> Option<usize>
    ensures some { IfSome result (λ count. HasPayloads count bytes.now) }
    ensures none { IfNone result ((ps : List (List ℕ)) → All IsPayload ps → bytes.now ≡ body ps → ⊥) }
{
    let mut rest = bytes;
    let mut count = 0;
    while !rest.is_empty() {
        match split_payload(rest) {
            Some((_, behind)) => rest = behind,
            None => return None,
        }
        count += 1;
    }
    Some(count)
}

/// How many payloads the batch in front of the bytes has, where a whole one is there with one byte more.
pub fn count_of_batch(bytes: &[u8]) -> Option<usize>
    ensures some { IfSome result (λ count. HasBatch count bytes.now) }
    ensures none { IfNone result (HasNoBatch bytes.now) }
{
    if bytes.len() < 4 {
        return None;
    }
    let size = first_u32(bytes) as usize;
    if bytes.len() - 4 <= size {
        return None;
    }
    match count_payloads(&bytes[4..4 + size]) {
        Some(count) if 1 <= count && count <= MAX_PAYLOADS => Some(count),
        _ => None,
    }
}
