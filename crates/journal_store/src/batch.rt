ghost use Rattle.std.specs.Prelude.{◌≡◌, ℕ, ◌+◌, ◌-◌, ◌<◌, ◌≤◌, List, [], ◌∷◌, ◌++◌, length, drop, vec_len, vec_capacity, IfOk, All};
ghost use Rattle.byteorder.specs.Endian.{big_bytes};
ghost use Rattle.journal_store.specs.Format.{IsPayload, payload_bytes, batch_bytes};
ghost use Rattle.journal_store.specs.declared.limits.TheConstants.{MAX_BATCH, MAX_PAYLOAD, MAX_PAYLOADS};

use crate::limits::{MAX_BATCH, MAX_PAYLOAD, MAX_PAYLOADS};
use byteorder::{BigEndian, ByteOrder};
use condition_sets::NoMemory;
use std::alloc::Global;
use std::marker::Model;

/// Payloads that are stored together. Contracts see the list of them.
///
/// It has its bytes ready, with a closed gate behind them.
#[derive(Drop)]
pub struct Batch {
    bytes: Vec<u8>,
    count: usize,
}

impl Model for Batch {
    ghost use Rattle.std.specs.Prelude.{ℕ, List, drop};
    ghost use Rattle.journal_store.specs.Batches.{payloads_in, IsReady};

    ghost Value = { List (List ℕ) };

    ghost view = { λ b. payloads_in b.count (drop 4 b.bytes.items) };

    ghost invariant = { λ b. IsReady b.count b.bytes };
}

impl Batch {
    /// An empty batch, with the memory for a full one.
    pub fn new(alloc: Global) -> Result<Batch, NoMemory>
        ensures { IfOk result (λ batch. batch ≡ []) }
    {
        let mut bytes = Vec::with_capacity(alloc, MAX_BATCH + 1)?;
        append(&mut bytes, &[0, 0, 0, 0, 0]);
        Ok(Batch { bytes, count: 0 })
    }

    /// Puts a payload last. It takes no memory.
    pub fn push(&mut self, payload: &[u8])
        requires payload { IsPayload payload.now }
        requires room { length self.old < MAX_PAYLOADS }
        ensures { self.new ≡ self.old ++ payload.now ∷ [] }
    {
        put(&mut self.bytes, payload);
        self.count += 1;
    }

    /// How many payloads there are.
    pub fn len(&self) -> usize
        ensures value { result ≡ length self.now }
        ensures within { result ≤ MAX_PAYLOADS }
    {
        self.count
    }

    /// Takes all payloads out. It takes no memory.
    pub fn clear(&mut self)
        ensures { self.new ≡ [] }
    {
        self.bytes.clear();
        append(&mut self.bytes, &[0, 0, 0, 0, 0]);
        self.count = 0;
    }

    /// Its bytes, with a closed gate behind them.
    pub(crate) fn as_slice(&self) -> &[u8]
        ensures bytes { result.now ≡ batch_bytes self.now ++ 0 ∷ [] }
        ensures payloads { All IsPayload self.now }
        ensures few { length self.now ≤ MAX_PAYLOADS }
        ensures within { length result.now ≤ MAX_BATCH + 1 }
    {
        self.bytes.as_slice()
    }
}

/// Puts a payload behind those in the bytes of a batch, which end with a closed gate.
fn put(bytes: &mut Vec<u8>, payload: &[u8])
    requires some { 5 ≤ vec_len bytes.old }
    requires small { length payload.now ≤ MAX_PAYLOAD }
    requires most { vec_len bytes.old + 2 + length payload.now ≤ MAX_BATCH + 1 }
    requires room { MAX_BATCH + 1 ≤ vec_capacity bytes.old }

    ensures bytes { (before : List ℕ) → bytes.old.items ≡ big_bytes 4 (length before) ++ before ++ 0 ∷ []
        → bytes.new.items ≡ big_bytes 4 (length (before ++ payload_bytes payload.now)) ++ (before ++ payload_bytes payload.now) ++ 0 ∷ [] }
    ensures room { vec_capacity bytes.old ≤ vec_capacity bytes.new }
{
    let end = bytes.len() - 1;
    bytes.truncate(end);
    let mut size = [0u8; 2];
    BigEndian::write_u16(&mut size, payload.len() as u16);
    append(bytes, &size);
    append(bytes, payload);
    let body = bytes.len() - 4;
    append(bytes, &[0]);
    set_size(bytes, body as u32);
}

/// Writes a size over the first four bytes.
fn set_size(bytes: &mut Vec<u8>, size: u32)
    requires { 4 ≤ vec_len bytes.old }
    ensures bytes { bytes.new.items ≡ big_bytes 4 size ++ drop 4 bytes.old.items }
    ensures room { vec_capacity bytes.new ≡ vec_capacity bytes.old }
{
    BigEndian::write_u32(bytes, size);
}

/// Puts bytes at the end, where there is room for them.
pub(crate) fn append(bytes: &mut Vec<u8>, more: &[u8])
    requires { vec_len bytes.old + length more.now ≤ vec_capacity bytes.old }
    ensures bytes { bytes.new.items ≡ bytes.old.items ++ more.now }
    ensures room { vec_capacity bytes.old ≤ vec_capacity bytes.new }
{
    match bytes.extend_from_slice(more) {
        Ok(()) => {}
        Err(_) => unreachable!(),
    }
}
