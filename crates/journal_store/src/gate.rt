ghost use Rattle.journal_store.specs.Cut.{IsGate};

use crate::payload::count_of_batch;

/// What stands at a gate.
pub enum Gate {
    /// A closed gate, or no byte.
    Closed,
    /// An open gate with a whole batch of so many payloads behind it and one byte more.
    Open { payloads: usize },
    /// An open gate, and no whole batch with one byte more.
    Torn,
}

/// What stands at the gate in front of the bytes.
pub fn gate_of(bytes: &[u8]) -> Gate
    ensures { IsGate result bytes.now }
{
    if bytes.is_empty() || bytes[0] != 1 {
        return Gate::Closed;
    }
    match count_of_batch(&bytes[1..]) {
        Some(payloads) => Gate::Open { payloads },
        None => Gate::Torn,
    }
}
