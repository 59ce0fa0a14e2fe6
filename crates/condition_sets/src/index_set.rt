ghost use Rattle.std.specs.Prelude.{◌≡◌, ℕ, ◌+◌, ◌<◌, ◌^◌, ◌↔◌, IsSome, IfSome};
ghost use Rattle.condition_sets.specs.Sets.{IsProper};

use crate::slot_count::SlotCount;
use std::marker::Model;

/// A set of outcome slots that is neither empty nor full: slot `s` is bit `s`.
/// (Gnosis Conditional Tokens, developer documentation: index sets.)
#[derive(Clone, Copy, Debug, PartialEq, Eq)]
pub struct IndexSet {
    bits: u32,
}

impl Model for IndexSet {
    ghost Value = { ℕ };

    ghost view = { λ s. s.bits };

    ghost invariant = { λ s. (0 < s.bits) × (s.bits + 1 < 2 ^ 32) };

    ghost inverse = { λ n. record { bits = n } };
}

impl IndexSet {
    /// `None` exactly where no bit is set, or the bit of every slot, or a bit at or past `slots`.
    pub fn proper(bits: u32, slots: SlotCount) -> Option<IndexSet>
        ensures valid { IsSome result ↔ IsProper slots bits }
        ensures value { IfSome result (λ set. set ≡ bits) }
    {
        let past = 1u64 << slots.get();
        if bits != 0 && u64::from(bits) + 1 < past {
            Some(IndexSet { bits })
        } else {
            None
        }
    }

    /// The bits of the slots in the set.
    pub fn bits(&self) -> u32
        ensures value { result ≡ self.now }
        ensures nonempty { 0 < result }
    {
        self.bits
    }
}
