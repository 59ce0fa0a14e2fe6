ghost use Rattle.std.specs.Prelude.{◌≡◌, ℕ, ◌≤◌, ◌↔◌, IsSome, IfSome};
ghost use Rattle.condition_sets.specs.declared.slot_count.TheConstants.{MIN_SLOTS, MAX_SLOTS};

use std::marker::Model;

/// The fewest slots of a condition.
pub const MIN_SLOTS: u8 = 2;

/// The most slots of a condition.
pub const MAX_SLOTS: u8 = 32;

/// How many outcome slots a condition has: from [`MIN_SLOTS`] to [`MAX_SLOTS`].
#[derive(Clone, Copy, Debug, PartialEq, Eq)]
pub struct SlotCount {
    count: u8,
}

impl Model for SlotCount {
    ghost Value = { ℕ };

    ghost view = { λ s. s.count };

    ghost invariant = { λ s. (MIN_SLOTS ≤ s.count) × (s.count ≤ MAX_SLOTS) };

    ghost inverse = { λ n. record { count = n } };
}

impl SlotCount {
    /// `None` exactly outside [`MIN_SLOTS`] to [`MAX_SLOTS`].
    pub fn new(n: u8) -> Option<SlotCount>
        ensures valid { IsSome result ↔ ((MIN_SLOTS ≤ n) × (n ≤ MAX_SLOTS)) }
        ensures value { IfSome result (λ slots. slots ≡ n) }
    {
        if n >= MIN_SLOTS && n <= MAX_SLOTS {
            Some(SlotCount { count: n })
        } else {
            None
        }
    }

    /// The number of slots.
    pub fn get(&self) -> u8
        ensures value { result ≡ self.now }
        ensures at_least { MIN_SLOTS ≤ result }
        ensures at_most { result ≤ MAX_SLOTS }
    {
        self.count
    }
}
