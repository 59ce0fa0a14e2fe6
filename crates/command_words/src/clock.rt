ghost use Rattle.std.specs.Prelude.{◌≡◌, ℕ, List, ◌∷◌, [], ◌++◌};
ghost use Rattle.command_words.specs.Clock.{Counts, ListClockView};

use std::marker::Model;

/// Tells moments. It can't fail.
pub trait Clock {
    /// It may have told these moments since it was made, in this order. A clock that doesn't tell which it
    /// told may have told none.
    ghost may_have_told: { Self → List ℕ → Type 0 };

    /// The present moment, in the clock's units.
    fn now(&mut self) -> u64
        ensures { (moments : List ℕ) → may_have_told self.old moments → may_have_told self.new (moments ++ result ∷ []) };
}

/// A clock that tells a first moment, and then one more at each call. It stands still at 2^64 - 1.
#[derive(Debug, Drop)]
pub struct ListClock {
    first: u64,
    next: u64,
}

impl Model for ListClock {
    ghost use Rattle.command_words.specs.Clock.{ListClockView};

    ghost Value = { ListClockView };

    ghost view = { λ c. record { first = c.first; next = c.next } };
}

impl ListClock {
    /// Tells `first` next.
    pub fn new(first: u64) -> ListClock
        ensures { result ≡ record { first = first; next = first } }
    {
        ListClock { first, next: first }
    }
}

impl Clock for ListClock {
    ghost may_have_told = { λ c moments. Counts c.first moments c.next };

    fn now(&mut self) -> u64
        ensures told { (moments : List ℕ) → Counts self.old.first moments self.old.next
            → Counts self.new.first (moments ++ result ∷ []) self.new.next }
        ensures value { result ≡ self.old.next }
        ensures first { self.new.first ≡ self.old.first }
    {
        let now = self.next;
        self.next = now.saturating_add(1);
        now
    }
}
