//! Laws of the table: sentences about all of its values, each proved once.

ghost use Rattle.std.specs.Prelude.{◌≡◌};
ghost use Rattle.event_table.specs.declared.events.TheConstants.{MAX_BIPS, MAX_QUESTIONS, MIN_QUESTIONS};

/// The number of each public constant.
pub fn constants()
    ensures bips { MAX_BIPS ≡ 10_000 }
    ensures least { MIN_QUESTIONS ≡ 2 }
    ensures most { MAX_QUESTIONS ≡ 32 }
{}
