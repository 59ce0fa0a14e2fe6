//! Laws of the base: the number of each public constant.

ghost use Rattle.std.specs.Prelude.{◌≡◌, ℕ, ◌^◌};
ghost use Rattle.condition_sets.specs.declared.amount.TheConstants.{MAX_AMOUNT};
ghost use Rattle.condition_sets.specs.declared.names.TheConstants.{MAX_CONDITION, MAX_EVENT, OPERATOR, EXCHANGE};
ghost use Rattle.condition_sets.specs.declared.slot_count.TheConstants.{MIN_SLOTS, MAX_SLOTS};

/// The number of each public constant.
pub fn constants()
    ensures amount { MAX_AMOUNT ≡ 10 ^ 15 }
    ensures condition { MAX_CONDITION ≡ 4_095 }
    ensures event { MAX_EVENT ≡ 511 }
    ensures accounts { (OPERATOR ≡ 0) × (EXCHANGE ≡ 1) }
    ensures slots { (MIN_SLOTS ≡ 2) × (MAX_SLOTS ≡ 32) }
{}
