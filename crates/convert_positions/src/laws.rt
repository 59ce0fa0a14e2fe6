//! Laws of conversions: sentences about all amounts, each proved once.

ghost use Rattle.std.specs.Prelude.{◌≡◌, ℕ, ◌+◌, ◌≤◌};
ghost use Rattle.convert_positions.specs.Converting.{fee_of, out_of};

/// What the caller gets and what account 0 gets are the amount together.
pub fn amount_is_shared()
    ensures { (amount bips : ℕ) → bips ≤ 10000 → out_of amount bips + fee_of amount bips ≡ amount }
{}
