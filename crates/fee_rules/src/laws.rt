//! Laws of fees, each proved once.

ghost use Rattle.std.specs.Prelude.{◌≡◌};
ghost use Rattle.fee_rules.specs.declared.fees.TheConstants.{MAX_RATE, MAX_TOKENS};

/// The number of each public constant.
pub fn constants()
    ensures rate { MAX_RATE ≡ 1_000 }
    ensures tokens { MAX_TOKENS ≡ 17_000_000_000_000_000 }
{}
