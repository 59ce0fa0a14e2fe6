ghost use Rattle.std.specs.Prelude.{◌≡◌, ℕ, ◌≤◌, ◌↔◌, IsSome, IfSome};
ghost use Rattle.condition_sets.specs.declared.amount.TheConstants.{MAX_AMOUNT};

use std::marker::Model;

/// The most that an amount, the vault or the supply of a collection may be, in collateral units.
pub const MAX_AMOUNT: u64 = 1_000_000_000_000_000;

/// An amount of collateral units or of shares: at most [`MAX_AMOUNT`].
#[derive(Clone, Copy, Debug, PartialEq, Eq)]
pub struct Amount {
    units: u64,
}

impl Model for Amount {
    ghost Value = { ℕ };

    ghost view = { λ a. a.units };

    ghost invariant = { λ a. a.units ≤ MAX_AMOUNT };

    ghost inverse = { λ n. record { units = n } };
}

impl Amount {
    /// `None` exactly above [`MAX_AMOUNT`].
    pub fn new(n: u64) -> Option<Amount>
        ensures valid { IsSome result ↔ (n ≤ MAX_AMOUNT) }
        ensures value { IfSome result (λ amount. amount ≡ n) }
    {
        if n <= MAX_AMOUNT {
            Some(Amount { units: n })
        } else {
            None
        }
    }

    /// The number of units.
    pub fn get(&self) -> u64
        ensures value { result ≡ self.now }
        ensures within { result ≤ MAX_AMOUNT }
    {
        self.units
    }
}
