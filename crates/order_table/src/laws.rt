//! Laws of the table: sentences about all of its values, each proved once.

ghost use Rattle.std.specs.Prelude.{◌≡◌};
ghost use Rattle.order_table.specs.declared.orders.TheConstants.{MAX_NONCE, MAX_ORDERS};

/// The number of each public constant.
pub fn constants()
    ensures orders { MAX_ORDERS ≡ 1_000_000 }
    ensures nonce { MAX_NONCE ≡ 1_000_000_000_000_000 }
{}
