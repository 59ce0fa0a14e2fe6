ghost use Rattle.std.specs.Prelude.{◌≡◌, ◌≤◌};
ghost use Rattle.convert_positions.specs.Converting.{fee_of};
ghost use Rattle.event_table.specs.declared.events.TheConstants.{MAX_BIPS};

use condition_sets::Amount;

// The part of an amount that account 0 gets, rounded down. A basis point is a ten-thousandth.
pub(crate) fn fee_of(amount: Amount, bips: u16) -> u64
    requires { bips ≤ MAX_BIPS }

    ensures value { result ≡ fee_of amount bips }
    ensures within { result ≤ amount }
{
    (u128::from(amount.get()) * u128::from(bips) / 10_000) as u64
}
