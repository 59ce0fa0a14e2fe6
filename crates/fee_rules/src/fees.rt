ghost use Rattle.std.specs.Prelude.{◌≡◌, ℕ, ◌*◌, ◌≤◌};
ghost use Rattle.fee_rules.specs.Fees.{fee_of, proceeds_of};
ghost use Rattle.fee_rules.specs.declared.fees.TheConstants.{MAX_RATE, MAX_TOKENS};

use order_rules::{ONE, Side};

/// The highest rate of a fee, in basis points.
pub const MAX_RATE: u16 = 1_000;

/// The most tokens on which a fee is taken at once: those of a taker and sixteen makers.
pub const MAX_TOKENS: u64 = 17_000_000_000_000_000;

// How many basis points are the whole.
const BASIS_POINTS: u128 = 10_000;

/// The fee on `tokens` at a price in parts of [`ONE`], at a rate in basis points: of a seller so much cash as the rate
/// gives of the tokens at the price or at what the price lacks of [`ONE`], whichever is less; of a buyer tokens that
/// are worth as much; each rounded down. At a price of 0 or above [`ONE`] there is none. It is at most a tenth of what
/// the side gets.
pub fn fee(rate: u16, tokens: u64, price: u128, side: Side) -> u64
    requires rate { rate ≤ MAX_RATE }
    requires tokens { tokens ≤ MAX_TOKENS }
    ensures value { result ≡ fee_of side rate tokens price }
    ensures proceeds { 10 * result ≤ proceeds_of side tokens price }
{
    if price == 0 || price > ONE {
        return 0;
    }
    let margin = price.min(ONE - price);
    let share = u128::from(rate) * margin * u128::from(tokens);
    match side {
        Side::Buy => (share / (price * BASIS_POINTS)) as u64,
        Side::Sell => (share / (BASIS_POINTS * ONE)) as u64,
    }
}
