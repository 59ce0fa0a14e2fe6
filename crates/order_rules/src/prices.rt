ghost use Rattle.std.specs.Prelude.{◌≡◌, ℕ, ◌*◌, ◌^◌, ◌≤◌};
ghost use Rattle.order_rules.specs.Prices.{price_of, taking_of};

use crate::limit::Limit;
use crate::side::Side;

/// The price of a token at which it costs as much cash as a pair of tokens pays: prices are counted in parts of it.
pub const ONE: u128 = 1_000_000_000_000_000_000;

/// The cash of one token, in parts of [`ONE`], rounded down: what a buyer pays for one, or what a seller asks.
/// (Polymarket CTF Exchange, first published source.)
pub fn price(limit: &Limit) -> u128
    ensures value { result ≡ price_of limit.now }
    ensures within { result ≤ 10 ^ 33 }
{
    let making = u128::from(limit.making());
    let taking = u128::from(limit.taking());
    match limit.side() {
        Side::Buy => making * ONE / taking,
        Side::Sell => taking * ONE / making,
    }
}

/// What the maker gets for a fill, before any fee, rounded down. The fill is counted in what the maker pays.
pub fn taking(limit: &Limit, fill: u64) -> u64
    requires { fill ≤ limit.now.making }
    ensures value { result ≡ taking_of limit.now fill }
    ensures within { result ≤ limit.now.taking }
{
    let product = u128::from(fill) * u128::from(limit.taking());
    (product / u128::from(limit.making())) as u64
}
