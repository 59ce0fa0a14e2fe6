ghost use Rattle.std.specs.Prelude.{◌≡◌, ◌*◌, ◌^◌, ◌≤◌, ◌↔◌, IsTrue};
ghost use Rattle.order_rules.specs.Crossing.{BuysExactly, Crosses, CrossesExactly};
ghost use Rattle.order_rules.specs.Kinds.{AreSidesOf};
ghost use Rattle.order_rules.specs.Orders.{IsAmount};

use crate::kinds::MatchKind;
use crate::limit::Limit;
use crate::prices::{ONE, price};
use crate::side::Side;

/// Whether two limits cross by their prices, each rounded down. (Polymarket CTF Exchange, first published source.)
pub fn crosses(a: &Limit, b: &Limit, kind: MatchKind) -> bool
    requires { AreSidesOf kind a.now.side b.now.side }
    ensures { IsTrue result ↔ Crosses kind a.now b.now }
{
    match kind {
        MatchKind::Complementary => match a.side() {
            Side::Buy => price(a) >= price(b),
            Side::Sell => price(b) >= price(a),
        },
        MatchKind::Mint => price(a) + price(b) >= ONE,
        MatchKind::Merge => price(a) + price(b) <= ONE,
    }
}

/// Whether two limits cross in exact fractions, with nothing rounded.
pub fn crosses_exactly(a: &Limit, b: &Limit, kind: MatchKind) -> bool
    requires { AreSidesOf kind a.now.side b.now.side }
    ensures { IsTrue result ↔ CrossesExactly kind a.now b.now }
{
    match kind {
        MatchKind::Complementary => match a.side() {
            Side::Buy => buys_exactly(a, b),
            Side::Sell => buys_exactly(b, a),
        },
        MatchKind::Mint => {
            let pair = product(a.taking(), b.taking());
            product(a.making(), b.taking()) + product(b.making(), a.taking()) >= pair
        }
        MatchKind::Merge => {
            let pair = product(a.making(), b.making());
            product(a.taking(), b.making()) + product(b.taking(), a.making()) <= pair
        }
    }
}

// Whether a buyer pays at least what a seller asks, in exact fractions.
fn buys_exactly(buyer: &Limit, seller: &Limit) -> bool
    ensures { IsTrue result ↔ BuysExactly buyer.now seller.now }
{
    product(buyer.making(), seller.making()) >= product(seller.taking(), buyer.taking())
}

// The product of two amounts, which 64 bits may not hold.
fn product(a: u64, b: u64) -> u128
    requires a { IsAmount a }
    requires b { IsAmount b }
    ensures value { result ≡ a * b }
    ensures within { result ≤ 10 ^ 30 }
{
    u128::from(a) * u128::from(b)
}
