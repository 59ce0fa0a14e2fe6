ghost use Rattle.std.specs.Prelude.{◌≡◌, ◌↔◌, IsSome, IfSome};
ghost use Rattle.order_rules.specs.Orders.{IsAmount};

use crate::side::Side;
use condition_sets::MAX_AMOUNT;
use std::marker::Model;

/// What the maker of an order pays at the most, and what the maker wants for all of it: cash and tokens for a buyer,
/// tokens and cash for a seller. Each is from 1 to [`MAX_AMOUNT`]. Contracts see a record of the three.
/// (Polymarket CTF Exchange, first published source: `makerAmount` and `takerAmount`.)
#[derive(Clone, Copy, Debug, PartialEq, Eq)]
pub struct Limit {
    side: Side,
    making: u64,
    taking: u64,
}

impl Model for Limit {
    ghost use Rattle.order_rules.specs.Orders.{Terms, IsAmount};

    ghost Value = { Terms };

    ghost view = { λ l. record { side = l.side; making = l.making; taking = l.taking } };

    ghost invariant = { λ l. IsAmount l.making × IsAmount l.taking };

    ghost inverse = { λ t. record { side = t.side; making = t.making; taking = t.taking } };
}

impl Limit {
    /// `None` exactly where an amount is 0 or above [`MAX_AMOUNT`].
    pub fn new(side: Side, making: u64, taking: u64) -> Option<Limit>
        ensures valid { IsSome result ↔ (IsAmount making × IsAmount taking) }
        ensures value { IfSome result (λ limit. limit ≡ record { side = side; making = making; taking = taking }) }
    {
        if making >= 1 && making <= MAX_AMOUNT && taking >= 1 && taking <= MAX_AMOUNT {
            Some(Limit {
                side,
                making,
                taking,
            })
        } else {
            None
        }
    }

    /// Whether the maker buys or sells.
    pub fn side(&self) -> Side
        ensures { result ≡ self.now.side }
    {
        self.side
    }

    /// What the maker pays at the most: cash of a buyer, tokens of a seller.
    pub fn making(&self) -> u64
        ensures value { result ≡ self.now.making }
        ensures range { IsAmount result }
    {
        self.making
    }

    /// What the maker wants for all of it: tokens of a buyer, cash of a seller.
    pub fn taking(&self) -> u64
        ensures value { result ≡ self.now.taking }
        ensures range { IsAmount result }
    {
        self.taking
    }
}
