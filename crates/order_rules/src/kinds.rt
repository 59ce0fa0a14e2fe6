ghost use Rattle.std.specs.Prelude.{◌≡◌, IfSome};
ghost use Rattle.order_rules.specs.Kinds.{kind_of, AreSidesOf};

use crate::side::Side;
use crate::token::Token;

/// How two orders are matched. (Polymarket CTF Exchange, first published source.)
#[derive(Clone, Copy, Debug, PartialEq, Eq)]
pub enum MatchKind {
    /// A buyer and a seller of one token: the token changes hands.
    Complementary,
    /// Two buyers of the two tokens: cash is split into pairs.
    Mint,
    /// Two sellers of the two tokens: pairs are merged into cash.
    Merge,
}

/// How orders of these sides and tokens are matched; `None` exactly where they can't be.
pub fn kind(a: Side, at: Token, b: Side, bt: Token) -> Option<MatchKind>
    ensures value { result ≡ kind_of a at b bt }
    ensures sides { IfSome result (λ kind. AreSidesOf kind a b) }
{
    match (a, b) {
        (Side::Buy, Side::Buy) if at != bt => Some(MatchKind::Mint),
        (Side::Sell, Side::Sell) if at != bt => Some(MatchKind::Merge),
        (Side::Buy, Side::Sell) if at == bt => Some(MatchKind::Complementary),
        (Side::Sell, Side::Buy) if at == bt => Some(MatchKind::Complementary),
        _ => None,
    }
}
