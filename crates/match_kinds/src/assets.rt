//! What a part pays and what it gets: cash, or shares of its token.

ghost use Rattle.std.specs.Prelude.{◌≡◌};
ghost use Rattle.match_kinds.specs.Matching.{paid_asset, taken_asset, token_of};

use crate::part::Part;
use collection_keys::Collection;
use condition_sets::{ConditionId, IndexSet, SlotCount};
use order_rules::{Side, Token};

/// The collection of what a part pays: cash of a buyer, shares of its token of a seller. (Polymarket CTF Exchange, first
/// published source.)
pub fn paid_asset(market: ConditionId, part: &Part) -> Collection
    ensures { result ≡ paid_asset market part.now }
{
    match part.limit.side() {
        Side::Buy => Collection::root(),
        Side::Sell => token_of(market, part.token),
    }
}

// The collection of what it gets.
pub(crate) fn taken_asset(market: ConditionId, part: &Part) -> Collection
    ensures { result ≡ taken_asset market part.now }
{
    match part.limit.side() {
        Side::Buy => token_of(market, part.token),
        Side::Sell => Collection::root(),
    }
}

// The shares of a market's token: its condition's first slot, or its second.
fn token_of(market: ConditionId, token: Token) -> Collection
    ensures { result ≡ token_of market token }
{
    let bits = match token {
        Token::Yes => 1,
        Token::No => 2,
    };
    let Some(slots) = SlotCount::new(2) else {
        unreachable!()
    };
    let Some(set) = IndexSet::proper(bits, slots) else {
        unreachable!()
    };
    let Ok(shares) = Collection::root().with(market, set) else {
        unreachable!()
    };
    shares
}
