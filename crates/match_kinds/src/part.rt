ghost use Rattle.std.specs.Prelude.{◌≡◌, ◌≤◌};
ghost use Rattle.condition_sets.specs.declared.amount.TheConstants.{MAX_AMOUNT};
ghost use Rattle.match_kinds.specs.Matching.{IsPart, taking_by};

use condition_sets::AccountId;
use order_rules::{Limit, Token, taking};

/// The most makers of a match.
pub const MAX_MAKERS: usize = 16;

/// One order of a match, with its fill in units of what it pays: cash of a buyer, tokens of a seller. The rate of its fee is
/// in basis points.
#[derive(Clone, Copy, Debug, PartialEq, Eq)]
pub struct Part {
    pub account: AccountId,
    pub token: Token,
    pub limit: Limit,
    pub rate: u16,
    pub fill: u64,
}

// What a part gets for its fill, before its fee.
pub(crate) fn taking_by(part: &Part) -> u64
    requires part { IsPart part.now }

    ensures value { result ≡ taking_by part.now }
    ensures within { result ≤ MAX_AMOUNT }
    ensures fill { part.now.fill ≤ MAX_AMOUNT }
{
    // Both amounts of a limit are in their range.
    let _most = (part.limit.making(), part.limit.taking());
    taking(&part.limit, part.fill)
}
