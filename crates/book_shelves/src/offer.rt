use condition_sets::{AccountId, OrderId};
use order_rules::{Limit, Token};

/// An open order of a market: its number, its account, for which of the market's two tokens it is, its limit, and its rest,
/// in units of what its maker pays: what the limit makes less what was filled.
#[derive(Clone, Copy, Debug, PartialEq, Eq)]
pub struct Offer {
    pub order: OrderId,
    pub account: AccountId,
    pub token: Token,
    pub limit: Limit,
    pub rest: u64,
}
