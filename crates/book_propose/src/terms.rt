use condition_sets::{Fills, OrderId, Sums};

/// The most makers of a proposed match.
pub const MAX_MAKERS: usize = 16;

/// What is matched with what: the taker, what of it is filled in units of what it pays, the makers in their order with what is
/// filled of each in units of what that maker pays, and what of the taker's fill is spent on each.
#[derive(Debug, Drop)]
pub struct MatchTerms {
    pub taker: OrderId,
    pub fill: u64,
    pub makers: Fills,
    pub spent: Sums,
}
