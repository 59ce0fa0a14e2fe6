/// One of the two tokens of a market: a share of its condition's first slot, or of its second.
#[derive(Clone, Copy, Debug, PartialEq, Eq)]
pub enum Token {
    /// A share of the first slot, whose index set is 1.
    Yes,
    /// A share of the second slot, whose index set is 2.
    No,
}
