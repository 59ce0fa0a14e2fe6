/// Whether an order pays cash for a token, or a token for cash.
#[derive(Clone, Copy, Debug, PartialEq, Eq)]
pub enum Side {
    /// The maker pays cash and takes tokens.
    Buy,
    /// The maker pays tokens and takes cash.
    Sell,
}
