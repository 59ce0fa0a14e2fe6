use condition_sets::{AccountId, SlotCount};

/// What names a condition: who reports on it, which question it is about, and how many outcome slots it has.
/// (Gnosis Conditional Tokens, developer documentation: conditions.)
#[derive(Clone, Copy, Debug, PartialEq, Eq)]
pub struct Facts {
    pub oracle: AccountId,
    pub question: u64,
    pub slots: SlotCount,
}
