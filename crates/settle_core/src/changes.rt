use command_words::Reply;
use condition_sets::Bits;
use ledger_book::Staged;

/// What an accepted command changes, and the reply to it. Dropping it changes nothing.
#[derive(Drop)]
pub struct Changes {
    /// What is posted, and the change of the vault.
    pub(crate) staged: Staged,
    /// The numerators that are reported or answered, where some are.
    pub(crate) numerators: Option<Bits>,
    /// The reply to the command.
    pub(crate) reply: Reply,
}
