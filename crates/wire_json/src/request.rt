use command_words::Command;
use condition_sets::AccountId;

/// Who asks, and what.
#[derive(Debug, Drop)]
pub struct Request {
    pub account: AccountId,
    pub command: Command,
}
