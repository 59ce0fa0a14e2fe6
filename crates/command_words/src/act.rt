ghost use Rattle.std.specs.Prelude.{◌≡◌, IfOk};

use crate::command::Command;
use condition_sets::{AccountId, ListOf, NoMemory};
use std::alloc::Global;

/// The most acts that a history has.
pub const MAX_HISTORY: u32 = 1_000_000;

/// One accepted command of the history: when it was accepted, in the clock's units, and who asked.
#[derive(Debug, Drop)]
pub struct Act {
    pub moment: u64,
    pub account: AccountId,
    pub command: Command,
}

/// A list of acts, the oldest first.
pub type Acts = ListOf<Act>;

impl Act {
    /// An equal act.
    pub fn copy(&self, alloc: Global) -> Result<Act, NoMemory>
        ensures { IfOk result (λ copy. copy ≡ self.now) }
    {
        Ok(Act {
            moment: self.moment,
            account: self.account,
            command: self.command.copy(alloc)?,
        })
    }
}
