//! Copies of commands.

ghost use Rattle.std.specs.Prelude.{◌≡◌, IfOk};

use crate::command::Command;
use condition_sets::NoMemory;
use std::alloc::Global;

/// A row for each command: its members that are numbers, and behind the semicolon those that are lists.
macro_rules! copied {
    ($command:expr, $alloc:expr, $($name:ident { $($number:ident),*; $($list:ident),* })*) => {
        match $command {
            $(Command::$name { $($number,)* $($list,)* } => Ok(Command::$name {
                $($number: *$number,)*
                $($list: $list.copy($alloc)?,)*
            }),)*
            Command::Bump => Ok(Command::Bump),
            Command::Vault => Ok(Command::Vault),
        }
    };
}

impl Command {
    /// An equal command.
    pub fn copy(&self, alloc: Global) -> Result<Command, NoMemory>
        ensures { IfOk result (λ copy. copy ≡ self.now) }
    {
        copied!(self, alloc,
            Deposit { to, amount; }
            Withdraw { amount; }
            Move { to, amount; key }
            Prepare { oracle, question, slots; }
            Event { oracle, questions, fee; }
            Split { condition, amount; parent, sets }
            Merge { condition, amount; parent, sets }
            Report { condition; payouts }
            Answer { event, question, yes; }
            Redeem { condition; parent, sets }
            Convert { event, set, amount; }
            Market { condition; }
            Place { market, set, side, making, taking, expires, nonce, fee; }
            Cancel { order; }
            Match { taker, fill; makers }
            Lapse { order; }
            Cross { market; }
            Balance { of; key }
            Order { order; }
        )
    }
}
