ghost use Rattle.std.specs.Prelude.{◌≡◌, None, Some, IsSome};

use crate::changes::Changes;
use command_words::Act;
use std::marker::Model;

/// An accepted command that is ready to become the next act, with its changes and the reply to it.
#[derive(Drop)]
pub struct Plan {
    act: Act,
    copy: Option<Act>,
    changes: Changes,
}

impl Model for Plan {
    ghost use Rattle.settle_core.specs.Plan.{PlanView};

    ghost Value = { PlanView };

    ghost view = { λ p. record { act = p.act; copy = p.copy; changes = p.changes } };
}

impl Plan {
    /// The plan of an act, with a copy of it and its changes.
    pub(crate) fn new(act: Act, copy: Act, changes: Changes) -> Plan
        ensures { result ≡ record { act = act; copy = Some copy; changes = changes } }
    {
        Plan {
            act,
            copy: Some(copy),
            changes,
        }
    }

    /// The act that the command becomes.
    pub fn act(&self) -> &Act
        ensures { result.now ≡ self.now.act }
    {
        &self.act
    }

    /// Hands out the copy of the act. It takes no memory.
    pub fn take_copy(&mut self) -> Act
        requires { IsSome self.old.copy }
        ensures copy { self.old.copy ≡ Some result }
        ensures taken { self.new ≡ record self.old { copy = None } }
    {
        match self.copy.take() {
            Some(act) => act,
            None => unreachable!(),
        }
    }

    /// The act and its changes.
    pub(crate) fn into_parts(self) -> (Act, Changes)
        ensures act { result.0 ≡ self.act }
        ensures changes { result.1 ≡ self.changes }
    {
        (self.act, self.changes)
    }
}
