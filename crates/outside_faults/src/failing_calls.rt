ghost use Rattle.std.specs.Prelude.{◌≡◌, List, ◌↔◌, IsTrue, Contains};
ghost use Rattle.outside_faults.specs.Script.{FailingCallsView, raised_calls};

use std::marker::Model;

/// Which calls of an object in memory fail: their numbers, where the first call has number 1.
#[derive(Debug, Drop)]
pub struct FailingCalls {
    failing: Vec<u64>,
    made: u64,
}

impl Model for FailingCalls {
    ghost use Rattle.outside_faults.specs.Script.{FailingCallsView};

    ghost Value = { FailingCallsView };

    ghost view = { λ c. record { failing = c.failing.items; made = c.made } };
}

impl FailingCalls {
    /// These calls fail, and no other. It takes no memory.
    pub fn new(failing: Vec<u64>) -> FailingCalls
        ensures { result ≡ record { failing = failing.items; made = 0 } }
    {
        FailingCalls { failing, made: 0 }
    }

    /// Makes the next call, and tells whether it is to fail.
    pub fn next_fails(&mut self) -> bool
        ensures fails { IsTrue result ↔ Contains self.old.failing self.new.made }
        ensures made { self.new ≡ raised_calls self.old }
    {
        self.made = self.made.saturating_add(1);
        self.failing.contains(&self.made)
    }
}
