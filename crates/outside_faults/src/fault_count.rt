ghost use Rattle.std.specs.Prelude.{◌≡◌, ℕ, ◌≤◌};
ghost use Rattle.outside_faults.specs.Faults.{raised};

use std::marker::Model;

/// A call of the outside failed. The object's count of faults says so too.
#[derive(Clone, Copy, Debug, PartialEq, Eq)]
pub struct Failed;

/// How often an object of the outside has failed. The count stands still at 2^64 - 1.
#[derive(Debug, Drop)]
pub struct FaultCount {
    faults: u64,
}

impl Model for FaultCount {
    ghost Value = { ℕ };

    ghost view = { λ c. c.faults };
}

impl FaultCount {
    /// No fault so far.
    pub fn new() -> FaultCount
        ensures { result ≡ 0 }
    {
        FaultCount { faults: 0 }
    }

    /// Counts one fault more, and gives the answer of the call that failed.
    pub fn raise(&mut self) -> Failed
        ensures raised { self.new ≡ raised self.old }
        ensures never_falls { self.old ≤ self.new }
    {
        self.faults = self.faults.saturating_add(1);
        Failed
    }

    /// The number of faults.
    pub fn get(&self) -> u64
        ensures { result ≡ self.now }
    {
        self.faults
    }
}
