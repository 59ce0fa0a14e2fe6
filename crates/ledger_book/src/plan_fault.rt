ghost use Rattle.std.specs.Prelude.{◌≡◌};
ghost use Rattle.ledger_book.specs.declared.plan_fault.PlanFault.TheVariants.{Memory};

use condition_sets::NoMemory;

/// Why a command isn't planned.
#[derive(Clone, Copy, Debug, PartialEq, Eq)]
pub enum PlanFault {
    /// What the command takes at `place` isn't there: the account has `have` of it.
    Short { have: u64, place: u8 },
    /// Memory was wanting.
    Memory,
}

impl From<NoMemory> for PlanFault {
    ghost from_gives = { λ _ fault. fault ≡ Memory };

    fn from(_error: NoMemory) -> PlanFault {
        PlanFault::Memory
    }
}
