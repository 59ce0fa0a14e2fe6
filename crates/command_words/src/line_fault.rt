ghost use Rattle.std.specs.Prelude.{◌≡◌};
ghost use Rattle.command_words.specs.declared.line_fault.LineFault.TheVariants.{Memory};

use condition_sets::NoMemory;
use std::alloc::{AllocError, AllocFailed};

/// Why a line is no request.
#[derive(Clone, Copy, Debug, PartialEq, Eq)]
pub enum LineFault {
    /// It has more bytes than a line may have.
    TooLong,
    /// It is no JSON text.
    NotJson,
    /// It is no object with just the members of a command, each of its kind; or the command isn't carried out so far.
    NotCommand,
    /// A member is of its kind, and outside its range.
    OutOfRange,
    /// Memory was wanting. It may be answered at any time, and changes nothing.
    Memory,
}

impl LineFault {
    ghost use Rattle.command_words.specs.Refusal.{fault_code};

    /// The fault's number, which clients see.
    pub fn code(&self) -> u8
        ensures { result ≡ fault_code self.now }
    {
        match self {
            LineFault::TooLong => 1,
            LineFault::NotJson => 2,
            LineFault::NotCommand => 3,
            LineFault::OutOfRange => 4,
            LineFault::Memory => 37,
        }
    }
}

impl From<NoMemory> for LineFault {
    ghost from_gives = { λ _ fault. fault ≡ Memory };

    fn from(_error: NoMemory) -> LineFault {
        LineFault::Memory
    }
}

impl From<AllocError> for LineFault {
    ghost from_gives = { λ _ fault. fault ≡ Memory };

    fn from(_error: AllocError) -> LineFault {
        LineFault::Memory
    }
}

impl<T: Drop> From<AllocFailed<T>> for LineFault {
    ghost from_gives = { λ _ fault. fault ≡ Memory };

    fn from(_error: AllocFailed<T>) -> LineFault {
        LineFault::Memory
    }
}
