ghost use Rattle.std.specs.Prelude.{◌≡◌};

/// How a run ended.
#[derive(Clone, Copy, Debug, PartialEq, Eq)]
pub enum Status {
    /// The input was read to its end, and every line was answered.
    Done,
    /// The words after the program's name aren't those of a command.
    Words,
    /// The source failed.
    ReadFault,
    /// The sink failed.
    WriteFault,
    /// The disk of the journal failed.
    DiskFault,
    /// The disk has more than 17 bytes, which don't begin with a journal's header.
    NotJournal,
    /// The journal breaks off: the open gate at byte `at` has no whole batch behind it. `lsn` acts stand before it.
    Cut { at: u64, lsn: u64 },
    /// What stands behind `lsn` acts in the batch of the gate at byte `at` spells no act.
    NotAct { at: u64, lsn: u64 },
    /// Act `lsn`, in the batch of the gate at byte `at`, is refused over those before it, with the refusal of
    /// number `code`.
    Illegal { at: u64, lsn: u64, code: u8 },
    /// As many bytes were taken as a run takes at the most, and no line and no end were told.
    InputLimit,
    /// Memory was wanting before anything was read.
    Memory,
}

impl Status {
    ghost use Rattle.line_link.specs.Status.{number_of};

    /// The number with which the program ends.
    pub fn number(&self) -> u8
        ensures { result ≡ number_of self.now }
    {
        match self {
            Status::Done => 0,
            Status::Words => 2,
            Status::ReadFault => 3,
            Status::WriteFault => 4,
            Status::DiskFault => 5,
            Status::NotJournal => 6,
            Status::Cut { .. } => 7,
            Status::NotAct { .. } => 7,
            Status::Illegal { .. } => 7,
            Status::InputLimit => 8,
            Status::Memory => 9,
        }
    }
}
