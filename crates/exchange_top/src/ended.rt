use line_link::Status;

/// How a run ended: its status, how many replies it wrote whole, how many acts the history has, and its disk. Where
/// the journal wasn't opened, no reply was written, and no act is told.
#[derive(Drop)]
pub struct Ended<D> {
    pub status: Status,
    pub lines: u64,
    pub acts: u64,
    pub disk: D,
}
