ghost use Rattle.std.specs.Prelude.{◌≡◌};
ghost use Rattle.outside_faults.specs.Told.{side};

use crate::sink::Sink;
use crate::source::Source;

/// A source and a sink in one: a read leaves the side that is written as it was, and a write the side that is read.
pub trait Link: Source + Sink {
    /// What a read keeps is the written side.
    ghost read_keeps_written: { (l : Self) → Self.kept_by_read l ≡ side (Self.held l) (Self.write_faults l) };

    /// What a write keeps is the side that is read.
    ghost write_keeps_left: { (l : Self) → Self.kept_by_write l ≡ side (Self.left l) (Self.read_faults l) };
}
