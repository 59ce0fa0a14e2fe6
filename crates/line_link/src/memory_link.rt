ghost use Rattle.std.specs.Prelude.{◌≡◌, Some, refl};
ghost use Rattle.outside_faults.specs.Told.{side};

use crate::link::Link;
use crate::memory_sink::MemorySink;
use crate::memory_source::MemorySource;
use crate::sink::Sink;
use crate::source::Source;
use outside_faults::Failed;

/// A source and a sink in memory as one link: a read goes to the source and a write to the sink.
#[derive(Debug, Drop)]
pub struct MemoryLink {
    source: MemorySource,
    sink: MemorySink,
}

impl MemoryLink {
    /// Reads are of this source, and writes go to this sink. It takes no memory.
    pub fn new(source: MemorySource, sink: MemorySink) -> MemoryLink
        ensures { result ≡ record { source = source; sink = sink } }
    {
        MemoryLink { source, sink }
    }

    /// The sink, with the bytes written so far.
    pub fn sink(&self) -> &MemorySink
        ensures { result.now ≡ self.now.sink }
    {
        &self.sink
    }
}

impl Source for MemoryLink {
    ghost left = { λ l. Some l.source.bytes };

    ghost read_faults = { λ l. l.source.faults };

    ghost kept_by_read = { λ l. side (Some l.sink.bytes) l.sink.faults };

    fn read(&mut self, into: &mut [u8]) -> Result<usize, Failed> {
        self.source.read(into)
    }
}

impl Sink for MemoryLink {
    ghost held = { λ l. Some l.sink.bytes };

    ghost write_faults = { λ l. l.sink.faults };

    ghost kept_by_write = { λ l. side (Some l.source.bytes) l.source.faults };

    fn write(&mut self, bytes: &[u8]) -> Result<usize, Failed> {
        self.sink.write(bytes)
    }
}

impl Link for MemoryLink {
    ghost read_keeps_written = { λ _. refl };

    ghost write_keeps_left = { λ _. refl };
}
