ghost use Rattle.std.specs.Prelude.{◌≡◌, None};
ghost use Rattle.outside_faults.specs.Told.{no_side};

use line_link::Sink;
use outside_faults::{Failed, FaultCount};
use std::io::Write;

/// A writer of the machine as a sink. It tells nothing of its bytes, and a write of nothing is a failure.
#[derive(Drop)]
pub struct Output<W> {
    writer: W,
    faults: FaultCount,
}

impl<W: Write + Drop> Output<W> {
    /// Nothing has failed yet.
    pub fn new(writer: W) -> Output<W>
        ensures { result.faults ≡ 0 }
    {
        Output {
            writer,
            faults: FaultCount::new(),
        }
    }
}

impl<W: Write + Drop> Sink for Output<W> {
    ghost held = { λ _. None };

    ghost write_faults = { λ s. s.faults };

    ghost kept_by_write = { λ _. no_side };

    fn write(&mut self, bytes: &[u8]) -> Result<usize, Failed> {
        match self.writer.write(bytes) {
            Ok(0) if !bytes.is_empty() => Err(self.faults.raise()),
            Ok(n) => Ok(n),
            Err(_) => Err(self.faults.raise()),
        }
    }
}

#[cfg(test)]
mod tests {
    use super::*;
    use std::io;
    use std::test::Fail;

    /// A writer that takes two bytes a call until it is full, then nothing, and fails where nothing is written.
    #[derive(Drop)]
    struct Filling {
        room: usize,
    }

    impl Write for Filling {
        fn write(&mut self, buf: &[u8]) -> io::Result<usize> {
            if buf.is_empty() {
                return Err(io::Error::from(io::ErrorKind::Other));
            }
            let n = buf.len().min(2).min(self.room);
            self.room -= n;
            Ok(n)
        }

        fn flush(&mut self) -> io::Result<()> {
            Ok(())
        }
    }

    #[test]
    fn counts_a_write_of_nothing(rt: HostRuntime) -> Result<(), Fail> {
        let mut output = Output::new(Filling { room: 3 });
        assert_eq!(rt; output.write(b"abc"), Ok(2));
        assert_eq!(rt; output.write(b"c"), Ok(1));
        assert_eq!(rt; output.write(b"d"), Err(Failed));
        assert_eq!(rt; output.write(b""), Err(Failed));
        assert_eq!(rt; output.faults.get(), 2);
        Ok(())
    }
}
