ghost use Rattle.std.specs.Prelude.{◌≡◌, None};
ghost use Rattle.outside_faults.specs.Told.{no_side};

use line_link::Source;
use outside_faults::{Failed, FaultCount};
use std::io::Read;

/// A reader of the machine as a source. It tells nothing of its bytes.
#[derive(Drop)]
pub struct Input<R> {
    reader: R,
    faults: FaultCount,
}

impl<R: Read + Drop> Input<R> {
    /// Nothing has failed yet.
    pub fn new(reader: R) -> Input<R>
        ensures { result.faults ≡ 0 }
    {
        Input {
            reader,
            faults: FaultCount::new(),
        }
    }
}

impl<R: Read + Drop> Source for Input<R> {
    ghost left = { λ _. None };

    ghost read_faults = { λ s. s.faults };

    ghost kept_by_read = { λ _. no_side };

    fn read(&mut self, into: &mut [u8]) -> Result<usize, Failed> {
        match self.reader.read(into) {
            Ok(n) => Ok(n),
            Err(_) => Err(self.faults.raise()),
        }
    }
}

#[cfg(test)]
mod tests {
    use super::*;
    use std::io;
    use std::test::Fail;

    /// A reader that gives one byte, and then fails.
    #[derive(Drop)]
    struct Breaking {
        is_broken: bool,
    }

    impl Read for Breaking {
        fn read(&mut self, buf: &mut [u8]) -> io::Result<usize> {
            if self.is_broken || buf.is_empty() {
                return Err(io::Error::from(io::ErrorKind::Other));
            }
            self.is_broken = true;
            buf[0] = b'x';
            Ok(1)
        }
    }

    #[test]
    fn counts_each_failed_read(rt: HostRuntime) -> Result<(), Fail> {
        let mut input = Input::new(Breaking { is_broken: false });
        let mut piece = [0; 4];
        assert_eq!(rt; input.read(&mut piece), Ok(1));
        assert_eq!(rt; piece[0], b'x');
        assert_eq!(rt; input.read(&mut piece), Err(Failed));
        assert_eq!(rt; input.faults.get(), 1);
        Ok(())
    }
}
