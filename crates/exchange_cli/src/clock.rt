use command_words::Clock;
use std::time;

/// The machine's clock, in whole seconds since 1970. Where it fails, it tells the last moment again, and 0 at first.
/// It tells nothing of its moments.
#[derive(Drop)]
pub struct MachineClock<'r, R> {
    machine: &'r R,
    last: u64,
}

impl<'r, R: time::Clock> MachineClock<'r, R> {
    /// Nothing was told yet.
    pub fn new(machine: &'r R) -> MachineClock<'r, R> {
        MachineClock { machine, last: 0 }
    }
}

impl<'r, R: time::Clock> Clock for MachineClock<'r, R> {
    ghost may_have_told = { λ _ _. ⊥ };

    fn now(&mut self) -> u64 {
        if let Ok(since) = self.machine.since_1970() {
            self.last = since.as_secs();
        }
        self.last
    }
}

#[cfg(test)]
mod tests {
    use super::*;
    use std::io;
    use std::test::Fail;
    use std::time::Duration;

    /// A clock that can't tell the time.
    struct Stopped;

    impl time::Clock for Stopped {
        fn monotonic(&self) -> io::Result<Duration> {
            Err(io::Error::from(io::ErrorKind::Other))
        }

        fn since_1970(&self) -> io::Result<Duration> {
            Err(io::Error::from(io::ErrorKind::Other))
        }
    }

    #[test]
    fn tells_the_last_moment_again(rt: HostRuntime) -> Result<(), Fail> {
        let mut stopped = MachineClock::new(&Stopped);
        assert_eq!(rt; stopped.now(), 0);
        let mut machine = MachineClock::new(&rt);
        let first = machine.now();
        assert!(rt; first > 1_700_000_000);
        assert!(rt; machine.now() >= first);
        Ok(())
    }
}
