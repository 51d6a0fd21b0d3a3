use edge_traits::{Clock, Uptime};
use std::cell::Cell;
use std::time::Duration;
use std::{io, time};

const SECOND: u64 = 1 << 32;

/// A clock whose readings follow a list, in seconds; at a None it can't be read.
#[derive(Drop)]
struct Scripted<'a> {
    readings: &'a [Option<u64>],
    read: Cell<usize>,
}

impl time::Clock for Scripted<'_> {
    fn monotonic(&self) -> io::Result<Duration> {
        let i = self.read.get();
        self.read.set(i.wrapping_add(1));
        match self.readings.get(i) {
            Some(Some(seconds)) => Ok(Duration::from_secs(*seconds)),
            _ => Err(io::Error::from(io::ErrorKind::Unsupported)),
        }
    }

    fn since_1970(&self) -> io::Result<Duration> {
        Err(io::Error::from(io::ErrorKind::Unsupported))
    }
}

fn moves_to_a_thread<T: Send>(_clock: &T) {}

#[test]
fn a_clock_that_falls_or_fails_keeps_its_last_reading(rt: HostRuntime) {
    let readings = [Some(5), Some(7), None, Some(4), Some(8), Some(1 << 33)];
    let system = Scripted {
        readings: &readings,
        read: Cell::new(0),
    };
    let mut uptime = Uptime::new(&system);
    for want in [2 * SECOND, 2 * SECOND, 2 * SECOND, 3 * SECOND, u64::MAX] {
        assert_eq!(rt; uptime.now(), want);
    }
}

#[test]
fn a_clock_that_can_not_be_read_at_first_begins_later(rt: HostRuntime) {
    let system = Scripted {
        readings: &[None, None, Some(5), Some(6)],
        read: Cell::new(0),
    };
    let mut uptime = Uptime::new(&system);
    for want in [0, 0, SECOND] {
        assert_eq!(rt; uptime.now(), want);
    }
    moves_to_a_thread(&Uptime::new(rt));
}
