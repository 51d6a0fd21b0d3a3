ghost use Rattle.std.specs.Prelude.{◌≡◌, [], IfOk};
ghost use Rattle.setup.specs.Openings.{first_record, first_state, local_refid, locally, opening_clock, with_frequency};

use conf_file::Conf;
use discipline::{SoftClock, State};
use fixed_time::Ntp64;
use mode6_frame::{FREQUENCY_STEPPED, LOCAL_NET};
use server_core::Book;
use std::alloc::{AllocError, Global};
use sys_vars::{Record, System};

/// A server of this configuration that nobody has asked yet.
pub(crate) fn open_book(alloc: Global, conf: Conf, origin: Ntp64) -> Result<Book, AllocError>
    ensures state { IfOk result (λ book. book.state ≡ first_state conf origin) }
    ensures journal { IfOk result (λ book. book.journal ≡ []) }
{
    let limits = conf.limits;
    let record = open_record(alloc, conf, origin)?;
    Book::begin(alloc, record, limits, origin)
}

/// What it publishes first.
fn open_record(alloc: Global, conf: Conf, origin: Ntp64) -> Result<Record, AllocError>
    ensures { IfOk result (λ rec. rec ≡ first_record conf origin) }
{
    let opening = Record::opening(alloc, origin)?;
    Ok(Record {
        system: locally(conf.local, with_frequency(conf.freq, opening.system)),
        rules: conf.rules,
        rate: conf.rate,
        clock: opening_clock(origin, conf.freq),
        ..opening
    })
}

/// Its clock, which begins with this frequency, or with none.
pub(crate) fn opening_clock(origin: Ntp64, freq: Option<i32>) -> SoftClock
    ensures { result ≡ opening_clock origin freq }
{
    SoftClock {
        base: 0,
        ntp: origin,
        freq: freq.unwrap_or(0),
        slew: 0,
    }
}

/// The system of a server whose clock begins with this frequency.
fn with_frequency(freq: Option<i32>, mut system: System) -> System
    ensures { result ≡ with_frequency freq system }
{
    let Some(freq) = freq else { return system };
    system.freq = freq;
    system.state = State::Fset;
    system.code = FREQUENCY_STEPPED;
    system
}

/// The system of a server that is synchronized to its own clock, at this stratum.
fn locally(stratum: Option<u8>, mut system: System) -> System
    ensures { result ≡ locally stratum system }
{
    let Some(stratum) = stratum else {
        return system;
    };
    system.leap = 0;
    system.stratum = stratum;
    system.root_disp = 0;
    system.refid = local_refid(stratum);
    system.source = LOCAL_NET;
    system
}

/// The reference identifier of a server of its own clock.
fn local_refid(stratum: u8) -> [u8; 4]
    ensures { result ≡ local_refid stratum }
{
    if stratum == 1 {
        *b"LOCL"
    } else {
        [127, 0, 0, 1]
    }
}
