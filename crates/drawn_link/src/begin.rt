ghost use Rattle.std.specs.Prelude.{◌≡◌, ◌<◌, ◌+◌, ◌*◌, OnOk, IfOk};
ghost use Rattle.drawn_link.specs.Links.{IsBegun};
ghost use Rattle.draws.specs.declared.clients.TheConstants.{CLIENTS};
ghost use Rattle.drawn_link.specs.declared.begin.TheConstants.{MAX_AGE, MAX_DEPTH, MIN_DEPTH, SECOND};

use crate::arrivals::ask_of;
use draws::CLIENTS;
use fixed_time::Ntp64;
use recency::Limits;
use server_core::{Book, Op, StepFault};
use std::alloc::{AllocError, Global};
use sys_vars::Record;

/// The time at which the server's clocks begin: that of Unix.
pub const ORIGIN: u64 = 0x83aa_7e80_0000_0000;

/// The fewest rows of the client list above which old ones go.
pub const MIN_DEPTH: u32 = 64;

/// The most rows of the client list.
pub const MAX_DEPTH: u32 = 512;

/// When a row is old, in seconds.
pub const MAX_AGE: u64 = 3_600;

/// A second, in units of 2^-32 seconds.
pub const SECOND: u64 = 1 << 32;

/// The limits of the client list: 64 to 512 rows, which are old after an hour.
fn limits() -> Limits
    ensures mindepth { result.mindepth ≡ MIN_DEPTH }
    ensures maxdepth { result.maxdepth ≡ MAX_DEPTH }
    ensures minage { result.minage ≡ 0 }
    ensures maxage { result.maxage ≡ MAX_AGE * SECOND }
{
    Limits {
        mindepth: MIN_DEPTH,
        maxdepth: MAX_DEPTH,
        minage: 0,
        maxage: MAX_AGE * SECOND,
    }
}

/// A server at which each client has arrived once, a second after another.
pub(crate) fn begin(alloc: Global) -> Result<Book, AllocError>
    ensures { IfOk result (IsBegun CLIENTS) }
{
    let record = Record::opening(alloc, Ntp64(ORIGIN))?;
    let mut book = Book::begin(alloc, record, limits(), Ntp64(ORIGIN))?;
    for number in 0..CLIENTS {
        arrive_first(&mut book, number)?;
    }
    Ok(book)
}

/// The first request of a client.
fn arrive_first(book: &mut Book, number: u64) -> Result<(), AllocError>
    requires below { number < CLIENTS }
    requires begun { IsBegun number book.old }
    ensures { OnOk result (IsBegun (number + 1) book.new) }
{
    match book.step(Op::Arrive(ask_of(number), (number + 1) * SECOND)) {
        Ok(_) => Ok(()),
        Err(StepFault::NoMemory) => Err(AllocError),
        Err(StepFault::Ended(_) | StepFault::Full(_) | StepFault::ClockEnd) => unreachable!(),
    }
}
