ghost use Rattle.std.specs.Prelude.{◌≡◌, [], IfOk};
ghost use Rattle.edge_traits.specs.Memory.{IsNewClock, readings_of};
ghost use Rattle.drawn_session.specs.Ports.{new_port};
ghost use Rattle.drawn_session.specs.Sessions.{AreNewWorkers, IsCommon, IsFirst, IsNewPilot, IsNewWorker, IsOpeningState, readings};
ghost use Rattle.drawn_session.specs.declared.opening.TheConstants.{ORIGIN};

use crate::datagrams::{DATAGRAMS, datagrams_for};
use crate::port::DrawnPort;
use associations::Peers;
use discipline::{Loop, SoftClock};
use edge_traits::{MemoryClock, Salt};
use fixed_time::Ntp64;
use mac_keys::KeyTable;
use pilot::Pilot;
use recency::Limits;
use responders::{Session, Workers};
use server_core::Book;
use shared_book::Common;
use std::alloc::{AllocError, Global};
use sys_vars::Record;
use worker::Worker;

/// When the server's clocks begin: with the year 1970 (RFC 5905, figure 4).
pub const ORIGIN: u64 = 0x83aa_7e80_0000_0000;

/// So much time passes between two readings of a worker's clock: a 64th of a second, in units of
/// 2^-32 seconds.
pub const TICK: u64 = 1 << 26;

/// How many readings a worker's clock has: two for each datagram.
pub const READINGS: u64 = 2 * DATAGRAMS;

/// The host of the pilot's port, at which nothing comes.
pub const PILOT: u16 = 2;

/// The session that this number draws, before it begins.
pub(crate) fn open_session(
    alloc: Global,
    number: u64,
) -> Result<Session<DrawnPort, MemoryClock>, AllocError>
    ensures { IfOk result (IsFirst number) }
{
    let workers = open_workers(alloc, number)?;
    let pilot = open_pilot(alloc, number)?;
    Ok(Session {
        common: common(alloc),
        book: open_book(alloc)?,
        workers,
        pilot,
    })
}

/// What the parts of the server know.
fn common(alloc: Global) -> Common
    ensures { IsCommon result }
{
    Common {
        keys: KeyTable::new(alloc),
        salt: Salt([0; 16]),
        origin: Ntp64(ORIGIN),
    }
}

/// A server that nobody has asked yet.
fn open_book(alloc: Global) -> Result<Book, AllocError>
    ensures state { IfOk result (λ book. IsOpeningState book.state) }
    ensures journal { IfOk result (λ book. book.journal ≡ []) }
{
    let record = Record::opening(alloc, Ntp64(ORIGIN))?;
    Book::begin(alloc, record, Limits::plain(), Ntp64(ORIGIN))
}

/// The port of a host.
fn open_port(alloc: Global, number: u64, host: u16) -> Result<DrawnPort, AllocError>
    ensures { IfOk result (λ port. port ≡ new_port number host) }
{
    let datagrams = datagrams_for(alloc, number, host)?;
    Ok(DrawnPort::of(alloc, number, host, datagrams))
}

/// A worker's clock.
fn open_clock(alloc: Global) -> Result<MemoryClock, AllocError>
    ensures new { IfOk result IsNewClock }
    ensures readings { IfOk result (λ clock. readings_of clock ≡ readings) }
{
    let mut list = Vec::new(alloc);
    for number in 0..READINGS {
        list.push((number + 1) * TICK)?;
    }
    Ok(MemoryClock::of(list))
}

/// The worker of this number.
fn open_worker(
    alloc: Global,
    number: u64,
    who: u16,
) -> Result<Worker<DrawnPort, MemoryClock>, AllocError>
    ensures { IfOk result (IsNewWorker number who) }
{
    let port = open_port(alloc, number, who)?;
    let clock = open_clock(alloc)?;
    Ok(Worker::new(alloc, u32::from(who), port, clock))
}

/// The workers.
fn open_workers(alloc: Global, number: u64) -> Result<Workers<DrawnPort, MemoryClock>, AllocError>
    ensures { IfOk result (AreNewWorkers number) }
{
    let mut list = Vec::new(alloc);
    list.push(open_worker(alloc, number, 0)?)?;
    list.push(open_worker(alloc, number, 1)?)?;
    Ok(Workers::of(list))
}

/// A pilot without servers, whose clock stands at 0.
fn open_pilot(alloc: Global, number: u64) -> Result<Pilot<DrawnPort, MemoryClock>, AllocError>
    ensures { IfOk result (IsNewPilot number) }
{
    let port = open_port(alloc, number, PILOT)?;
    let clock = MemoryClock::of(Vec::new(alloc));
    let peers = Peers::of(alloc, &[])?;
    let engine = Loop::of(
        SoftClock {
            base: 0,
            ntp: Ntp64(ORIGIN),
            freq: 0,
            slew: 0,
        },
        None,
    );
    Ok(Pilot::new(alloc, port, clock, peers, engine))
}
