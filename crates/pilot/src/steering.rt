ghost use Rattle.std.specs.Prelude.{◌≡◌, ◌<◌, [], false, length};
ghost use Rattle.pilot.specs.Steering.{begun_at, readied, ticked_at};

use access_rules::{Rate, Rules};
use associations::{Peers, moment_after};
use discipline::{Loop, State};
use fixed_time::{Ntp64, Span};
use ntp_packet::{LEAP_UNSYNCHRONIZED, UNSYNCHRONIZED_STRATUM};
use std::alloc::Global;
use sys_vars::{PRECISION, Record, System};
use wheel::Wheel;

/// The key of the tick among the due times. The key of a request is the association number of the
/// server to which it goes.
pub const TICK_KEY: u32 = 0;

/// The seconds from one tick of the discipline to the next.
pub const TICK: u64 = 64;

/// What a pilot steers by.
#[derive(Drop)]
pub struct Steering {
    /// The servers that it asks.
    pub peers: Peers,
    /// The clock discipline.
    pub engine: Loop,
    /// The values of the system.
    pub system: System,
    /// The number of the last record that was given.
    pub epoch: u64,
    /// When the tick and the requests are due, in 32.32 seconds.
    pub due: Wheel,
    /// Whether the clock was read. Before that nothing is due.
    pub begun: bool,
}

/// Who may ask, and how often, as each record of a session says.
#[derive(Drop)]
pub struct Basis {
    pub rules: Rules,
    pub rate: Rate,
}

impl Steering {
    /// Where nothing is known yet but these servers and this loop. The system is taken over from a
    /// record before anything is given.
    pub(crate) fn of(alloc: Global, peers: Peers, engine: Loop) -> Steering
        ensures peers { result.peers ≡ peers }
        ensures engine { result.engine ≡ engine }
        ensures epoch { result.epoch ≡ 0 }
        ensures due { result.due ≡ [] }
        ensures begun { result.begun ≡ false }
    {
        Steering {
            peers,
            engine,
            system: no_system(),
            epoch: 0,
            due: Wheel::new(alloc),
            begun: false,
        }
    }
}

/// The system of a clock that is not synchronized.
fn no_system() -> System {
    System {
        leap: LEAP_UNSYNCHRONIZED,
        stratum: UNSYNCHRONIZED_STRATUM,
        precision: PRECISION,
        root_delay: 0,
        root_disp: 0,
        refid: [0; 4],
        reference: Ntp64(0),
        at: 0,
        peer: 0,
        poll: 0,
        offset: Span(0),
        freq: 0,
        jitter: 0,
        state: State::Nset,
        source: 0,
        events: 0,
        code: 0,
    }
}

/// Has each request be due at the first reading, and the tick 64 seconds later.
pub(crate) fn begin(steering: &mut Steering, at: u64)
    requires room { TICK_KEY < length steering.old.due }
    ensures { steering.new ≡ begun_at at steering.old }
{
    if !steering.begun {
        steering.begun = true;
        steering.due.set_all(at);
        steering.due.put(TICK_KEY, moment_after(TICK, at));
    }
}

/// Ticks the discipline, and has the next tick be due 64 seconds later.
pub(crate) fn tick(steering: &mut Steering, at: u64)
    requires room { TICK_KEY < length steering.old.due }
    ensures { steering.new ≡ ticked_at at steering.old }
{
    let next = moment_after(TICK, at);
    steering.engine.tick(at);
    steering.due.put(TICK_KEY, next);
}

/// Takes over from the record that is published: its system where there is no own one yet, and its
/// number where that is greater.
pub(crate) fn take_over(steering: &mut Steering, latest: &Record)
    ensures { steering.new ≡ readied latest.now steering.old }
{
    if !steering.begun {
        steering.system = latest.system;
    }
    steering.epoch = steering.epoch.max(latest.epoch);
}
