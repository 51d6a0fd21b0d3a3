ghost use Rattle.std.specs.Prelude.{◌≡◌, ◌≤◌, take, unsigned_abs};
ghost use Rattle.associations.specs.Associations.{IsAssociation};
ghost use Rattle.associations.specs.Candidates.{IsNear};
ghost use Rattle.discipline.specs.declared.transitions.TheConstants.{STEP_THRESHOLD};
ghost use Rattle.fixed_time.specs.declared.apart.TheConstants.{CAP};
ghost use Rattle.md5.specs.Md5.{md5};
ghost use Rattle.associations.specs.Systems.{adjusted, after_change, event_of, in_state, leap_below, refid_of, stepped, system_event, unselected, values_of};

use crate::association::Association;
use crate::showing::show_estimate;
use discipline::{Change, Loop, SoftClock, State};
use fixed_time::{MAX_DISPERSION, Ntp64};
use md5::{Digest, Md5};
use mode6_frame::{
    CLOCK_SYNCHRONIZED, FREQUENCY_STEPPED, FREQUENCY_TRAINING, MAX_EVENTS, NO_DRIFT_FILE,
    NO_SOURCE, NO_SYSTEM_PEER, PANIC_STOP, SPIKE_DETECTED, UDP_NTP,
};
use net_addr::Ip;
use ntp_packet::{LEAP_UNSYNCHRONIZED, MAX_SYNCHRONIZED_STRATUM, UNSYNCHRONIZED_STRATUM};
use select_cluster::Combined;
use sys_vars::System;

/// Counts an event of the system and keeps its code (RFC 9327, section 3.1).
fn note_system_event(system: System, code: u8) -> System
    requires { code ≤ 15 }
    ensures { values_of result ≡ system_event code (values_of system) }
{
    let mut next = system;
    next.code = code;
    next.events = next.events.saturating_add(1).min(MAX_EVENTS);
    next
}

/// The code of the event that the discipline enters a state (RFC 9327, section 3.1, table 4).
fn event_of(state: State) -> u8
    ensures value { result ≡ event_of state }
    ensures within { result ≤ 15 }
{
    match state {
        State::Nset => NO_DRIFT_FILE,
        State::Fset => FREQUENCY_STEPPED,
        State::Spik => SPIKE_DETECTED,
        State::Freq => FREQUENCY_TRAINING,
        State::Sync => CLOCK_SYNCHRONIZED,
    }
}

/// The system with the discipline in this state.
fn enter(system: System, state: State) -> System
    ensures { values_of result ≡ in_state state (values_of system) }
{
    if event_of(state) == event_of(system.state) {
        return system;
    }
    let mut next = system;
    next.state = state;
    note_system_event(next, event_of(state))
}

/// The system without a system peer.
pub(crate) fn unselect(system: System) -> System
    ensures { values_of result ≡ unselected (values_of system) }
{
    let mut next = system;
    next.peer = 0;
    note_system_event(next, NO_SYSTEM_PEER)
}

/// The leap indicator that comes from a server.
fn find_leap(server: &Association) -> u8
    requires { server.now.leap ≤ 3 }
    ensures value { result ≡ leap_below server.now }
    ensures within { result ≤ 3 }
{
    if server.stratum == MAX_SYNCHRONIZED_STRATUM {
        LEAP_UNSYNCHRONIZED
    } else {
        server.leap
    }
}

fn md5_of(octets: &[u8; 16]) -> [u8; 16]
    ensures { result ≡ md5 octets.now }
{
    let mut hasher = Md5::new();
    hasher.update(octets.as_slice());
    hasher.finalize()
}

fn first_four(digest: [u8; 16]) -> [u8; 4]
    ensures { result ≡ take 4 digest }
{
    [digest[0], digest[1], digest[2], digest[3]]
}

/// The reference identifier of a server (RFC 5905, section 7.3).
fn make_refid(ip: &Ip) -> [u8; 4]
    ensures { result ≡ refid_of ip.now }
{
    match ip {
        Ip::V4(octets) => *octets,
        Ip::V6(octets) => first_four(md5_of(octets)),
    }
}

/// The system that the system peer and the survivors set, in the state that it had.
fn adjust(
    system: System,
    server: &Association,
    combined: Combined,
    clock: SoftClock,
    moment: u64,
) -> System
    requires leap { server.now.leap ≤ 3 }
    requires stratum { server.now.stratum ≤ 16 }
    requires near { IsNear moment server.now }
    requires capped { combined.jitter ≤ CAP }
    requires small { unsigned_abs combined.offset.0 ≤ STEP_THRESHOLD }
    ensures { values_of result ≡ adjusted server.now combined clock moment (values_of system) }
{
    let estimate = show_estimate(server.estimate);
    System {
        leap: find_leap(server),
        stratum: server.stratum + 1,
        precision: system.precision,
        root_delay: server.root_delay + estimate.delay,
        root_disp: server.root_disp
            + estimate.disp
            + combined.offset.0.unsigned_abs()
            + combined.jitter,
        refid: make_refid(&server.line.addr.ip),
        reference: clock.at(moment),
        at: moment,
        peer: combined.system,
        poll: server.line.poll,
        offset: combined.offset,
        freq: clock.freq,
        jitter: combined.jitter,
        state: system.state,
        source: UDP_NTP,
        events: system.events,
        code: system.code,
    }
}

/// The system of a clock that was stepped, in the state that it had.
fn step(system: System, clock: SoftClock, moment: u64) -> System
    ensures { values_of result ≡ stepped clock moment (values_of system) }
{
    System {
        leap: LEAP_UNSYNCHRONIZED,
        stratum: UNSYNCHRONIZED_STRATUM,
        precision: system.precision,
        root_delay: 0,
        root_disp: MAX_DISPERSION,
        refid: *b"STEP",
        reference: Ntp64(0),
        at: moment,
        peer: system.peer,
        poll: system.poll,
        offset: system.offset,
        freq: clock.freq,
        jitter: system.jitter,
        state: system.state,
        source: NO_SOURCE,
        events: system.events,
        code: system.code,
    }
}

/// The system after what the discipline did with the combined offset of a near system peer.
pub(crate) fn change_system(
    system: System,
    change: Change,
    server: &Association,
    combined: Combined,
    engine: &Loop,
    moment: u64,
) -> System
    requires sound { IsAssociation server.now }
    requires near { IsNear moment server.now }
    requires capped { combined.jitter ≤ CAP }
    requires small { change ≡ Change.Adjusted → unsigned_abs combined.offset.0 ≤ STEP_THRESHOLD }
    ensures { values_of result
        ≡ after_change change server.now combined engine.now moment (values_of system) }
{
    match change {
        Change::Panic => note_system_event(system, PANIC_STOP),
        Change::Ignored => enter(system, engine.state()),
        Change::Adjusted => enter(
            adjust(system, server, combined, engine.clock(), moment),
            engine.state(),
        ),
        Change::Stepped => enter(step(system, engine.clock(), moment), engine.state()),
    }
}
