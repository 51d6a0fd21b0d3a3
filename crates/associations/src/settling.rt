ghost use Rattle.std.specs.Prelude.{◌≡◌, ◌<◌, ◌≤◌, length, map};
ghost use Rattle.std.specs.List.{All};
ghost use Rattle.associations.specs.Associations.{IsAssociation};
ghost use Rattle.associations.specs.Candidates.{IsNear};
ghost use Rattle.associations.specs.Choices.{HasMajority, combined_of, survivors_in};
ghost use Rattle.associations.specs.Settling.{IsSettled, case_by, case_of, forgotten, is_step, is_stepped, loop_by, values_by};
ghost use Rattle.associations.specs.Systems.{values_of};
ghost use Rattle.associations.specs.Taking.{HasPeer};
ghost use Rattle.fixed_time.specs.declared.apart.TheConstants.{CAP};
ghost use Rattle.select_cluster.specs.Combining.{system_peer};

use crate::association::Association;
use crate::candidates::gather;
use crate::choosing::{Choice, choose, mark};
use crate::peers::MAX_PEERS;
use crate::systems::{change_system, unselect};
use clock_filter::Filter;
use discipline::{Change, Loop};
use select_cluster::{Combined, Survivors, combine};
use sys_vars::System;

/// The system after a settle, and whether the clock was stepped.
#[derive(Clone, Copy)]
struct Settled {
    system: System,
    is_stepped: bool,
}

/// Whether the clock was stepped.
fn is_step(change: Change) -> bool
    ensures { result ≡ is_step change }
{
    match change {
        Change::Stepped => true,
        Change::Ignored | Change::Adjusted | Change::Panic => false,
    }
}

/// What the survivors combine to.
fn combine_all(survivors: &Survivors) -> Combined
    requires { 0 < length survivors.now }
    ensures value { result ≡ combined_of survivors.now }
    ensures capped { result.jitter ≤ CAP }
{
    combine(survivors)
}

/// Forgets what was measured by a clock that is stepped since.
fn forget(server: &mut Association)
    ensures value { server.new ≡ forgotten server.old }
    ensures sound { IsAssociation server.old → IsAssociation server.new }
{
    server.pending = None;
    server.filter = Filter::new();
    server.estimate = None;
}

/// Forgets it of all servers.
fn forget_all(list: &mut [Association])
    ensures value { list.new ≡ map forgotten list.old }
    ensures sound { All IsAssociation list.old → All IsAssociation list.new }
{
    for server in list.iter_mut() {
        forget(server);
    }
}

/// Gives the combined offset to the discipline, where the server of this number is the system peer.
fn update_loop(
    server: &Association,
    peer: u16,
    combined: Combined,
    engine: &mut Loop,
    old: System,
    moment: u64,
) -> Settled
    requires sound { IsAssociation server.now }
    requires capped { combined.jitter ≤ CAP }
    requires near { combined.system ≡ peer → IsNear moment server.now }
    ensures steered { engine.new ≡ loop_by (case_by combined peer engine.old moment) combined
        server.now.line.poll engine.old moment }
    ensures shown { values_of result.system ≡ values_by (case_by combined peer engine.old moment)
        server.now combined engine.new moment (values_of old) }
    ensures stepped { result.is_stepped ≡ is_stepped (case_by combined peer engine.old moment) }
{
    if combined.system != peer {
        return Settled {
            system: old,
            is_stepped: false,
        };
    }
    let change = engine.update(combined.offset, server.line.poll, moment);
    Settled {
        system: change_system(old, change, server, combined, engine, moment),
        is_stepped: is_step(change),
    }
}

/// What a choice makes of loop and system.
fn apply_choice(
    server: &Association,
    peer: u16,
    choice: &Choice,
    engine: &mut Loop,
    old: System,
    moment: u64,
) -> Settled
    requires sound { IsAssociation server.now }
    requires some { HasMajority choice.now → 0 < length (survivors_in choice.now) }
    requires near { system_peer (survivors_in choice.now) ≡ peer → IsNear moment server.now }
    ensures steered { engine.new ≡ loop_by (case_of choice.now peer engine.old moment)
        (combined_of (survivors_in choice.now)) server.now.line.poll engine.old moment }
    ensures shown { values_of result.system ≡ values_by (case_of choice.now peer engine.old moment)
        server.now (combined_of (survivors_in choice.now)) engine.new moment (values_of old) }
    ensures stepped { result.is_stepped ≡ is_stepped (case_of choice.now peer engine.old moment) }
{
    match choice {
        Choice::NoMajority => Settled {
            system: unselect(old),
            is_stepped: false,
        },
        Choice::Majority { survivors, .. } => {
            update_loop(server, peer, combine_all(survivors), engine, old, moment)
        }
    }
}

/// Settles after a reply of the server of this number.
pub(crate) fn settle_all(
    list: &mut [Association],
    peer: u16,
    engine: &mut Loop,
    old: &System,
    moment: u64,
) -> System
    requires few { length list.old ≤ MAX_PEERS }
    requires sound { All IsAssociation list.old }
    requires there { HasPeer list.old peer }
    ensures settled { IsSettled
        (record { peers = list.old; engine = engine.old; system = old.now }) peer moment
        (record { peers = list.new; engine = engine.new; system = result }) }
    ensures sound { All IsAssociation list.new }
{
    let choice = choose(&gather(list, moment));
    let settled = apply_choice(
        &list[usize::from(peer) - 1],
        peer,
        &choice,
        engine,
        *old,
        moment,
    );
    mark(list, &choice, moment);
    if settled.is_stepped {
        forget_all(list);
    }
    settled.system
}
