ghost use Rattle.std.specs.Prelude.{◌≡◌, ◌+◌, ◌≤◌, length};
ghost use Rattle.associations.specs.Taking.{HasPeer, line_for};
ghost use Rattle.pilot.specs.Hearing.{IsDelayed, IsHeard, IsPutOff, IsSettledAt, IsUsed};

use crate::steering::Steering;
use associations::{NextRequest, ReplyFault, TakenReply};
use mac_keys::KeyTable;
use net_addr::Addr;

/// Judges a datagram that came at the moment, and settles what is fresh. Answers whether a record is
/// to be given.
pub(crate) fn hear(
    steering: &mut Steering,
    keys: &KeyTable,
    from: &Addr,
    bytes: &[u8],
    at: u64,
) -> bool
    requires room { length steering.old.peers + 1 ≤ length steering.old.due }
    ensures heard { IsHeard keys.now at steering.old from.now bytes.now result steering.new }
    ensures peers_kept { length steering.new.peers ≡ length steering.old.peers }
    ensures room_kept { length steering.new.due ≡ length steering.old.due }
{
    let clock = steering.engine.clock();
    match steering.peers.take_reply(from, bytes, keys, &clock, at) {
        Ok(taken) => {
            use_reply(steering, taken, at);
            true
        }
        Err(fault) => {
            put_off(steering, from, fault, at);
            false
        }
    }
}

/// Settles what is fresh.
fn use_reply(steering: &mut Steering, taken: TakenReply, at: u64)
    requires there { HasPeer steering.old.peers taken.peer }
    ensures used { IsUsed at steering.old taken.peer taken.fresh steering.new }
    ensures peers_kept { length steering.new.peers ≡ length steering.old.peers }
    ensures room_kept { length steering.new.due ≡ length steering.old.due }
{
    if taken.fresh {
        settle(steering, taken.peer, at);
    }
}

/// Settles after a fresh reply of a server.
fn settle(steering: &mut Steering, peer: u16, at: u64)
    requires there { HasPeer steering.old.peers peer }
    ensures settled { IsSettledAt at steering.old peer steering.new }
    ensures peers_kept { length steering.new.peers ≡ length steering.old.peers }
    ensures room_kept { length steering.new.due ≡ length steering.old.due }
{
    let old = steering.system;
    let new = steering.peers.settle(peer, &mut steering.engine, &old, at);
    steering.system = new;
}

/// Puts the next request off, where a server was told to be asked more seldom.
fn put_off(steering: &mut Steering, from: &Addr, fault: ReplyFault, at: u64)
    requires room { length steering.old.peers + 1 ≤ length steering.old.due }
    ensures put_off { IsPutOff at steering.old (line_for steering.old.peers from.now) fault
        steering.new }
    ensures peers_kept { length steering.new.peers ≡ length steering.old.peers }
    ensures room_kept { length steering.new.due ≡ length steering.old.due }
{
    if let Some(peer) = steering.peers.line_of(from) {
        delay(steering, peer, fault, at);
    }
}

/// Puts the next request to a server off after the kiss code RATE.
fn delay(steering: &mut Steering, peer: u16, fault: ReplyFault, at: u64)
    requires there { HasPeer steering.old.peers peer }
    requires room { length steering.old.peers + 1 ≤ length steering.old.due }
    ensures delayed { IsDelayed at steering.old peer fault steering.new }
    ensures peers_kept { length steering.new.peers ≡ length steering.old.peers }
    ensures room_kept { length steering.new.due ≡ length steering.old.due }
{
    match steering.peers.next_after_fault(peer, fault, at) {
        NextRequest::AsBefore => {}
        NextRequest::Due(next) => steering.due.put(u32::from(peer), next),
    }
}
