ghost use Rattle.std.specs.Prelude.{◌≡◌, ◌≢◌, ◌+◌, ◌-◌, ◌*◌, ◌^◌, ◌≤◌, ◌<◌, ◌↔◌, Option, None, Some, Err, codes, false, length, map, slice_get, slice_set, IfErr, IfOk, IfSome, IsSome};
ghost use Rattle.std.specs.List.{position};
ghost use Rattle.associations.specs.Accepting.{judged, verdict_of};
ghost use Rattle.associations.specs.Associations.{ArePeers, asked, opened};
ghost use Rattle.associations.specs.DueTimes.{moment_after};
ghost use Rattle.associations.specs.declared.asking.TheConstants.{MAX_REQUEST_LEN};
ghost use Rattle.associations.specs.Judging.{IsDecided, early_fault_of, ends_waiting};
ghost use Rattle.associations.specs.Replies.{IsRead, IsReadable};
ghost use Rattle.net_addr.specs.Addresses.{same_addr};
ghost use Rattle.associations.specs.Requests.{request_header, request_of};
ghost use Rattle.associations.specs.Settling.{IsSettled};
ghost use Rattle.associations.specs.Showing.{AreViews};
ghost use Rattle.ntp_packet.specs.Packet.{IsPacket};
ghost use Rattle.associations.specs.Taking.{HasPeer, answer_by, answer_to, line_for, peer_at, peers_after, place_for, time_at};

use crate::accepting::judge;
use crate::asking::make_request;
use crate::association::{Association, note_request, open};
use crate::due_times::{NextRequest, is_rate, moment_after, seconds_of};
use crate::judging::ReplyFault;
use crate::reading::read_reply;
use crate::settling::settle_all;
use crate::showing::view_all;
use access_rules::ServerLine;
use discipline::{Loop, SoftClock};
use edge_traits::Octets;
use mac_keys::KeyTable;
use net_addr::{Addr, is_same_addr};
use ntp_trailer::JudgedPacket;
use std::alloc::{AllocError, Global};
use std::marker::Model;
pub use sys_vars::MAX_PEERS;
use sys_vars::{PeerViews, System};

/// A reply that was accepted: the association number of its server, and whether the clock filter
/// gave a new estimate.
#[derive(Clone, Copy, Debug, PartialEq, Eq)]
pub struct TakenReply {
    pub peer: u16,
    pub fresh: bool,
}

/// The associations of the servers, in the order of their lines. Association numbers count from 1.
#[derive(Drop)]
pub struct Peers {
    pub(crate) list: Vec<Association>,
}

impl Model for Peers {
    ghost use Rattle.std.specs.Prelude.{List};
    ghost use Rattle.associations.specs.Associations.{ArePeers};
    ghost use Rattle.associations.specs.declared.association.Association.{Association};

    ghost Value = { List Association };

    ghost view = { λ p. p.list.items };

    ghost invariant = { λ p. ArePeers p.list.items };
}

/// The place of the first line with this address and port.
fn find_line(list: &[Association], from: &Addr) -> Option<usize>
    ensures { result ≡ position (λ p. same_addr p.line.addr from.now) list.now }
{
    list.iter().position(|p| is_same_addr(&p.line.addr, from))
}

/// That place, or the end.
fn find_place(list: &[Association], from: &Addr) -> usize
    ensures place { result ≡ place_for list.now from.now }
    ensures within { result ≤ length list.now }
{
    find_line(list, from).unwrap_or(list.len())
}

/// The answer of a verdict on a peer's reply.
fn answer(peer: u16, verdict: Result<bool, ReplyFault>) -> Result<TakenReply, ReplyFault>
    ensures value { result ≡ answer_by peer verdict }
    ensures fault { IfErr result (λ fault. verdict ≡ Err fault) }
    ensures by { IfOk result (λ taken. taken.peer ≡ peer) }
{
    match verdict {
        Ok(fresh) => Ok(TakenReply { peer, fresh }),
        Err(fault) => Err(fault),
    }
}

impl Peers {
    /// An association for each line; no server was asked yet.
    pub fn of(alloc: Global, lines: &[ServerLine]) -> Result<Peers, AllocError>
        requires { length lines.now ≤ MAX_PEERS }
        ensures { IfOk result (λ peers. peers ≡ map opened lines.now) }
    {
        let mut list = Vec::with_capacity(alloc, lines.len())?;
        for line in lines {
            list.push_reserved(open(*line));
        }
        Ok(Peers { list })
    }

    /// How many servers there are.
    pub fn len(&self) -> u32
        ensures len { result ≡ length self.now }
        ensures sound { ArePeers self.now }
    {
        self.list.len() as u32
    }

    /// The reach register of a peer: a bit for each of the last eight requests, the newest being
    /// bit 0.
    pub fn reach(&self, peer: u16) -> u8
        requires { HasPeer self.now peer }
        ensures { IfSome (peer_at self.now peer) (λ p. result ≡ p.reach) }
    {
        self.list[usize::from(peer) - 1].reach
    }

    /// The address and port of a peer's line. Takes no memory.
    pub fn addr_of(&self, peer: u16) -> Addr
        requires { HasPeer self.now peer }
        ensures { IfSome (peer_at self.now peer) (λ p. result ≡ p.line.addr) }
    {
        self.list[usize::from(peer) - 1].line.addr
    }

    /// The poll exponent of a peer's line: its requests are 2^poll seconds apart.
    pub fn poll(&self, peer: u16) -> u8
        requires { HasPeer self.now peer }
        ensures { IfSome (peer_at self.now peer) (λ p. result ≡ p.line.poll) }
    {
        self.list[usize::from(peer) - 1].line.poll
    }

    /// When a peer is asked next after a request at the moment: one poll interval later, in 32.32
    /// seconds. None exactly where that is past the last moment.
    pub fn next_request(&self, peer: u16, moment: u64) -> Option<u64>
        requires { HasPeer self.now peer }
        ensures { IfSome (peer_at self.now peer) (λ p. result ≡ moment_after (2 ^ p.line.poll) moment) }
    {
        moment_after(seconds_of(self.poll(peer)), moment)
    }

    /// When a peer is asked next, after a reply of it that came at the moment was refused for this
    /// fault. The kiss code RATE puts the next request off: it is due four poll intervals after the
    /// moment, in 32.32 seconds (RFC 5905, section 7.4). Any other fault leaves it as it was due.
    pub fn next_after_fault(&self, peer: u16, fault: ReplyFault, moment: u64) -> NextRequest
        requires { HasPeer self.now peer }
        ensures put_off { fault ≡ ReplyFault.Kiss (codes "RATE")
            → IfSome (peer_at self.now peer) (λ p.
            result ≡ NextRequest.Due (moment_after (4 * 2 ^ p.line.poll) moment)) }
        ensures as_before { fault ≢ ReplyFault.Kiss (codes "RATE") → result ≡ NextRequest.AsBefore }
    {
        if is_rate(fault) {
            let seconds = 4 * seconds_of(self.poll(peer));
            NextRequest::Due(moment_after(seconds, moment))
        } else {
            NextRequest::AsBefore
        }
    }

    /// The place of the first line with this address and port, or the end.
    fn place(&self, from: &Addr) -> usize
        ensures place { result ≡ place_for self.now from.now }
        ensures within { result ≤ length self.now }
    {
        find_place(&self.list, from)
    }

    /// The association number of the first line with this address and port.
    pub fn line_of(&self, from: &Addr) -> Option<u16>
        ensures value { result ≡ line_for self.now from.now }
        ensures there { IfSome result (λ peer. HasPeer self.now peer) }
    {
        let place = self.place(from);
        if place < self.list.len() {
            Some(place as u16 + 1)
        } else {
            None
        }
    }

    /// The request to a peer that goes out at the moment, by this clock. Its reply is awaited from
    /// then on, and the reach register is shifted left by one (RFC 5905, section 13.2). Takes no
    /// memory.
    pub fn request_for(
        &mut self,
        peer: u16,
        clock: &SoftClock,
        keys: &KeyTable,
        moment: u64,
    ) -> Octets
        requires { HasPeer self.old peer }
        ensures request { IfSome (peer_at self.old peer) (λ p.
            result ≡ request_of p.line keys.now (time_at clock.now moment)) }
        ensures asked { IfSome (peer_at self.old peer) (λ p.
            self.new ≡ slice_set self.old (peer - 1) (asked p (time_at clock.now moment))) }
        ensures packet { IfSome (peer_at self.old peer) (λ p.
            IsPacket result (request_header p.line (time_at clock.now moment))) }
        ensures short { length result ≤ MAX_REQUEST_LEN }
        ensures len { length self.new ≡ length self.old }
    {
        let transmit = clock.at(moment);
        let place = usize::from(peer) - 1;
        let request = make_request(self.list[place].line, keys, transmit);
        note_request(&mut self.list[place], transmit);
        request
    }

    /// Judges a datagram that came at the moment, by this clock, and takes it where it is a reply
    /// that tells the time (RFC 5905, sections 8 and 9.2). Takes no memory.
    ///
    /// The faults are tested in the order of `ReplyFault`. After `BadAuth`, `Kiss`,
    /// `Unsynchronised` and `TooFar` no reply is awaited any more; nothing else changes by a fault.
    pub fn take_reply(
        &mut self,
        from: &Addr,
        bytes: &[u8],
        keys: &KeyTable,
        clock: &SoftClock,
        moment: u64,
    ) -> Result<TakenReply, ReplyFault>
        ensures read { IsSome (line_for self.old from.now) → IsReadable keys.now bytes.now }
        ensures answer { (reading : Option JudgedPacket) → IsRead keys.now bytes.now reading
            → result ≡ answer_to self.old from.now reading (time_at clock.now moment) moment }
        ensures after { (reading : Option JudgedPacket) → IsRead keys.now bytes.now reading
            → self.new ≡ peers_after self.old from.now reading (time_at clock.now moment) moment }
        ensures kept { IfErr result (λ fault. ends_waiting fault ≡ false → self.new ≡ self.old) }
        ensures by { IfOk result (λ taken. line_for self.old from.now ≡ Some taken.peer) }
        ensures there { IfOk result (λ taken. HasPeer self.new taken.peer) }
        ensures len { length self.new ≡ length self.old }

        // The two faults that no association decides.
        ensures stranger { (result ≡ Err ReplyFault.NoSuchPeer)
            ↔ (line_for self.old from.now ≡ None) }
        ensures malformed { (result ≡ Err ReplyFault.Malformed)
            ↔ (IsSome (line_for self.old from.now) × IsRead keys.now bytes.now None) }
    {
        let place = self.place(from);
        if place >= self.list.len() {
            return Err(ReplyFault::NoSuchPeer);
        }
        match read_reply(&self.list[place], bytes, keys) {
            Err(fault) => Err(fault),
            Ok(reply) => self.judge_at(place, &reply, clock, moment),
        }
    }

    /// Selects, clusters and combines after a fresh reply of a peer, and gives the combined offset to
    /// the discipline where that peer is the system peer (RFC 5905, section 11). The system's new
    /// values are answered. A step of the clock has all peers forget their samples. Takes no memory.
    pub fn settle(&mut self, peer: u16, engine: &mut Loop, old: &System, moment: u64) -> System
        requires { HasPeer self.old peer }
        ensures settled { IsSettled
            (record { peers = self.old; engine = engine.old; system = old.now }) peer moment
            (record { peers = self.new; engine = engine.new; system = result }) }
        ensures len { length self.new ≡ length self.old }
    {
        settle_all(&mut self.list, peer, engine, old, moment)
    }

    /// What is published of the peers, in the order of their association numbers.
    pub fn views(&self) -> Result<PeerViews, AllocError>
        ensures { IfOk result (λ views. AreViews self.now views) }
    {
        let mut views = PeerViews::new(*self.list.allocator())?;
        self.show(&mut views);
        Ok(views)
    }

    /// Puts what is published of the peers in the place of other views. Takes no memory.
    pub fn show(&self, views: &mut PeerViews)
        ensures { AreViews self.now views.new }
    {
        view_all(&self.list, views);
    }

    /// Judges a reply for the peer at a place.
    fn judge_at(
        &mut self,
        place: usize,
        reply: &JudgedPacket,
        clock: &SoftClock,
        moment: u64,
    ) -> Result<TakenReply, ReplyFault>
        requires place { place < length self.old }
        requires leap { reply.now.header.leap ≤ 3 }
        requires proper { IfSome (slice_get self.old place) (λ p.
            early_fault_of p reply.now.header ≡ None) }
        ensures answer { IfSome (slice_get self.old place) (λ p. result
            ≡ answer_by (place + 1) (verdict_of p reply.now (time_at clock.now moment) moment)) }
        ensures after { IfSome (slice_get self.old place) (λ p. self.new
            ≡ slice_set self.old place (judged p reply.now (time_at clock.now moment) moment)) }
        ensures kept { IfErr result (λ fault. ends_waiting fault ≡ false → self.new ≡ self.old) }
        ensures decided { IfErr result IsDecided }
        ensures by { IfOk result (λ taken. taken.peer ≡ place + 1) }
        ensures len { length self.new ≡ length self.old }
    {
        let verdict = judge(&mut self.list[place], reply, clock.at(moment), moment);
        answer(place as u16 + 1, verdict)
    }
}
