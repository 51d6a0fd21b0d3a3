ghost use Rattle.std.specs.Prelude.{◌≡◌, ◌≤◌, IfNone, IfSome, false};
ghost use Rattle.associations.specs.Associations.{IsAssociation};
ghost use Rattle.associations.specs.Judging.{IsDecided, IsSynchronized, early_fault_of, ends_waiting, is_awaited, is_bogus, is_by_key, is_duplicate, is_kiss, is_too_far, is_unproven, is_unsynchronised, late_fault_of, refused, root_distance_of};

use crate::association::Association;
use fixed_time::{MAX_DISPERSION, Ntp64, Short, from_short};
use mac_keys::Auth;
use ntp_packet::{Header, KISS_CODE_LEN, LEAP_UNSYNCHRONIZED, MAX_SYNCHRONIZED_STRATUM};
use ntp_trailer::JudgedPacket;

/// Why a datagram is no reply that tells the time.
#[derive(Clone, Copy, Debug, PartialEq, Eq)]
pub enum ReplyFault {
    /// No line of the configuration has its sender's address and port.
    NoSuchPeer,
    /// It is no server's packet.
    Malformed,
    /// It was taken before.
    Duplicate,
    /// No request waits for it.
    Bogus,
    /// Its MAC is not good with the key of the line.
    BadAuth,
    /// It is a kiss code (RFC 5905, section 7.4), the reference identifier.
    Kiss([u8; KISS_CODE_LEN]),
    /// The server's clock is not synchronized.
    Unsynchronised,
    /// The root distance is 16 seconds or more.
    TooFar,
}

/// Whether its transmit timestamp is the last one that was taken (RFC 5905, section 8).
fn is_duplicate(of: &Association, header: &Header) -> bool
    ensures { result ≡ is_duplicate of.now header.now }
{
    header.transmit.0 != 0 && header.transmit.0 == of.transmit.0
}

/// Whether a request with this transmit timestamp waits for a reply.
fn is_awaited(pending: Option<Ntp64>, origin: Ntp64) -> bool
    ensures { result ≡ is_awaited pending origin }
{
    match pending {
        Some(transmit) => origin.0 == transmit.0,
        None => false,
    }
}

/// Whether no request waits for it (RFC 5905, section 8).
fn is_bogus(of: &Association, header: &Header) -> bool
    ensures { result ≡ is_bogus of.now header.now }
{
    !is_awaited(of.pending, header.origin)
}

/// Whether a MAC is good with the key of this id.
fn is_by_key(auth: Auth, id: u32) -> bool
    ensures { result ≡ is_by_key auth id }
{
    match auth {
        Auth::Good(by) => by == id,
        Auth::Absent | Auth::Bad => false,
    }
}

/// Whether the line names a key, and the MAC is not good with it.
fn is_unproven(of: &Association, reply: &JudgedPacket) -> bool
    ensures { result ≡ is_unproven of.now reply.now }
{
    of.line.key != 0 && !is_by_key(reply.auth, of.line.key)
}

/// Whether it is a kiss code (RFC 5905, section 7.4).
fn is_kiss(reply: &JudgedPacket) -> bool
    ensures { result ≡ is_kiss reply.now }
{
    reply.header.stratum == 0
}

/// Whether the server's clock is not synchronized.
fn is_unsynchronised(reply: &JudgedPacket) -> bool
    ensures { result ≡ is_unsynchronised reply.now }
{
    reply.header.leap == LEAP_UNSYNCHRONIZED || MAX_SYNCHRONIZED_STRATUM < reply.header.stratum
}

/// Half the root delay and the root dispersion, in 32.32 seconds.
fn root_distance(delay: Short, disp: Short) -> u64
    ensures { result ≡ root_distance_of delay disp }
{
    from_short(delay) / 2 + from_short(disp)
}

/// Whether the root distance is 16 seconds or more.
fn is_too_far(reply: &JudgedPacket) -> bool
    ensures { result ≡ is_too_far reply.now }
{
    root_distance(reply.header.root_delay, reply.header.root_disp) >= MAX_DISPERSION
}

/// The first fault of a reply that its header decides before its MAC is looked at.
pub(crate) fn early_fault(of: &Association, header: &Header) -> Option<ReplyFault>
    ensures { result ≡ early_fault_of of.now header.now }
{
    if is_duplicate(of, header) {
        Some(ReplyFault::Duplicate)
    } else if is_bogus(of, header) {
        Some(ReplyFault::Bogus)
    } else {
        None
    }
}

/// The first fault of a reply that has no early one.
pub(crate) fn late_fault(of: &Association, reply: &JudgedPacket) -> Option<ReplyFault>
    ensures value { result ≡ late_fault_of of.now reply.now }
    ensures decided { IfSome result IsDecided }
    ensures synchronized { IfNone result (reply.now.header.leap ≤ 3 → IsSynchronized reply.now) }
{
    if is_unproven(of, reply) {
        Some(ReplyFault::BadAuth)
    } else if is_kiss(reply) {
        Some(ReplyFault::Kiss(reply.header.refid))
    } else if is_unsynchronised(reply) {
        Some(ReplyFault::Unsynchronised)
    } else if is_too_far(reply) {
        Some(ReplyFault::TooFar)
    } else {
        None
    }
}

/// Whether no request waits any more after this fault: the awaited server may have sent the reply.
fn ends_waiting(fault: ReplyFault) -> bool
    ensures { result ≡ ends_waiting fault }
{
    match fault {
        ReplyFault::NoSuchPeer
        | ReplyFault::Malformed
        | ReplyFault::Duplicate
        | ReplyFault::Bogus => false,
        ReplyFault::BadAuth
        | ReplyFault::Kiss(_)
        | ReplyFault::Unsynchronised
        | ReplyFault::TooFar => true,
    }
}

/// Refuses a reply for this fault.
pub(crate) fn refuse(of: &mut Association, fault: ReplyFault)
    ensures value { of.new ≡ refused fault of.old }
    ensures kept { ends_waiting fault ≡ false → of.new ≡ of.old }
    ensures sound { IsAssociation of.old → IsAssociation of.new }
{
    if ends_waiting(fault) {
        of.pending = None;
    }
}
