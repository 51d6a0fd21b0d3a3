ghost use Rattle.std.specs.Prelude.{◌≡◌, ◌≤◌};
ghost use Rattle.associations.specs.Associations.{IsAssociation, asked, opened, reach_after_request, runs_empty, with_event};

use access_rules::ServerLine;
use clock_filter::{Estimate, Filter};
use fixed_time::Ntp64;
use mode6_frame::{MAX_EVENTS, NO_EVENT, REJECTED, UNREACHABLE};
use ntp_packet::{LEAP_UNSYNCHRONIZED, UNSYNCHRONIZED_STRATUM};

/// What is kept of one server: what its last accepted reply told, and what was measured (RFC 5905,
/// section 9.1). Times without another unit are in 32.32 seconds.
#[derive(Drop)]
pub struct Association {
    /// Where the server is, and how it is asked.
    pub line: ServerLine,
    /// The mode of its last accepted reply, 0 before the first.
    pub pmode: u8,
    /// The poll exponent that it told, in log2 seconds.
    pub ppoll: i8,
    /// The leap indicator: 3 says that its clock is not synchronized.
    pub leap: u8,
    /// The stratum: 16 says that its clock is not synchronized.
    pub stratum: u8,
    /// The precision of its clock, in log2 seconds.
    pub precision: i8,
    /// The delay of its round trip to the primary source.
    pub root_delay: u64,
    /// The dispersion that has grown from the primary source to it.
    pub root_disp: u64,
    /// Its reference identifier.
    pub refid: [u8; 4],
    /// When its clock was last set.
    pub reference: Ntp64,
    /// The destination timestamp of its last accepted reply.
    pub received: Ntp64,
    /// The transmit timestamp of its last accepted reply, 0 before the first.
    pub transmit: Ntp64,
    /// The transmit timestamp of the request that waits for a reply, if one does.
    pub pending: Option<Ntp64>,
    /// The reach register: a bit for each of the last eight requests, the newest in bit 0.
    pub reach: u8,
    /// Whether the MAC of its last accepted reply was good.
    pub auth_ok: bool,
    /// Its latest samples.
    pub filter: Filter,
    /// What they told last, if they did.
    pub estimate: Option<Estimate>,
    /// What the last selection made of it (RFC 9327, section 3.2, table 6).
    pub selection: u8,
    /// How many events came, at most 15.
    pub events: u8,
    /// The code of the last event.
    pub code: u8,
}

/// The association of a server that was not asked yet.
pub(crate) fn open(line: ServerLine) -> Association
    ensures value { result ≡ opened line }
    ensures sound { IsAssociation result }
{
    Association {
        line,
        pmode: 0,
        ppoll: 0,
        leap: LEAP_UNSYNCHRONIZED,
        stratum: UNSYNCHRONIZED_STRATUM,
        precision: 0,
        root_delay: 0,
        root_disp: 0,
        refid: *b"INIT",
        reference: Ntp64(0),
        received: Ntp64(0),
        transmit: Ntp64(0),
        pending: None,
        reach: 0,
        auth_ok: false,
        filter: Filter::new(),
        estimate: None,
        selection: REJECTED,
        events: 0,
        code: NO_EVENT,
    }
}

/// Counts an event and keeps its code (RFC 9327, section 3.2).
pub(crate) fn note_event(of: &mut Association, code: u8)
    ensures value { of.new ≡ with_event code of.old }
    ensures sound { code ≤ 15 → IsAssociation of.old → IsAssociation of.new }
{
    of.code = code;
    of.events = of.events.saturating_add(1).min(MAX_EVENTS);
}

/// The reach register after one more request.
fn shift(reach: u8) -> u8
    ensures { result ≡ reach_after_request reach }
{
    reach << 1
}

/// Whether the reach register becomes empty by one more request.
fn runs_empty(reach: u8) -> bool
    ensures { result ≡ runs_empty reach }
{
    reach != 0 && shift(reach) == 0
}

/// Keeps that a request went out with this transmit timestamp.
pub(crate) fn note_request(of: &mut Association, transmit: Ntp64)
    ensures value { of.new ≡ asked of.old transmit }
    ensures sound { IsAssociation of.old → IsAssociation of.new }
{
    let is_lost = runs_empty(of.reach);
    of.pending = Some(transmit);
    of.reach = shift(of.reach);
    if is_lost {
        note_event(of, UNREACHABLE);
    }
}
