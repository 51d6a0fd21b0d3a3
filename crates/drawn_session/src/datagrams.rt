ghost use Rattle.std.specs.Prelude.{◌≡◌, ◌<◌, [], ◌∷◌, ◌++◌, IfOk, OnOk};
ghost use Rattle.std.specs.List.{AllByRecursion, filter};
ghost use Rattle.drawn_session.specs.Datagrams.{IsDrawn, control_octets, cut_octets, datagram_at, datagrams_for, is_for, kind_of, octets_of, request_octets, state_behind, state_behind_one};
ghost use Rattle.drawn_session.specs.declared.datagrams.TheConstants.{DATAGRAMS};

use draws::{CLIENTS, Draws, client_addr};
use edge_traits::Octets;
use std::alloc::{AllocError, Global};

/// How many datagrams are drawn.
pub const DATAGRAMS: u64 = 4_096;

/// How many workers there are.
pub const WORKERS: u64 = 2;

/// One datagram of so many is cut short, and one is a control request.
pub const KINDS: u64 = 16;

/// The transmit timestamp of the request that is cut short: the beginning of 1970 (RFC 5905, figure 4).
pub const CUT_TRANSMIT: u64 = 0x83aa_7e80_0000_0000;

/// What a datagram is.
#[derive(Clone, Copy, Debug, PartialEq, Eq)]
pub enum Kind {
    /// A request for the time without its last octet.
    Cut,
    /// A control request for the variable `stratum`.
    Control,
    /// A request for the time.
    Time,
}

/// A datagram that is drawn: its number, counted from 0, the number of its client, and what it is.
#[derive(Clone, Copy, Debug, PartialEq, Eq)]
pub struct DrawnDatagram {
    pub number: u64,
    pub client: u64,
    pub kind: Kind,
}

/// The next datagram, which has this number.
fn next_datagram(draws: &mut Draws, number: u64) -> DrawnDatagram
    requires { number < DATAGRAMS }
    ensures datagram { result ≡ datagram_at number draws.old }
    ensures drawn { IsDrawn result }
    ensures state { draws.new ≡ state_behind_one draws.old }
{
    let client = draws.below(CLIENTS);
    let kind = kind_of(draws.below(KINDS));
    DrawnDatagram {
        number,
        client,
        kind,
    }
}

/// What the datagram is for which this number is drawn.
fn kind_of(number: u64) -> Kind
    ensures { result ≡ kind_of number }
{
    match number {
        0 => Kind::Cut,
        1 => Kind::Control,
        _ => Kind::Time,
    }
}

/// Whether a datagram goes to this host.
fn is_for(host: u16, datagram: &DrawnDatagram) -> bool
    ensures { result ≡ is_for host datagram.now }
{
    datagram.client % WORKERS == u64::from(host)
}

/// Appends a datagram where it goes to this host.
fn push_for(
    datagrams: &mut Vec<DrawnDatagram>,
    host: u16,
    datagram: DrawnDatagram,
) -> Result<(), AllocError>
    ensures { OnOk result (datagrams.new.items
        ≡ datagrams.old.items ++ filter (is_for host) (datagram ∷ [])) }
{
    if is_for(host, &datagram) {
        datagrams.push(datagram)?;
    }
    Ok(())
}

/// The datagrams that are drawn for this host, in their order.
pub(crate) fn datagrams_for(
    alloc: Global,
    number: u64,
    host: u16,
) -> Result<Vec<DrawnDatagram>, AllocError>
    ensures datagrams { IfOk result (λ datagrams. datagrams.items ≡ datagrams_for number host) }
    ensures drawn { IfOk result (λ datagrams. AllByRecursion IsDrawn datagrams.items) }
{
    let mut datagrams = Vec::new(alloc);
    let mut draws = Draws::of(number);
    for place in 0..DATAGRAMS {
        let datagram = next_datagram(&mut draws, place);
        push_for(&mut datagrams, host, datagram)?;
    }
    Ok(datagrams)
}

/// The draws that are left after all datagrams were drawn from this number.
pub fn draws_left(number: u64) -> Draws
    ensures { result ≡ state_behind DATAGRAMS number }
{
    let mut draws = Draws::of(number);
    for place in 0..DATAGRAMS {
        let _datagram = next_datagram(&mut draws, place);
    }
    draws
}

/// The octets of a datagram.
pub(crate) fn octets_of(datagram: &DrawnDatagram) -> Octets
    requires { datagram.now.number < DATAGRAMS }
    ensures { result ≡ octets_of datagram.now }
{
    match datagram.kind {
        Kind::Cut => cut_octets(),
        Kind::Control => control_octets(datagram.number as u16),
        Kind::Time => request_octets(datagram.number),
    }
}

/// A request for the time with this transmit timestamp.
fn request_octets(transmit: u64) -> Octets
    ensures { result ≡ request_octets transmit }
{
    let mut octets = Octets::new();
    octets.put(b"\x23\x00\x06\xe9");
    octets.put(&[0; 36]);
    octets.put(&transmit.to_be_bytes());
    octets
}

/// One without its last octet.
fn cut_octets() -> Octets
    ensures { result ≡ cut_octets }
{
    let whole = request_octets(CUT_TRANSMIT);
    let mut octets = Octets::new();
    octets.put(&whole.as_slice()[..47]);
    octets
}

/// A control request of this sequence for the variable `stratum`.
fn control_octets(sequence: u16) -> Octets
    ensures { result ≡ control_octets sequence }
{
    let mut octets = Octets::new();
    octets.put(b"\x16\x02");
    octets.put(&sequence.to_be_bytes());
    octets.put(b"\0\0\0\0\0\0\0\x07stratum\0");
    octets
}
