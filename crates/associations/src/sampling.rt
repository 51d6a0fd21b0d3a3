ghost use Rattle.std.specs.Prelude.{◌≡◌, ◌^◌, ◌-◌, ◌≤ℤ◌, int_div, neg_ℤ, pos};
ghost use Rattle.associations.specs.Samples.{dispersion_by, held_delay, lead_by, resolution_of, round_trip_by, sample_by, waited_for};

use clock_filter::Sample;
use fixed_time::{Ntp64, PHI, Span, diff, drift};
use ntp_packet::Header;

/// The precision of our clock in 32.32 seconds, as a sample has it: 2^-20 seconds (our own rule).
pub const RESOLUTION: u64 = 4096;

/// The longest delay of a sample, in 32.32 seconds (our own rule).
pub const MAX_DELAY: u64 = 1 << 62;

/// How far the server's clock is ahead, summed over both ways (RFC 5905, section 8).
fn find_lead(header: &Header, destination: Ntp64) -> i128
    ensures value { result ≡ lead_by header.now destination }
    ensures least { neg_ℤ (pos (2 ^ 64)) ≤ℤ result }
    ensures most { result ≤ℤ pos (2 ^ 64 - 2) }
{
    let there = diff(header.receive, header.origin);
    let back = diff(header.transmit, destination);
    i128::from(there.0) + i128::from(back.0)
}

/// Half of that, toward zero.
fn halve(lead: i128) -> Span
    requires least { neg_ℤ (pos (2 ^ 64)) ≤ℤ lead }
    requires most { lead ≤ℤ pos (2 ^ 64 - 2) }
    ensures { result.0 ≡ int_div lead (pos 2) }
{
    Span((lead / 2) as i64)
}

/// The round trip without the time that the reply took inside the server (RFC 5905, section 8).
fn find_round_trip(header: &Header, destination: Ntp64) -> i128
    ensures { result ≡ round_trip_by header.now destination }
{
    let outside = diff(destination, header.origin);
    let inside = diff(header.transmit, header.receive);
    i128::from(outside.0) - i128::from(inside.0)
}

/// A delay within the bounds of a sample's.
fn hold_delay(delay: i128) -> u64
    ensures { result ≡ held_delay delay }
{
    delay.clamp(i128::from(RESOLUTION), i128::from(MAX_DELAY)) as u64
}

/// The precision of the server's clock in 32.32 seconds: a second at most, and a unit at least.
fn find_resolution(header: &Header) -> u64
    ensures { result ≡ resolution_of header.now.precision }
{
    let places = header.precision.clamp(-32, 0).unsigned_abs();
    1 << (32 - u32::from(places))
}

/// For how long the reply was waited for: no time where the clock was set back meanwhile.
fn find_waiting(header: &Header, destination: Ntp64) -> u64
    ensures { result ≡ waited_for header.now destination }
{
    diff(destination, header.origin).0.max(0) as u64
}

/// Both precisions, and how far our clock may have drifted since the request.
fn find_dispersion(header: &Header, destination: Ntp64) -> u64
    ensures { result ≡ dispersion_by header.now destination }
{
    find_resolution(header) + RESOLUTION + drift(find_waiting(header, destination), PHI)
}

/// The sample of a reply that came at the moment, when our clock showed the destination timestamp.
#[tactic(auto, unfolding(crate::specs::Samples::sample_by))]
pub(crate) fn measure(header: &Header, destination: Ntp64, moment: u64) -> Sample
    ensures { result ≡ sample_by header.now destination moment }
{
    Sample {
        offset: halve(find_lead(header, destination)),
        delay: hold_delay(find_round_trip(header, destination)),
        disp: find_dispersion(header, destination),
        at: moment,
    }
}
