ghost use Rattle.std.specs.Prelude.{◌≡◌, ◌+◌, ◌*◌, ◌%◌, ◌^◌};
ghost use Rattle.fixed_time.specs.Time.{IsDiff, IsShifted, diff_of, drift_of, shifted, to_short_of};

/// An NTP timestamp: seconds since 1900 modulo 2^32, with 32 bits of fraction (RFC 5905, section 6).
#[derive(Clone, Copy, Debug, PartialEq, Eq)]
pub struct Ntp64(pub u64);

/// A short time: seconds with 16 bits of fraction (RFC 5905, section 6).
#[derive(Clone, Copy, Debug, PartialEq, Eq)]
pub struct Short(pub u32);

/// A signed difference of two timestamps, in units of 2^-32 seconds.
#[derive(Clone, Copy, Debug, PartialEq, Eq)]
pub struct Span(pub i64);

/// The frequency tolerance: how fast a clock may drift, in parts per million (RFC 5905, section 7.2:
/// TOLERANCE).
pub const PHI: u32 = 15;

/// The maximum dispersion, 16 seconds, in 32.32 (RFC 5905, section 7.2: MAXDISP).
pub const MAX_DISPERSION: u64 = 16 << 32;

/// The timestamp `n` units of 2^-32 seconds after `a`, modulo 2^64.
pub fn add_raw(a: Ntp64, n: u64) -> Ntp64
    ensures { result.0 ≡ (a.0 + n) % 2 ^ 64 }
{
    Ntp64(a.0.wrapping_add(n))
}

/// The timestamp `s` after `a`, or before it where `s` is negative, modulo 2^64.
pub fn add_span(a: Ntp64, s: Span) -> Ntp64
    ensures value { result.0 ≡ shifted a.0 s.0 }
    ensures sum { IsShifted a.0 s.0 result.0 }
{
    Ntp64(a.0.wrapping_add(s.0.cast_unsigned()))
}

/// How far `a` is after `b`: their difference modulo 2^64, taken from -2^63 to 2^63 - 1, so that
/// it is right across the end of an era (RFC 5905, section 6).
pub fn diff(a: Ntp64, b: Ntp64) -> Span
    ensures value { result.0 ≡ diff_of a.0 b.0 }
    ensures difference { IsDiff a.0 b.0 result.0 }
{
    Span(a.0.wrapping_sub(b.0).cast_signed())
}

/// The 32.32 seconds `n` as 16.16 seconds, rounded up; what is too long becomes the longest.
pub fn to_short(n: u64) -> Short
    ensures { result.0 ≡ to_short_of n }
{
    let units = n.div_ceil(1 << 16);
    Short(units.min(u64::from(u32::MAX)) as u32)
}

/// The 16.16 seconds `s` as 32.32 seconds.
pub fn from_short(s: Short) -> u64
    ensures { result ≡ s.0 * 2 ^ 16 }
{
    u64::from(s.0) << 16
}

/// How far a clock whose rate is uncertain by `ppm` millionths may drift in the 32.32 seconds `dt`:
/// rounded up, and at most the longest time.
pub fn drift(dt: u64, ppm: u32) -> u64
    ensures { result ≡ drift_of dt ppm }
{
    match dt.checked_mul(u64::from(ppm)) {
        Some(product) => product.div_ceil(1_000_000),
        None => drift_in_wide(dt, ppm),
    }
}

/// The same in 128 bits, whose quotient takes ten times as long. At `PHI` 64 bits are enough for
/// eight years.
fn drift_in_wide(dt: u64, ppm: u32) -> u64
    ensures { result ≡ drift_of dt ppm }
{
    let product = u128::from(dt) * u128::from(ppm);
    let units = product.div_ceil(1_000_000);
    units.min(u128::from(u64::MAX)) as u64
}

#[cfg(test)]
mod tests {
    use super::*;

    #[test]
    fn short_times_round_up_and_stay_at_the_longest(rt: HostRuntime) {
        assert_eq!(rt; to_short(0), Short(0));
        assert_eq!(rt; to_short(1), Short(1));
        assert_eq!(rt; to_short(16 << 32), Short(0x0010_0000));
        assert_eq!(rt; to_short(u64::MAX), Short(u32::MAX));
    }

    #[test]
    fn drift_rounds_up(rt: HostRuntime) {
        assert_eq!(rt; drift(1, 15), 1);
        // One second at 15 ppm is 64424.50944 units of 2^-32 seconds.
        assert_eq!(rt; drift(1 << 32, 15), 64425);
    }

    #[test]
    fn a_timestamp_passes_the_end_of_its_era(rt: HostRuntime) {
        assert_eq!(rt;
            add_raw(Ntp64(0xffff_ffff_8000_0000), 1 << 32),
            Ntp64(0x8000_0000)
        );
        assert_eq!(rt;
            add_span(Ntp64(0x8000_0000), Span(-1 << 32)),
            Ntp64(0xffff_ffff_8000_0000)
        );
    }

    #[test]
    fn differences_are_signed_modulo_an_era(rt: HostRuntime) {
        let cases = [
            (Ntp64(0), Ntp64(0), Span(0)),
            (
                Ntp64(0x8000_0000),
                Ntp64(0xffff_ffff_8000_0000),
                Span(1 << 32),
            ),
            (
                Ntp64(0xffff_ffff_8000_0000),
                Ntp64(0x8000_0000),
                Span(-1 << 32),
            ),
            (Ntp64((1 << 63) - 1), Ntp64(0), Span(i64::MAX)),
            (Ntp64(1 << 63), Ntp64(0), Span(i64::MIN)),
            (Ntp64(0), Ntp64(1 << 63), Span(i64::MIN)),
        ];
        for (a, b, expected) in cases {
            assert_eq!(rt; diff(a, b), expected, "{a:?} after {b:?}");
        }
    }

    // A reply over the end of an era, as RFC 5905, section 8, figure 15, computes it.
    #[test]
    fn offset_and_delay_over_the_end_of_an_era(rt: HostRuntime) {
        let origin = Ntp64(0xffff_ffff_8000_0000);
        let receive = Ntp64(0x1_0000_0000);
        let transmit = receive;
        let destination = Ntp64(0x8000_0000);

        let there = i128::from(diff(receive, origin).0);
        let back = i128::from(diff(transmit, destination).0);
        let round = i128::from(diff(destination, origin).0);
        let inside = i128::from(diff(transmit, receive).0);
        assert_eq!(rt; (there + back) / 2, 1 << 32);
        assert_eq!(rt; round - inside, 1 << 32);
    }

    #[test]
    fn short_times_widen_exactly(rt: HostRuntime) {
        assert_eq!(rt; from_short(Short(0x0001_8000)), 0x1_8000_0000);
        assert_eq!(rt; from_short(Short(u32::MAX)), 0xffff_ffff_0000);
    }
}
