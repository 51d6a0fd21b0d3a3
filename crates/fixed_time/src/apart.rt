ghost use Rattle.std.specs.Prelude.{◌≡◌, ◌≤◌, ◌^◌};
ghost use Rattle.fixed_time.specs.Apart.{squared_apart_of};

use crate::time::Span;

/// The longest distance of two offsets that counts, in units of 2^-32 seconds: about eight years.
pub const CAP: u64 = 1 << 60;

/// The square of how far two offsets are apart, at most that of `CAP`: so many squares can be added
/// up in 128 bits. The jitters of RFC 5905, sections 10 and 11.2, are roots of such sums.
pub fn squared_apart(a: Span, b: Span) -> u128
    ensures value { result ≡ squared_apart_of a.0 b.0 }
    ensures bound { result ≤ 2 ^ 120 }
{
    let apart = u128::from(a.0.abs_diff(b.0).min(CAP));
    apart * apart
}

#[cfg(test)]
mod tests {
    use super::*;

    #[test]
    fn squares_end_at_that_of_the_cap(rt: HostRuntime) {
        let cases = [
            (Span(1000), Span(4000), 9_000_000),
            (Span(4000), Span(1000), 9_000_000),
            (Span(-1), Span(1), 4),
            (Span(i64::MIN), Span(i64::MAX), 1 << 120),
            (Span(1 << 60), Span(0), 1 << 120),
        ];
        for (a, b, square) in cases {
            assert_eq!(rt; squared_apart(a, b), square, "{a:?} and {b:?}");
        }
    }
}
