ghost use Rattle.std.specs.Prelude.{◌≡◌, ◌<◌, ◌≤◌, ◌^◌, ◌≤ℤ◌, ◌+ℤ◌, neg_ℤ, pos};
ghost use Rattle.discipline.specs.Frequency.{IsFrequency, adjusting_gain, frequency_after, held, stepping_gain};

use crate::transitions::Effect;
use fixed_time::Span;

/// The greatest frequency either way: 500 parts per million, in units of 2^-32 (RFC 5905, section
/// 11.3 and appendix A: MAXFREQ).
pub const MAX_FREQUENCY: i32 = 2_147_483;

/// A power of two.
fn power(exponent: u8) -> u64
    requires { exponent < 64 }
    ensures value { result ≡ 2 ^ exponent }
    ensures some { 0 < result }
{
    2u64.pow(u32::from(exponent))
}

/// What adjusting adds to the frequency.
fn find_adjusting_gain(offset: Span, seconds: u32, poll: u8) -> i128
    requires { poll ≤ 17 }
    ensures value { result ≡ adjusting_gain offset.0 seconds poll }
    ensures low { neg_ℤ (pos (2 ^ 95)) ≤ℤ result }
    ensures high { result ≤ℤ pos (2 ^ 95) }
{
    let interval = u64::from(seconds).min(power(poll));
    i128::from(offset.0) * i128::from(interval) / i128::from(power(12 + 2 * poll))
}

/// What stepping adds to the frequency.
fn find_stepping_gain(offset: Span, seconds: u32) -> i128
    ensures value { result ≡ stepping_gain offset.0 seconds }
    ensures low { neg_ℤ (pos (2 ^ 63)) ≤ℤ result }
    ensures high { result ≤ℤ pos (2 ^ 63) }
{
    i128::from(offset.0) / i128::from(seconds.max(1))
}

/// A number held within the bounds of a frequency.
fn hold(freq: i128) -> i32
    ensures value { result ≡ held freq }
    ensures bounded { IsFrequency result }
{
    freq.clamp(-i128::from(MAX_FREQUENCY), i128::from(MAX_FREQUENCY)) as i32
}

/// The frequency after an update: it stays, or something is added to it and the sum is held within
/// its bounds.
pub(crate) fn correct_frequency(
    effect: Effect,
    freq: i32,
    offset: Span,
    seconds: u32,
    poll: u8,
) -> i32
    requires bounded { IsFrequency freq }
    requires poll { poll ≤ 17 }
    ensures value { result ≡ frequency_after effect freq offset.0 seconds poll }
    ensures bounded { IsFrequency result }
{
    match effect {
        Effect::Kept => freq,
        Effect::Adjusted => hold(i128::from(freq) + find_adjusting_gain(offset, seconds, poll)),
        Effect::Stepped => hold(i128::from(freq) + find_stepping_gain(offset, seconds)),
    }
}
