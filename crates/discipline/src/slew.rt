ghost use Rattle.std.specs.Prelude.{◌≡◌, ◌≤ℤ◌, neg_ℤ};
ghost use Rattle.discipline.specs.Slew.{left_after, slew_of};

use crate::frequency::MAX_FREQUENCY;
use fixed_time::Span;

/// The most that a slew corrects in the 64 seconds that it acts, in units of 2^-32 seconds: what
/// 500 parts per million make of them.
pub const MAX_SHARE: i64 = 137_438_912;

/// The slew that corrects a part of a residual offset.
pub(crate) fn find_slew(residual: Span) -> i32
    ensures value { result ≡ slew_of residual.0 }
    ensures low { neg_ℤ MAX_FREQUENCY ≤ℤ result }
    ensures high { result ≤ℤ MAX_FREQUENCY }
{
    ((residual.0 / 16).clamp(-MAX_SHARE, MAX_SHARE) / 64) as i32
}

/// What that slew leaves of the residual offset.
pub(crate) fn find_left(residual: Span) -> Span
    ensures { result.0 ≡ left_after residual.0 }
{
    Span(residual.0 - 64 * i64::from(find_slew(residual)))
}
