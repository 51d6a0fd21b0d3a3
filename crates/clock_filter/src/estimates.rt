ghost use Rattle.std.specs.Prelude.{◌≡◌, ◌<◌, ◌≤◌, length, max};
ghost use Rattle.clock_filter.specs.Estimates.{disp_at, dispersion_of, estimate_of, is_later, jitter_of, mean_root, spread};

use crate::samples::{STAGES, Sample};
use fixed_time::{MAX_DISPERSION, Span, isqrt, squared_apart};

/// The least jitter of an estimate, in 32.32 seconds: about one microsecond (our own rule).
pub const MIN_JITTER: u64 = 4096;

/// What a filter tells of its server: offset, delay and arrival of the sample of least delay, the
/// dispersion and the jitter over all samples; 32.32 seconds.
#[derive(Clone, Copy, Debug, PartialEq, Eq)]
pub struct Estimate {
    pub offset: Span,
    pub delay: u64,
    pub disp: u64,
    pub jitter: u64,
    pub at: u64,
}

/// The dispersion of the sample at place `i`, or 16 seconds where there is none.
fn read_disp(sorted: &[Sample], i: usize) -> u64
    ensures { result ≡ disp_at sorted.now i }
{
    if i < sorted.len() {
        sorted[i].disp
    } else {
        MAX_DISPERSION
    }
}

/// The peer dispersion of the samples by delay, least first.
fn sum_dispersions(sorted: &[Sample]) -> u64
    ensures { result ≡ dispersion_of sorted.now }
{
    read_disp(sorted, 0) / 2
        + read_disp(sorted, 1) / 4
        + read_disp(sorted, 2) / 8
        + read_disp(sorted, 3) / 16
        + read_disp(sorted, 4) / 32
        + read_disp(sorted, 5) / 64
        + read_disp(sorted, 6) / 128
        + read_disp(sorted, 7) / 256
}

/// The squares of how far the offsets are from `about`, summed up: eight stay within 128 bits.
fn sum_squares(about: Span, samples: &[Sample]) -> u128
    requires { length samples.now ≤ STAGES }
    ensures value { result ≡ spread about.0 samples.now }
{
    let mut squares: u128 = 0;
    for s in samples {
        squares += squared_apart(s.offset, about);
    }
    squares
}

/// The jitter of two or more samples by delay, about the first.
fn spread_jitter(sorted: &[Sample]) -> u64
    requires two { 2 ≤ length sorted.now }
    requires within { length sorted.now ≤ STAGES }
    ensures { result ≡ max MIN_JITTER (mean_root sorted.now) }
{
    let squares = sum_squares(sorted[0].offset, sorted);
    isqrt(squares / (sorted.len() as u128 - 1)).max(MIN_JITTER)
}

/// The jitter of the samples by delay, least first.
fn measure_jitter(sorted: &[Sample]) -> u64
    requires { length sorted.now ≤ STAGES }
    ensures { result ≡ jitter_of sorted.now }
{
    if sorted.len() < 2 {
        MIN_JITTER
    } else {
        spread_jitter(sorted)
    }
}

/// Whether a moment is later than the last one, where there was one.
fn comes_later(last: Option<u64>, at: u64) -> bool
    ensures { result ≡ is_later last at }
{
    match last {
        None => true,
        Some(last) => last < at,
    }
}

/// The estimate of samples by delay, where the first is later than the one of the last estimate.
pub(crate) fn make_estimate(last: Option<u64>, sorted: &[Sample]) -> Option<Estimate>
    requires { length sorted.now ≤ STAGES }
    ensures { result ≡ estimate_of last sorted.now }
{
    if sorted.is_empty() {
        return None;
    }
    let first = sorted[0];
    if !comes_later(last, first.at) {
        return None;
    }
    Some(Estimate {
        offset: first.offset,
        delay: first.delay,
        disp: sum_dispersions(sorted),
        jitter: measure_jitter(sorted),
        at: first.at,
    })
}
