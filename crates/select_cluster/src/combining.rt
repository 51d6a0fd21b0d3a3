ghost use Rattle.std.specs.Prelude.{◌≡◌, ◌*◌, ◌-◌, ◌^◌, ◌<◌, ◌≤◌, ◌*ℤ◌, ◌≤ℤ◌, Contains, FitsSigned, length, neg_ℤ, pos, sum_by};
ghost use Rattle.std.specs.Int.{w128};
ghost use Rattle.fixed_time.specs.declared.apart.TheConstants.{CAP};
ghost use Rattle.select_cluster.specs.Combining.{combined_jitter, combined_offset, system_peer, weight_of, weighted};

use crate::candidates::{Candidate, MAX_CANDIDATES};
use crate::clustering::{Survivors, sum_squares};
use fixed_time::{Span, isqrt};

/// What the survivors make of their offsets: one offset, and how far theirs are from the first, in
/// 32.32 seconds, with the number of the system peer.
#[derive(Clone, Copy, Debug, PartialEq, Eq)]
pub struct Combined {
    pub offset: Span,
    pub jitter: u64,
    pub system: u16,
}

/// How much a survivor weighs: 2^48 over its distance, at least 1.
fn weigh(candidate: Candidate) -> u64
    ensures value { result ≡ weight_of candidate }
    ensures some { 0 < result }
    ensures most { result ≤ 2 ^ 48 }
{
    ((1 << 48) / candidate.distance.max(1)).max(1)
}

/// The offset of a survivor as often as it weighs.
fn weigh_offset(candidate: Candidate) -> i128
    ensures value { result ≡ pos (weight_of candidate) *ℤ candidate.offset.0 }
    ensures low { neg_ℤ (pos (weight_of candidate * 2 ^ 63)) ≤ℤ result }
    ensures high { result ≤ℤ pos (weight_of candidate * (2 ^ 63 - 1)) }
    ensures light { weight_of candidate ≤ 2 ^ 48 }
    ensures fits { FitsSigned w128 result }
{
    i128::from(weigh(candidate)) * i128::from(candidate.offset.0)
}

/// The sum of the weights.
fn sum_weights(candidates: &[Candidate]) -> u64
    requires { length candidates.now ≤ MAX_CANDIDATES }
    ensures value { result ≡ sum_by weight_of candidates.now }
    ensures some { 0 < length candidates.now → 0 < result }
    ensures most { result ≤ 2 ^ 53 }
{
    let mut weights = 0;
    for candidate in candidates {
        weights += weigh(*candidate);
    }
    weights
}

/// The sum of the offsets, each as often as its survivor weighs: 32 stay within 128 bits.
fn sum_offsets(candidates: &[Candidate]) -> i128
    requires { length candidates.now ≤ MAX_CANDIDATES }
    ensures value { result ≡ weighted candidates.now }
    ensures low { neg_ℤ (pos (sum_by weight_of candidates.now * 2 ^ 63)) ≤ℤ result }
    ensures high { result ≤ℤ pos (sum_by weight_of candidates.now * (2 ^ 63 - 1)) }
    ensures fits { FitsSigned w128 result }
{
    let mut total = 0;
    for candidate in candidates {
        total += weigh_offset(*candidate);
    }
    total
}

/// The offsets' mean by weight, toward zero.
fn mean_offset(candidates: &[Candidate]) -> Span
    requires some { 0 < length candidates.now }
    requires few { length candidates.now ≤ MAX_CANDIDATES }
    ensures { result.0 ≡ combined_offset candidates.now }
{
    Span((sum_offsets(candidates) / i128::from(sum_weights(candidates))) as i64)
}

/// The root of the mean square of how far the offsets are from the first.
fn mean_jitter(candidates: &[Candidate]) -> u64
    requires some { 0 < length candidates.now }
    requires few { length candidates.now ≤ MAX_CANDIDATES }
    ensures value { result ≡ combined_jitter candidates.now }
    ensures capped { result ≤ CAP }
{
    isqrt(sum_squares(candidates[0].offset, candidates) / candidates.len() as u128)
}

/// Combines the offsets of the survivors, of which there has to be one.
pub fn combine(survivors: &Survivors) -> Combined
    requires { 0 < length survivors.now }
    ensures offset { result.offset.0 ≡ combined_offset survivors.now }
    ensures jitter { result.jitter ≡ combined_jitter survivors.now }
    ensures system { result.system ≡ system_peer survivors.now }
    ensures capped { result.jitter ≤ CAP }
    ensures member { (first : Candidate) × Contains survivors.now first
        × (first.peer ≡ result.system) }
{
    let one = survivors.as_slice();
    Combined {
        offset: mean_offset(one),
        jitter: mean_jitter(one),
        system: one[0].peer,
    }
}

#[cfg(test)]
mod tests {
    use super::*;
    use crate::clustering::cluster;
    use crate::selection::Interval;

    const EVERYWHERE: Interval = Interval {
        lo: -(1 << 65),
        hi: 1 << 65,
        false_count: 0,
    };

    fn candidate(peer: u16, offset: i64, distance: u64, jitter: u64) -> Candidate {
        Candidate {
            peer,
            stratum: 2,
            offset: Span(offset),
            distance,
            jitter,
        }
    }

    fn combined(offset: i64, jitter: u64, system: u16) -> Combined {
        Combined {
            offset: Span(offset),
            jitter,
            system,
        }
    }

    #[test]
    fn a_survivor_weighs_more_the_nearer_it_is(rt: HostRuntime) {
        let cases = [
            (
                [candidate(1, 1000, 4096, 1), candidate(2, 4000, 8192, 1)],
                combined(2000, 2121, 1),
                "half the weight at twice the distance",
            ),
            (
                [candidate(1, -7, 1, 1), candidate(2, -2, 3, 1)],
                combined(-5, 3, 1),
                "a mean of -5.75, toward zero",
            ),
            (
                [
                    candidate(1, i64::MIN, u64::MAX, 1),
                    candidate(2, i64::MIN, u64::MAX, 1),
                ],
                combined(i64::MIN, 0, 1),
                "the ends of the types",
            ),
        ];
        for (c, expected, case) in cases {
            let survivors = cluster(&c, &EVERYWHERE);
            assert!(rt; survivors.len() == 2, "{case}");
            assert_eq!(rt; combine(&survivors), expected, "{case}");
        }
    }

    // The values were computed by an independent program.
    #[test]
    fn outliers_are_taken_out_before(rt: HostRuntime) {
        let far = [
            candidate(1, 0, 9, 9),
            candidate(2, 10, 8, 9),
            candidate(3, 20, 7, 9),
            candidate(4, 5000, 6, 9),
        ];
        let even = [
            candidate(1, 0, 9, 9),
            candidate(2, 0, 9, 9),
            candidate(3, 100, 9, 9),
            candidate(4, 100, 9, 9),
        ];
        let loose = [
            candidate(4, 0, 9, 82),
            candidate(3, 0, 9, 90),
            candidate(2, 100, 9, 85),
            candidate(1, 100, 9, 81),
        ];
        let cases = [
            (far, 3, combined(10, 12, 3), "the far one goes"),
            (even, 3, combined(33, 57, 1), "of equals the last goes"),
            (
                loose,
                4,
                combined(50, 70, 1),
                "none is over the least jitter",
            ),
        ];
        for (c, left, expected, case) in cases {
            let survivors = cluster(&c, &EVERYWHERE);
            assert!(rt; survivors.len() == left, "{case}");
            assert_eq!(rt; combine(&survivors), expected, "{case}");
        }
    }
}
