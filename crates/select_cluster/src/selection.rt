ghost use Rattle.std.specs.Prelude.{◌≡◌, ℕ, ℤ, ◌+◌, ◌-◌, ◌*◌, ◌<◌, ◌≤◌, IfNone, IfSome, length};
ghost use Rattle.select_cluster.specs.Edges.{AreSortedEnds};
ghost use Rattle.select_cluster.specs.Selecting.{IsAccepted, IsAgreed, IsGreatestAgreed, IsLeastAgreed, IsSelected, inside, outside};

use crate::candidates::{Candidate, MAX_CANDIDATES};
use crate::edges::{End, first_meeting, last_meeting, lower, sorted_ends};

/// An interval of offsets that most candidates agree on, both ends in it, in 32.32 seconds, and
/// how many falsetickers were taken for it.
#[derive(Clone, Copy, Debug, PartialEq, Eq)]
pub struct Interval {
    pub lo: i128,
    pub hi: i128,
    pub false_count: u32,
}

/// Whether the candidate's offset is inside.
pub fn is_inside(candidate: Candidate, interval: Interval) -> bool
    ensures { result ≡ inside interval.lo interval.hi candidate }
{
    let offset = i128::from(candidate.offset.0);
    interval.lo <= offset && offset <= interval.hi
}

/// How many offsets are outside.
fn count_outside(candidates: &[Candidate], interval: Interval) -> usize
    ensures { result ≡ outside interval.lo interval.hi candidates.now }
{
    let mut count = 0;
    for candidate in candidates {
        if !is_inside(*candidate, interval) {
            count += 1;
        }
    }
    count
}

/// The least and the greatest endpoint that all but `f` intervals have in them.
fn find_agreed(
    candidates: &[Candidate],
    lows: &[u128],
    highs: &[u128],
    false_count: usize,
) -> Option<Interval>
    requires few { length candidates.now ≤ MAX_CANDIDATES }
    requires minority { 2 * false_count < length candidates.now }
    requires low_ends { AreSortedEnds End.Low candidates.now lows.now }
    requires high_ends { AreSortedEnds End.High candidates.now highs.now }
    ensures found { IfSome result (λ i. (i.false_count ≡ false_count)
        × IsLeastAgreed candidates.now (length candidates.now - false_count) i.lo
        × IsGreatestAgreed candidates.now (length candidates.now - false_count) i.hi) }
    ensures none { IfNone result ((x : ℤ)
        → ¬ IsAgreed candidates.now (length candidates.now - false_count) x) }
{
    let gap = candidates.len() - false_count - 1;
    match first_meeting(lows, highs, gap, false_count) {
        None => None,
        Some(first) => {
            let last = last_meeting(lows, highs, gap, false_count, first);
            Some(Interval {
                lo: lower(lows[first + gap]),
                hi: lower(highs[last]),
                false_count: false_count as u32,
            })
        }
    }
}

/// The interval with `f` falsetickers, where that number is accepted.
fn accept(
    candidates: &[Candidate],
    lows: &[u128],
    highs: &[u128],
    false_count: usize,
) -> Option<Interval>
    requires few { length candidates.now ≤ MAX_CANDIDATES }
    requires minority { 2 * false_count < length candidates.now }
    requires low_ends { AreSortedEnds End.Low candidates.now lows.now }
    requires high_ends { AreSortedEnds End.High candidates.now highs.now }
    ensures found { IfSome result (λ i. (i.false_count ≡ false_count)
        × IsAccepted candidates.now false_count i.lo i.hi) }
    ensures none { IfNone result ((lo hi : ℤ) → ¬ IsAccepted candidates.now false_count lo hi) }
{
    match find_agreed(candidates, lows, highs, false_count) {
        None => None,
        Some(i) => {
            if count_outside(candidates, i) <= false_count {
                Some(i)
            } else {
                None
            }
        }
    }
}

/// The interval with the least number of falsetickers that is accepted: None exactly where none is.
pub fn select(candidates: &[Candidate]) -> Option<Interval>
    requires { length candidates.now ≤ MAX_CANDIDATES }
    ensures selected { IfSome result (λ i. IsSelected candidates.now i) }
    ensures none { IfNone result ((f : ℕ) (lo hi : ℤ) → ¬ IsAccepted candidates.now f lo hi) }
{
    let lows = sorted_ends(candidates, End::Low);
    let highs = sorted_ends(candidates, End::High);
    for f in 0..candidates.len().div_ceil(2) {
        if let Some(i) = accept(candidates, &lows, &highs, f) {
            return Some(i);
        }
    }
    None
}

#[cfg(test)]
mod tests {
    use super::*;
    use fixed_time::Span;

    fn candidate(offset: i64, distance: u64) -> Candidate {
        Candidate {
            peer: 1,
            stratum: 2,
            offset: Span(offset),
            distance,
            jitter: 1,
        }
    }

    fn interval(lo: i128, hi: i128, false_count: u32) -> Option<Interval> {
        Some(Interval {
            lo,
            hi,
            false_count,
        })
    }

    #[test]
    fn an_empty_list_and_one_candidate(rt: HostRuntime) {
        assert_eq!(rt; select(&[]), None);
        assert_eq!(rt; select(&[candidate(10, 5)]), interval(5, 15, 0));
    }

    #[test]
    fn two_have_to_agree_whole(rt: HostRuntime) {
        let cases = [
            (
                [candidate(0, 10), candidate(10, 10)],
                interval(0, 10, 0),
                "each offset in both",
            ),
            ([candidate(0, 1), candidate(100, 1)], None, "apart"),
            (
                [candidate(1, 1), candidate(3, 1)],
                None,
                "touching, the offsets outside",
            ),
            (
                [candidate(i64::MIN, u64::MAX), candidate(i64::MAX, u64::MAX)],
                interval(i128::from(i64::MIN), i128::from(i64::MAX), 0),
                "the ends of all types",
            ),
        ];
        for (c, expected, case) in cases {
            assert_eq!(rt; select(&c), expected, "{case}");
        }
    }

    // Of three, one may be a falseticker.
    #[test]
    fn three_may_have_one_falseticker(rt: HostRuntime) {
        let cases = [
            (
                [candidate(1, 1), candidate(2, 1), candidate(3, 1)],
                interval(1, 3, 1),
                "the middle place of all leaves two offsets outside",
            ),
            (
                [candidate(0, 1), candidate(100, 1), candidate(200, 1)],
                None,
                "none agrees",
            ),
        ];
        for (c, expected, case) in cases {
            assert_eq!(rt; select(&c), expected, "{case}");
        }
    }

    #[test]
    fn a_falseticker_stands_at_either_side(rt: HostRuntime) {
        let cases = [
            (
                [candidate(-1000, 1), candidate(0, 5), candidate(1, 5)],
                interval(-4, 5, 1),
                "a falseticker below",
            ),
            (
                [candidate(0, 5), candidate(1, 5), candidate(1000, 1)],
                interval(-4, 5, 1),
                "a falseticker above",
            ),
        ];
        for (c, expected, case) in cases {
            assert_eq!(rt; select(&c), expected, "{case}");
        }
    }

    #[test]
    fn both_ends_are_in_an_interval(rt: HostRuntime) {
        let cases = [
            (
                [candidate(4, 0), candidate(4, 4), candidate(8, 4)],
                interval(4, 8, 1),
                "intervals that end where others begin",
            ),
            (
                [
                    candidate(i64::MIN, 0),
                    candidate(i64::MIN, 0),
                    candidate(i64::MAX, 0),
                ],
                interval(i128::from(i64::MIN), i128::from(i64::MIN), 1),
                "intervals of one place",
            ),
        ];
        for (c, expected, case) in cases {
            assert_eq!(rt; select(&c), expected, "{case}");
        }
    }

    #[test]
    fn falsetickers_at_both_sides(rt: HostRuntime) {
        let c = [
            candidate(-1000, 1),
            candidate(0, 5),
            candidate(1, 5),
            candidate(2, 5),
            candidate(1000, 1),
        ];
        assert_eq!(rt; select(&c), interval(-3, 5, 2));
    }

    #[test]
    fn fewer_than_half_of_32_may_be_false(rt: HostRuntime) {
        let mut c = [candidate(0, 1); 32];
        for i in 17..32 {
            c[i] = candidate(1000, 1);
        }
        assert_eq!(rt; select(&c), interval(-1, 1, 15));
        c[16] = candidate(1000, 1);
        assert_eq!(rt; select(&c), None);
    }
}
