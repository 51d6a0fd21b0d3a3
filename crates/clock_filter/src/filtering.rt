ghost use Rattle.std.specs.Prelude.{◌≡◌};
ghost use Rattle.clock_filter.specs.Filtering.{empty_state, estimate_after, filter_after};
ghost use Rattle.clock_filter.specs.Samples.{stages_of};

use crate::estimates::{Estimate, make_estimate};
use crate::samples::{STAGES, Sample, SampleList, make_next, make_stages, sort_by_delay};
use arrayvec::ArrayVec;
use fixed_time::{PHI, drift};
use std::marker::Model;

/// The eight latest samples of a server, with the moment of the last put and when the sample of the
/// last estimate arrived.
#[derive(Drop)]
pub struct Filter {
    samples: SampleList,
    put_at: u64,
    given_at: Option<u64>,
}

impl Model for Filter {
    ghost use Rattle.clock_filter.specs.Filtering.{FilterState};

    ghost Value = { FilterState };

    ghost view = { λ f. record {
      samples = f.samples.items;
      put_at = f.put_at;
      given_at = f.given_at;
    } };
}

impl Filter {
    /// A filter without samples.
    pub fn new() -> Self
        ensures { result ≡ empty_state }
    {
        Filter {
            samples: ArrayVec::new(),
            put_at: 0,
            given_at: None,
        }
    }

    /// Takes a sample at the moment `now`: the dispersions of the others grow by the time since the
    /// last put, and the ninth sample is dropped. There is an estimate where the sample of least
    /// delay, the newest of these, arrived later than the one that gave the last estimate.
    pub fn put(&mut self, s: Sample, now: u64) -> Option<Estimate>
        ensures estimate { result ≡ estimate_after self.old s now }
        ensures after { self.new ≡ filter_after self.old s now }
    {
        let by = drift(now.saturating_sub(self.put_at), PHI);
        self.samples = make_next(s, by, &self.samples);
        self.put_at = now;
        let estimate = make_estimate(self.given_at, &sort_by_delay(&self.samples));
        if let Some(given) = estimate {
            self.given_at = Some(given.at);
        }
        estimate
    }

    /// Forgets the samples and both moments: the filter is as a new one.
    pub fn clear(&mut self)
        ensures { self.new ≡ empty_state }
    {
        self.samples = ArrayVec::new();
        self.put_at = 0;
        self.given_at = None;
    }

    /// The eight stages, newest first; a stage without a sample is None.
    pub fn stages(&self) -> [Option<Sample>; STAGES]
        ensures { result ≡ stages_of self.now.samples }
    {
        make_stages(&self.samples)
    }
}

#[cfg(test)]
mod tests {
    use super::*;
    use fixed_time::Span;

    const SECOND: u64 = 1 << 32;

    fn sample(offset: i64, delay: u64, disp: u64, at: u64) -> Sample {
        Sample {
            offset: Span(offset),
            delay,
            disp,
            at,
        }
    }

    fn estimate(offset: i64, delay: u64, disp: u64, jitter: u64, at: u64) -> Option<Estimate> {
        Some(Estimate {
            offset: Span(offset),
            delay,
            disp,
            jitter,
            at,
        })
    }

    // The values were computed by an independent program.
    #[test]
    fn the_newest_sample_of_least_delay_gives_each_estimate_once(rt: HostRuntime) {
        let cases = [
            (
                sample(1000, 8192, 8192, SECOND),
                estimate(1000, 8192, 34_091_307_008, 4096, SECOND),
            ),
            (sample(5000, 9000, 8192, 65 * SECOND), None),
            (
                sample(-40_000, 8000, 4096, 129 * SECOND),
                estimate(-40_000, 8000, 8_324_081_236, 43_046, 129 * SECOND),
            ),
            (
                sample(7, 8000, 1, 193 * SECOND),
                estimate(7, 8000, 4_029_626_776, 23_284, 193 * SECOND),
            ),
        ];
        let mut filter = Filter::new();
        for (s, expected) in cases {
            assert_eq!(rt; filter.put(s, s.at), expected, "the sample {s:?}");
        }
    }

    #[test]
    fn nothing_overflows_at_the_ends(rt: HostRuntime) {
        let mut filter = Filter::new();
        let first = filter.put(sample(i64::MIN, 5, u64::MAX, 1), 1);
        assert_eq!(rt;
            first,
            estimate(i64::MIN, 5, 9_223_372_070_946_078_719, 4096, 1)
        );
        let second = filter.put(sample(i64::MAX, 0, u64::MAX, 2), u64::MAX);
        assert_eq!(rt;
            second,
            estimate(i64::MAX, 0, 9_223_372_070_946_078_719, 1 << 60, 2)
        );
        assert_eq!(rt;
            filter.stages()[1],
            Some(sample(i64::MIN, 5, 16 * SECOND, 1))
        );
    }

    #[test]
    fn the_ninth_sample_is_dropped(rt: HostRuntime) {
        let mut filter = Filter::new();
        for i in 0..10u64 {
            let _ = filter.put(sample(0, 100 - i, 0, i + 1), i + 1);
        }
        for (i, stage) in filter.stages().into_iter().enumerate() {
            let at = stage.map_or(0, |s| s.at);
            assert_eq!(rt; at, 10 - i as u64, "stage {i}");
        }
    }

    #[test]
    fn a_cleared_filter_is_a_new_one(rt: HostRuntime) {
        let mut filter = Filter::new();
        for i in 0..9u64 {
            let _ = filter.put(sample(0, 100 - i, 0, 1000 + i), 1000 + i);
        }
        filter.clear();
        assert_eq!(rt; filter.stages(), [None; 8]);
        let again = filter.put(sample(1000, 8192, 8192, 1), 1);
        assert_eq!(rt; again, estimate(1000, 8192, 34_091_307_008, 4096, 1));
    }
}
