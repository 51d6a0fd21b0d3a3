ghost use Rattle.std.specs.Prelude.{◌≡◌, ◌≤◌, ◌↔◌, ◌+ℤ◌, ◌*ℤ◌, pos};
ghost use Rattle.std.specs.Option.{ForSome};
ghost use Rattle.discipline.specs.Feedback.{IsAdjustment, IsIgnored, IsRefused, IsStep, answer_of, begun, change_of, ignoring, moved, seconds_between, since_after, steered, ticked, updated};
ghost use Rattle.discipline.specs.Frequency.{IsFrequency};
ghost use Rattle.discipline.specs.SoftClock.{clock_time};
ghost use Rattle.fixed_time.specs.Time.{shifted};

use crate::frequency::correct_frequency;
use crate::slew::{find_left, find_slew};
use crate::soft_clock::SoftClock;
use crate::state::State;
use crate::transitions::{Effect, Row, find_row, is_before_stepout, is_over_step, is_refused};
use fixed_time::{Span, add_span};
use std::marker::Model;

/// What an update did.
#[derive(Clone, Copy, Debug, PartialEq, Eq)]
pub enum Change {
    /// The offset was not believed, or the frequency is still being measured: the clock goes on.
    Ignored,
    /// The offset is left to correct by and by, in ticks.
    Adjusted,
    /// The clock was set by the offset.
    Stepped,
    /// The offset is over the panic threshold, and nothing changed.
    Panic,
}

/// The clock discipline loop (RFC 5905, section 11.3, figure 26): it keeps a software clock in step
/// with the offsets that it is given.
#[derive(Drop)]
pub struct Loop {
    clock: SoftClock,
    state: State,
    residual: Span,
    since: u64,
}

impl Model for Loop {
    ghost use Rattle.discipline.specs.Feedback.{LoopState};
    ghost use Rattle.discipline.specs.Frequency.{IsFrequency};

    ghost Value = { LoopState };

    ghost view = { λ l. record {
      clock = l.clock;
      state = l.state;
      residual = l.residual.0;
      since = l.since;
    } };

    ghost invariant = { λ l. IsFrequency l.clock.freq };
}

impl Loop {
    /// A loop over the clock, with no residual offset: in FSET at the frequency that an earlier run
    /// left, in units of 2^-32 and at most 500 ppm, or in NSET at 0.
    pub fn of(clock: SoftClock, freq: Option<i32>) -> Self
        requires { ForSome freq IsFrequency }
        ensures value { result ≡ begun clock freq }
        ensures bounded { IsFrequency result.clock.freq }
    {
        let (state, freq) = match freq {
            Some(freq) => (State::Fset, freq),
            None => (State::Nset, 0),
        };
        Loop {
            clock: SoftClock { freq, ..clock },
            state,
            residual: Span(0),
            since: clock.base,
        }
    }

    /// The software clock.
    pub fn clock(&self) -> SoftClock
        ensures value { result ≡ self.now.clock }
        ensures bounded { IsFrequency result.freq }
    {
        self.clock
    }

    /// The state.
    pub fn state(&self) -> State
        ensures { result ≡ self.now.state }
    {
        self.state
    }

    /// Takes the offset of the servers' time, in units of 2^-32 seconds, at the moment `now`. The
    /// poll exponent is that of the server from which it came: log2 seconds, from 4 to 17 (RFC
    /// 5905, section 7.2: MINPOLL, MAXPOLL). A moment before the last one counts as no time.
    pub fn update(&mut self, offset: Span, poll: u8, now: u64) -> Change
        requires lowest { 4 ≤ poll }
        requires highest { poll ≤ 17 }
        ensures value { self.new ≡ updated self.old offset.0 poll now }
        ensures answer { result ≡ change_of self.old offset.0 now }
        ensures panic { (result ≡ Change.Panic) ↔ IsRefused self.old offset.0 }
        ensures stepped { (result ≡ Change.Stepped) ↔ IsStep self.old offset.0 now }
        ensures adjusted { (result ≡ Change.Adjusted) ↔ IsAdjustment self.old offset.0 now }
        ensures ignored { (result ≡ Change.Ignored) ↔ IsIgnored self.old offset.0 now }

        // What each answer leaves.
        ensures unchanged { result ≡ Change.Panic → self.new ≡ self.old }
        ensures waiting { result ≡ Change.Ignored → self.new ≡ ignoring self.old now }
        ensures on_time { result ≡ Change.Adjusted
            → clock_time self.new.clock now ≡ clock_time self.old.clock now }
        ensures left { result ≡ Change.Adjusted → self.new.residual ≡ offset.0 }
        ensures set { result ≡ Change.Stepped
            → clock_time self.new.clock now ≡ shifted (clock_time self.old.clock now) offset.0 }
        ensures spent { result ≡ Change.Stepped → self.new.residual ≡ pos 0 }
        ensures bounded { IsFrequency self.new.clock.freq }
    {
        self.take(offset, poll, now)
    }

    /// Does what the table says of an offset, or nothing where it is refused.
    fn take(&mut self, offset: Span, poll: u8, now: u64) -> Change
        requires { poll ≤ 17 }
        ensures value { self.new ≡ updated self.old offset.0 poll now }
        ensures answer { result ≡ change_of self.old offset.0 now }
        ensures bounded { IsFrequency self.new.clock.freq }
    {
        if is_refused(self.state, offset) {
            return Change::Panic;
        }
        let early = is_before_stepout(self.since, now);
        let row = find_row(self.state, is_over_step(offset), early);
        self.apply(row, offset, poll, now)
    }

    /// Does what a row says.
    fn apply(&mut self, row: Row, offset: Span, poll: u8, now: u64) -> Change
        requires { poll ≤ 17 }
        ensures value { self.new ≡ moved row.time row self.old offset.0 poll now }
        ensures answer { result ≡ answer_of row.time }
        ensures bounded { IsFrequency self.new.clock.freq }
    {
        match row.time {
            Effect::Kept => {
                self.wait(row.next, now);
                Change::Ignored
            }
            Effect::Adjusted => {
                self.clock = self.steer(row, offset, poll, now);
                self.residual = offset;
                self.state = row.next;
                self.since = now;
                Change::Adjusted
            }
            Effect::Stepped => {
                self.clock = step(self.steer(row, offset, poll, now), offset);
                self.residual = Span(0);
                self.state = row.next;
                self.since = now;
                Change::Stepped
            }
        }
    }

    /// Goes to a state without a word to the clock.
    fn wait(&mut self, next: State, now: u64)
        ensures state { self.new.state ≡ next }
        ensures since { self.new.since ≡ since_after self.old now }
        ensures clock { self.new.clock ≡ self.old.clock }
        ensures residual { self.new.residual ≡ self.old.residual }
        ensures bounded { IsFrequency self.new.clock.freq }
    {
        if self.state == State::Sync {
            self.since = now;
        }
        self.state = next;
    }

    /// The clock as it counts on from now, at the frequency that the row gives it.
    fn steer(&self, row: Row, offset: Span, poll: u8, now: u64) -> SoftClock
        requires { poll ≤ 17 }
        ensures value { result ≡ steered row self.now offset.0 poll now }
        ensures bounded { IsFrequency result.freq }
    {
        let seconds = count_seconds(self.since, now);
        let freq = correct_frequency(row.freq, self.clock.freq, offset, seconds, poll);
        SoftClock {
            freq,
            ..self.clock.rebase(now)
        }
    }

    /// Puts a sixteenth of the residual offset into the clock's slew at the moment `now` (RFC 5905,
    /// section 12). It is to be called every 64 seconds, since for so long a slew acts.
    pub fn tick(&mut self, now: u64)
        ensures value { self.new ≡ ticked self.old now }
        ensures on_time { clock_time self.new.clock now ≡ clock_time self.old.clock now }
        ensures spent { self.old.residual
            ≡ self.new.residual +ℤ (pos 64 *ℤ self.new.clock.slew) }
        ensures gentle { IsFrequency self.new.clock.slew }
        ensures bounded { IsFrequency self.new.clock.freq }
    {
        self.clock = SoftClock {
            slew: find_slew(self.residual),
            ..self.clock.rebase(now)
        };
        self.residual = find_left(self.residual);
    }
}

/// The whole seconds from one moment to another.
fn count_seconds(since: u64, now: u64) -> u32
    ensures { result ≡ seconds_between since now }
{
    (now.saturating_sub(since) >> 32) as u32
}

/// The clock, set by the offset.
fn step(clock: SoftClock, offset: Span) -> SoftClock
    ensures { result ≡ record clock { ntp = record { 0 = shifted clock.ntp.0 offset.0 } } }
{
    SoftClock {
        ntp: add_span(clock.ntp, offset),
        ..clock
    }
}

#[cfg(test)]
mod tests {
    use super::*;
    use crate::frequency::MAX_FREQUENCY;
    use fixed_time::Ntp64;

    const SECOND: u64 = 1 << 32;

    const EARLY: u64 = (900 << 32) - 1;

    const LATE: u64 = 900 << 32;

    const SMALL: i64 = 549_755_813;

    const LARGE: i64 = 549_755_814;

    const PANIC: i64 = (1000 << 32) + 1;

    const CLOCK: SoftClock = SoftClock {
        base: 0,
        ntp: Ntp64(SECOND),
        freq: 0,
        slew: 5,
    };

    fn in_state(state: State, freq: i32) -> Loop
        requires { IsFrequency freq }
    {
        Loop {
            clock: SoftClock { freq, ..CLOCK },
            state,
            residual: Span(0),
            since: 0,
        }
    }

    #[test]
    fn each_row_of_the_table(rt: HostRuntime) {
        let cases = [
            (State::Nset, SMALL, EARLY, Change::Adjusted, State::Freq),
            (State::Nset, LARGE, EARLY, Change::Stepped, State::Freq),
            (State::Fset, SMALL, EARLY, Change::Adjusted, State::Sync),
            (State::Fset, LARGE, EARLY, Change::Stepped, State::Sync),
            (State::Spik, SMALL, EARLY, Change::Adjusted, State::Sync),
            (State::Spik, LARGE, EARLY, Change::Ignored, State::Spik),
            (State::Spik, -LARGE, LATE, Change::Stepped, State::Sync),
            (State::Freq, SMALL, EARLY, Change::Ignored, State::Freq),
            (State::Freq, LARGE, EARLY, Change::Ignored, State::Freq),
            (State::Freq, SMALL, LATE, Change::Adjusted, State::Sync),
            (State::Freq, LARGE, LATE, Change::Stepped, State::Sync),
            (State::Sync, -SMALL, EARLY, Change::Adjusted, State::Sync),
            (State::Sync, -LARGE, EARLY, Change::Ignored, State::Spik),
            (State::Sync, LARGE, LATE, Change::Stepped, State::Sync),
            // An offset over the panic threshold is a step in NSET alone.
            (State::Nset, i64::MIN, EARLY, Change::Stepped, State::Freq),
            (State::Fset, PANIC - 1, EARLY, Change::Stepped, State::Sync),
            (State::Fset, PANIC, EARLY, Change::Panic, State::Fset),
            (State::Sync, -PANIC, LATE, Change::Panic, State::Sync),
        ];
        for (state, offset, now, change, next) in cases {
            let mut discipline = in_state(state, 0);
            let answer = discipline.update(Span(offset), 6, now);
            assert_eq!(rt; answer, change, "{state:?}, {offset}, {now}");
            assert_eq!(rt; discipline.state(), next, "{state:?}, {offset}, {now}");
        }
    }

    // 549,755,813 * 64 / 2^24 is 2097; a sixteenth of it is 34,359,738, and a 64th of that 536,870.
    #[test]
    fn an_adjustment_and_its_tick(rt: HostRuntime) {
        let mut discipline = in_state(State::Sync, 100);
        let now = 64 * SECOND;
        assert_eq!(rt; discipline.update(Span(SMALL), 6, now), Change::Adjusted);
        assert_eq!(rt; discipline.clock().freq, 2197);
        assert_eq!(rt; discipline.clock().slew, 0);
        assert_eq!(rt; discipline.residual, Span(SMALL));

        discipline.tick(now + SECOND);
        assert_eq!(rt; discipline.clock().slew, 536_870);
        assert_eq!(rt; discipline.clock().base, now + SECOND);
        assert_eq!(rt; discipline.residual, Span(515_396_133));
    }

    #[test]
    fn a_spike_is_believed_after_900_seconds(rt: HostRuntime) {
        let mut discipline = in_state(State::Sync, 0);
        let spike = 64 * SECOND;
        let cases = [
            (spike, Change::Ignored, State::Spik),
            (spike + EARLY, Change::Ignored, State::Spik),
            (spike + LATE, Change::Stepped, State::Sync),
        ];
        for (now, change, state) in cases {
            let answer = discipline.update(Span(LARGE), 6, now);
            assert_eq!(rt; answer, change, "at {now}");
            assert_eq!(rt; discipline.state(), state, "at {now}");
        }
        // 549,755,814 by 900 seconds is 610,839; the clock had 1 + 964 seconds, a slew of 5 for 64.
        assert_eq!(rt; discipline.clock().freq, 610_839);
        assert_eq!(rt;
            discipline.clock().ntp,
            Ntp64(965 * SECOND + 320 + 549_755_814)
        );
        assert_eq!(rt; discipline.residual, Span(0));
    }

    #[test]
    fn the_frequency_stays_within_500_ppm(rt: HostRuntime) {
        let cases = [
            (2_147_483, 900 << 32, MAX_FREQUENCY),
            (-2_147_483, 900 << 32, MAX_FREQUENCY),
            (2_147_483, -(900 << 32), -MAX_FREQUENCY),
            (2_147_000, 434_700, 2_147_483),
            (2_147_000, -434_700, 2_146_517),
            (-2_147_483, -899, -2_147_483),
        ];
        for (freq, offset, expected) in cases {
            let mut discipline = in_state(State::Freq, freq);
            let _change = discipline.update(Span(offset), 4, LATE);
            assert_eq!(rt; discipline.clock().freq, expected, "{freq}, {offset}");
        }
    }

    #[test]
    fn a_loop_begins_with_what_is_known(rt: HostRuntime) {
        let clock = SoftClock { freq: 77, ..CLOCK };
        let unknown = Loop::of(clock, None);
        assert_eq!(rt; unknown.state(), State::Nset);
        assert_eq!(rt; unknown.clock(), CLOCK);

        let known = Loop::of(clock, Some(-2_147_483));
        assert_eq!(rt; known.state(), State::Fset);
        assert_eq!(rt; known.clock().freq, -2_147_483);
    }

    #[test]
    fn nothing_overflows_at_the_ends(rt: HostRuntime) {
        let mut discipline = in_state(State::Nset, 0);
        discipline.residual = Span(i64::MIN);
        discipline.tick(u64::MAX);
        assert_eq!(rt; discipline.clock().slew, -2_147_483);
        assert_eq!(rt; discipline.residual, Span(i64::MIN + 137_438_912));

        // A moment before the last one counts as no time.
        assert_eq!(rt; discipline.update(Span(i64::MIN), 17, 0), Change::Stepped);
        assert_eq!(rt;
            discipline.update(Span(SMALL), 17, u64::MAX),
            Change::Adjusted
        );
        assert_eq!(rt; discipline.update(Span(-SMALL), 4, 0), Change::Adjusted);
        discipline.residual = Span(i64::MAX);
        discipline.tick(0);
        assert_eq!(rt; discipline.residual, Span(i64::MAX - 137_438_912));
    }
}
