ghost use Rattle.std.specs.Prelude.{◌≡◌, true, false};
ghost use Rattle.discipline.specs.Transitions.{goes_to, is_early, is_large, is_panic, row_of};

use crate::state::State;
use fixed_time::Span;

/// An offset over this threshold either way is large: 0.128 seconds, rounded down, in units of
/// 2^-32 seconds (RFC 5905, appendix A: STEPT).
pub const STEP_THRESHOLD: u64 = 549_755_813;

/// How long a large offset has to last before it is believed, and how long the frequency is
/// measured: the stepout threshold, 900 seconds, in 32.32 (RFC 5905, section 11.3: WATCH).
pub const STEPOUT: u64 = 900 << 32;

/// An offset over this threshold either way is refused once the time was set: 1000 seconds, in
/// units of 2^-32 seconds (RFC 5905, section 11.3: PANICT).
pub const PANIC_THRESHOLD: u64 = 1000 << 32;

/// What an update does to the frequency, or to the time.
#[derive(Clone, Copy, Debug, PartialEq, Eq)]
pub enum Effect {
    /// It stays.
    Kept,
    /// It is steered by the loop.
    Adjusted,
    /// It is set at once.
    Stepped,
}

/// What an update does: the next state, and the effects on the frequency and on the time.
#[derive(Clone, Copy, Debug, PartialEq, Eq)]
pub struct Row {
    pub next: State,
    pub freq: Effect,
    pub time: Effect,
}

/// The row of the state transition function for a state, a large offset or a small one, and an
/// update before the stepout threshold or not (RFC 5905, section 11.3, figure 28).
pub(crate) fn find_row(state: State, is_large: bool, is_early: bool) -> Row
    ensures { result ≡ row_of state is_large is_early }
{
    if is_large {
        find_large(state, is_early)
    } else {
        find_small(state, is_early)
    }
}

/// The rows of a small offset.
fn find_small(state: State, is_early: bool) -> Row
    ensures { result ≡ row_of state false is_early }
{
    match (state, is_early) {
        (State::Nset, _) => go_to(State::Freq, Effect::Kept, Effect::Adjusted),
        (State::Fset, _) => go_to(State::Sync, Effect::Kept, Effect::Adjusted),
        (State::Freq, true) => go_to(State::Freq, Effect::Kept, Effect::Kept),
        (State::Freq, false) => go_to(State::Sync, Effect::Stepped, Effect::Adjusted),
        (State::Spik | State::Sync, _) => go_to(State::Sync, Effect::Adjusted, Effect::Adjusted),
    }
}

/// The rows of a large offset.
fn find_large(state: State, is_early: bool) -> Row
    ensures { result ≡ row_of state true is_early }
{
    match (state, is_early) {
        (State::Nset, _) => go_to(State::Freq, Effect::Kept, Effect::Stepped),
        (State::Fset, _) => go_to(State::Sync, Effect::Kept, Effect::Stepped),
        (State::Freq, true) => go_to(State::Freq, Effect::Kept, Effect::Kept),
        (State::Spik | State::Sync, true) => go_to(State::Spik, Effect::Kept, Effect::Kept),
        (_, false) => go_to(State::Sync, Effect::Stepped, Effect::Stepped),
    }
}

/// A row of the table.
fn go_to(next: State, freq: Effect, time: Effect) -> Row
    ensures { result ≡ goes_to next freq time }
{
    Row { next, freq, time }
}

/// Whether an offset is over the step threshold, either way.
pub(crate) fn is_over_step(offset: Span) -> bool
    ensures { result ≡ is_large offset.0 }
{
    STEP_THRESHOLD < offset.0.unsigned_abs()
}

/// Whether an update comes before the stepout threshold.
pub(crate) fn is_before_stepout(since: u64, now: u64) -> bool
    ensures { result ≡ is_early since now }
{
    now.saturating_sub(since) < STEPOUT
}

/// Whether an offset is refused in this state.
pub(crate) fn is_refused(state: State, offset: Span) -> bool
    ensures { result ≡ is_panic state offset.0 }
{
    match state {
        State::Nset => false,
        _ => PANIC_THRESHOLD < offset.0.unsigned_abs(),
    }
}
