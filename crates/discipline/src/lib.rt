//! The clock discipline: the loop that steers a software clock by offsets, and that clock.
//!
//! Layer 4. Stands on: `fixed_time`.
//! Promises: each update is one row of a written table, and each tick one sum; the frequency stays
//! within 500 ppm; the clock's time at each moment is one formula; no call overflows or allocates.
#![tactic(auto)]

pub mod feedback;
pub mod frequency;
pub mod slew;
pub mod soft_clock;
pub mod state;
pub mod transitions;

pub use feedback::{Change, Loop};
pub use frequency::MAX_FREQUENCY;
pub use soft_clock::SoftClock;
pub use state::State;
pub use transitions::{PANIC_THRESHOLD, STEP_THRESHOLD, STEPOUT};
