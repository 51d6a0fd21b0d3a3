//! The clock filter: of the eight latest samples of a server, the one of least delay gives an
//! estimate of the offset, with its dispersion and jitter (RFC 5905, section 10).
//!
//! Layer 4. Stands on: `fixed_time`.
//! Promises: each estimate by one written sum over the samples in order; no call allocates.
#![tactic(auto)]

pub mod estimates;
pub mod filtering;
pub mod samples;

pub use estimates::{Estimate, MIN_JITTER};
pub use filtering::Filter;
pub use samples::{STAGES, Sample};
