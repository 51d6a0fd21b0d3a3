//! Selection, clustering and combining: falsetickers are cast out by the intersection of intervals,
//! outliers by their jitter, and the offsets of the survivors become one (RFC 5905, section 11.2).
//!
//! Layer 4. Stands on: `fixed_time`.
//! Promises: the interval by counting at each endpoint, the survivors by repeated removal, the
//! offset by two sums and one quotient; no call allocates.
#![tactic(auto)]

pub mod candidates;
pub mod clustering;
pub mod combining;
pub mod edges;
pub mod selection;

pub use candidates::{Candidate, MAX_CANDIDATES};
pub use clustering::{Survivors, cluster};
pub use combining::{Combined, combine};
pub use selection::{Interval, is_inside, select};
