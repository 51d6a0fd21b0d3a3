//! Fixed-point time: timestamps, short times and signed differences of NTP, in whole numbers.
//!
//! Layer 1. Stands on: nothing.
//! Promises: sums modulo 2^64, roundings, squares and roots by their exact values; no call
//! overflows or allocates.
#![tactic(auto)]

pub mod apart;
pub mod root;
pub mod time;

pub use apart::{CAP, squared_apart};
pub use root::isqrt;
pub use time::{
    MAX_DISPERSION, Ntp64, PHI, Short, Span, add_raw, add_span, diff, drift, from_short, to_short,
};
