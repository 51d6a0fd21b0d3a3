//! The wheel: a queue of due times, one a key.
//!
//! Layer 4. Stands on: nothing.
//! Promises: the key that is taken out is the first due, by due time and then by key; a due time is
//! set without memory.
#![tactic(auto)]

pub mod due_times;

pub use due_times::Wheel;
