//! One history of a shared object: each call of any thread takes its turn by a ticket, and the object
//! makes its own step in that turn.
//!
//! Layer 1. Stands on: nothing.
//! Promises: whatever the threads do, the calls are those of one thread, in one order, which begins
//! with all that the caller had seen; no call is lost, made up or made twice; and the object comes
//! back with the journal of just these calls.
#![tactic(auto)]

mod door;
mod object;
mod rule;
mod seat;
mod seen;
mod steps;
#[cfg(test)]
mod tests;
mod was;

pub use door::{Returned, Turnstile};
pub use object::Object;
pub use seat::Seat;
