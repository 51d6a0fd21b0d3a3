//! Acceptance tests of a worker and of the pilot, each at a seat of one turnstile, and of whole
//! sessions. It has no functions of its own.
//!
//! Layer 7. Stands on: `responders`, `worker`, `pilot`, `shared_book`, `server_core`, `sys_vars`, `associations`,
//! `recency`, `discipline`, `access_rules`, `mac_keys`, `edge_traits`, `net_addr`, `turnstile`,
//! `fixed_time`.
//! Promises: nothing beyond that its tests pass.
#![tactic(auto)]

#[cfg(test)]
mod keeping_time;
#[cfg(test)]
mod limits;
#[cfg(test)]
mod sessions;
#[cfg(test)]
mod shared;
#[cfg(test)]
mod working;
