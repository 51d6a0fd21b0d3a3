//! Acceptance tests: worked datagrams, texts and faults of the outside, over the crates as they are
//! built. It has no functions of its own: a crate's tests have all of its functions proved once
//! more, so those of the great crates stand here, above them.
//!
//! Layer 7. Stands on: `server_core`, `sys_vars`, `recency`, `conf_file`, `access_rules`,
//! `clock_filter`, `mac_keys`, `mode6_frame`, `ntp_packet`, `edge_traits`, `net_addr`, `fixed_time`.
//! Promises: nothing beyond that its tests pass.
#![tactic(auto)]

#[cfg(test)]
mod configuration;
#[cfg(test)]
mod control;
#[cfg(test)]
mod outside;
#[cfg(test)]
mod published;
#[cfg(test)]
mod server;
