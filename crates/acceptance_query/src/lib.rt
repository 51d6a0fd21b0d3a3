//! Acceptance tests of the query tool's crates: requests and answers over ports in memory, and
//! listings over a link to a server in the same process. It has no functions of its own.
//!
//! Layer 7. Stands on: `planned_link`, `ntpq_report`, `mrulist_run`, `mrulist_reader`, `ntpq_client`,
//! `server_core`, `sys_vars`, `recency`, `mac_keys`, `mru_items`, `mode6_frame`, `edge_traits`,
//! `net_addr`, `fixed_time`.
//! Promises: nothing beyond that its tests pass.
#![tactic(auto)]

#[cfg(test)]
mod asking;
#[cfg(test)]
mod linked;
#[cfg(test)]
mod listing;
#[cfg(test)]
mod reports;
