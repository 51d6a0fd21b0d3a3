//! A rehearsal: both ends of the product in one process, from one number. A session of threads is
//! served first, and then a listing is run over a link.
//!
//! Layer 7. Stands on: `drawn_session`, `drawn_link`, `draws`, `responders`, `server_core`,
//! `mrulist_run`, `mrulist_reader`, `ntpq_client`, `command_line`, `edge_traits`.
//! Promises: what is printed are the counts of the session and of the listing that it hands back; each
//! status has its cause.
#![tactic(auto)]

mod lines;
pub mod rehearsing;
#[cfg(test)]
mod tests;

pub use rehearsing::{Rehearsed, rehearse};
