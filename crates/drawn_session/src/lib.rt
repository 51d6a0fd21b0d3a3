//! A drawn session: two workers and the pilot of a server, each in a thread of its own, whose
//! datagrams a number draws.
//!
//! Layer 7. Stands on: `draws`, `responders`, `worker`, `pilot`, `shared_book`, `server_core`,
//! `associations`, `recency`, `access_rules`, `sys_vars`, `discipline`, `mac_keys`, `ntp_packet`,
//! `ntp_trailer`, `mode6_frame`, `edge_traits`, `net_addr`, `turnstile`, `fixed_time`.
//! Promises: whatever the threads do, the session is one history; and where it ended since nothing
//! will come any more, and memory was wanting for no datagram, the acts of its workers and the rows of
//! its client list are as many as the draws say.
#![tactic(auto)]

pub mod counts;
pub mod datagrams;
mod opening;
pub mod port;
pub mod run;

pub use counts::Counts;
pub use datagrams::{DATAGRAMS, DrawnDatagram, Kind, draws_left};
pub use port::DrawnPort;
pub use run::{SessionEnd, session_run};
