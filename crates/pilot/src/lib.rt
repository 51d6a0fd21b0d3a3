//! The pilot: the one thread that keeps a server's time. It asks the servers that are due, settles
//! what they reply, ticks the discipline, sweeps the client list while nothing comes, and publishes
//! each new record through the turnstile.
//!
//! Layer 5. Stands on: `shared_book`, `associations`, `wheel`, `server_core`, `sys_vars`,
//! `ntp_trailer`, `ntp_packet`, `mac_keys`, `discipline`, `access_rules`, `edge_traits`, `net_addr`,
//! `turnstile`, `fixed_time`.
//! Promises: whatever happens at its port and at its clock, a flight is a script of turns by one
//! written definition; its publications are the records of that script, in their order; a record is
//! refused at most once, and only where the server is stopped; what is left out is counted.
#![tactic(auto)]

mod asking;
mod calling;
mod deeds;
mod flight;
mod hearing;
mod helm;
pub mod laws;
mod pilot;
mod receiving;
mod recording;
mod steering;

pub use flight::FlightEnd;
pub use pilot::Pilot;
pub use steering::{Basis, Steering, TICK, TICK_KEY};
