//! Associations: one a server of the configuration. Requests go out to it, its replies become samples
//! of the clock, and these the values of the system (RFC 5905, sections 8, 9 and 11).
//!
//! Layer 4. Stands on: `sys_vars`, `ntp_trailer`, `mode6_frame`, `ntp_packet`, `mac_keys`, `clock_filter`, `select_cluster`, `discipline`, `access_rules`, `edge_traits`, `net_addr`, `fixed_time`.
//! Promises: a reply is refused for the first fault in one written order, and by that alone; an
//! accepted one gives the written sample; candidates, selection codes and the system's new values are
//! those of one written definition; but for the first call and the views none takes memory.
#![tactic(auto)]

pub mod accepting;
pub mod asking;
pub mod association;
pub mod candidates;
pub mod choosing;
pub mod due_times;
pub mod judging;
pub mod peers;
mod reading;
pub mod sampling;
mod settling;
pub mod showing;
pub mod systems;
#[cfg(test)]
mod tests;

pub use access_rules::ServerLine;
pub use asking::MAX_REQUEST_LEN;
pub use association::Association;
pub use due_times::{NextRequest, moment_after};
pub use judging::ReplyFault;
pub use peers::{MAX_PEERS, Peers, TakenReply};
