//! The run of a listing: the whole client list, or MRU list, of a server from many answers (RFC
//! 9327, section 4, commands 10 and 12).
//!
//! Layer 6. Stands on: `mrulist_coverage`, `mrulist_reader`, `ntpq_client`, `mru_read`,
//! `mru_items`, `mode6_frame`, `edge_traits`, `net_addr`.
//! Promises: what is sent and when is one definition over what happened at the port; a listing
//! that completed covers the client list last read, whatever was lost, repeated or reordered;
//! each fault has its cause.
#![tactic(auto)]

pub mod fault;
pub mod running;
pub mod statuses;

pub use fault::RunFault;
pub use mrulist_reader::Listing;
pub use running::run;
pub use statuses::{fault_status, run_status};
