//! A link by a plan: a server and a query tool in one process, with no network between them.
//!
//! Layer 7. Stands on: `server_core`, `sys_vars`, `mac_keys`, `edge_traits`, `net_addr`.
//! Promises: what is given at a link is served by its server as the plan says, and what is taken is
//! what the server answered, in the order that the plan made of it.
#![tactic(auto)]

mod answering;
pub mod deed;
pub mod fate;
pub mod link;
pub mod queued;
mod serving;

pub use deed::{Deed, Ops, Plan};
pub use fate::{Fate, Fates};
pub use link::{Link, TICK};
pub use queued::Queued;
