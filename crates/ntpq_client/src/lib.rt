//! The client of a query tool: requests to one server, and the answers to them put together from
//! the datagrams that come (RFC 9327, section 2).
//!
//! Layer 6. Stands on: `mode6_frame`, `edge_traits`, `net_addr`.
//! Promises: what is sent and when is one definition over what happened at the port; a whole answer
//! is one that the server sent to the request; each fault has its cause.
#![tactic(auto)]

pub mod asking;
pub mod client;
pub mod conversing;
pub mod fault;
pub mod news;
pub mod plan;
pub mod polling;
pub mod posting;
pub mod request;

pub use client::{Client, MAX_QUIETS, MAX_REQUESTS, MAX_UNUSED};
pub use conversing::converse;
pub use edge_traits::Text;
pub use fault::AskFault;
pub use news::News;
pub use plan::Plan;
pub use polling::Got;
pub use request::{REQUEST_VERSION, Request};
