//! The reports of the query tool, as texts: the variables of an association, the associations of a
//! server with their status words, a line for each peer, and the clients of a listing.
//!
//! Layer 6. Stands on: `mrulist_reader`, `mru_items`, `mode6_frame`, `edge_traits`, `text_words`,
//! `net_addr`, `fixed_time`.
//! Promises: each report is the text that its definition says; an answer from which there is none
//! is refused exactly; want of memory leaves no part of a report.
#![tactic(auto)]

pub mod association_report;
pub mod associations;
pub mod clients;
mod columns;
pub mod faults;
mod fields;
mod peer_variables;
pub mod peers;
pub mod variables;

pub use association_report::as_report;
pub use associations::{AssociationStatus, Associations, read_associations};
pub use clients::mru_report;
pub use edge_traits::Text;
pub use faults::ReportFault;
pub use peers::{peer_line, peers_header};
pub use variables::rv_report;
