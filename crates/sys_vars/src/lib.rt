//! What a server publishes of itself: the system's values, those of its peers and its clock, as
//! one record; and its answers to control requests for status, variables and a nonce (RFC 9327).
//!
//! Layer 4. Stands on: `access_rules`, `clock_filter`, `discipline`, `mode6_nonce`,
//! `mode6_frame`, `ntp_packet`, `edge_traits`, `net_addr`, `fixed_time`.
//! Promises: a server opens with one record, given by its values; an answer is a function of one
//! record, the request and its context, and comes unless memory is wanting; the text of each
//! variable is given by its value.
#![tactic(auto)]

pub mod answer;
pub mod answering;
pub mod asked;
pub mod context;
pub mod names;
mod number_text;
mod peer_variables;
pub mod peer_view;
pub mod peer_views;
pub mod published;
mod refid_text;
pub mod sample_text;
pub mod status;
pub mod subject;
pub mod system;
mod system_variables;
pub mod variables;

pub use answer::Answer;
pub use asked::{Asked, MAX_NAMES, NameNumbers, What};
pub use context::Context;
pub use names::{UNKNOWN_NAME, name_number};
pub use peer_view::PeerView;
pub use peer_views::{MAX_PEERS, PeerViews};
pub use published::Record;
pub use status::{peer_status, system_status};
pub use system::{PRECISION, System};
pub use variables::{VarsFault, items};
