//! Reads of the client list, or MRU list, as items of control messages: what a client asks for, and
//! what a page tells (RFC 9327, section 4, command 10; the items are those of NTPsec's `mrulist`).
//!
//! Layer 3. Stands on: `mode6_frame`, `text_words`, `edge_traits`, `net_addr`, `fixed_time`.
//! Promises: a request and an answer are read exactly where their items have the form of one, and
//! what is written is read back.
#![tactic(auto)]

pub mod answer;
pub mod answer_reading;
pub mod answer_writing;
pub mod laws;
mod lookup;
pub mod pair;
pub mod query;
pub mod query_reading;
pub mod query_writing;
mod row_reading;
pub mod shown;
mod value_reading;
mod value_text;

pub use answer::{NONCE_OCTETS, Nonce, PageAnswer};
pub use answer_reading::{AnswerFault, read_answer, read_nonce};
pub use answer_writing::answer_items;
pub use pair::{MAX_PAIRS, Pair, Pairs};
pub use query::{MAX_FRAGS, MAX_LIMIT, MruFilter, Query, ReadRequest};
pub use query_reading::{RequestFault, read_request};
pub use query_writing::{named_pairs, request_text};
pub use shown::{Shown, ShownRow};
