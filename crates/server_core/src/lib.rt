//! The sequential server: what a datagram asks for, what becomes of it, and the octets of the
//! answer. One object, the book, takes one operation after another and keeps them in a journal.
//!
//! Layer 5. Stands on: `mru_read`, `recency_links`, `recency`, `access_rules`, `sys_vars`,
//! `mru_items`, `mode6_nonce`, `mode6_frame`, `ntp_packet`, `ntp_trailer`, `mac_keys`,
//! `discipline`, `edge_traits`, `net_addr`, `turnstile`, `fixed_time`.
//! Promises: every datagram has exactly one class; whatever operations the book takes, each reply
//! and the state after it are those of one definition, and the client list has a history of
//! moves, as reads can tell; a reply has a MAC where the request has a good one, and a crypto-NAK
//! where it has a bad one.
#![tactic(auto)]

mod arriving;
pub mod book;
pub mod class;
pub mod classing;
pub mod control;
mod index;
pub mod journal;
pub mod kiss;
pub mod laws;
pub mod op;
pub mod performing;
mod read_asked;
pub mod read_reply;
mod reading;
mod refusing;
pub mod reply;
pub mod request;
pub mod responding;
pub mod response;
pub mod sharing;
pub mod step;
mod stepping;
pub mod telling;
pub mod verdict;

pub use book::Book;
pub use class::{Ask, Class, ReadAsk, Unheard};
pub use classing::classify;
pub use journal::Journal;
pub use kiss::{RATE, rate_reply, rate_reply_into};
pub use op::{MAX_ENTRIES, MAX_PUBLICATIONS, Op, Stop, Why};
pub use performing::{Answers, perform};
pub use read_reply::ReadReply;
pub use reply::{Basis, time_reply, time_reply_into};
pub use request::{Call, Request};
pub use responding::{call_of, respond, response_by, response_on, response_to, response_with};
pub use response::{Response, Silence};
pub use sharing::BookState;
pub use step::{Reply, StepFault};
pub use telling::read_grams;
pub use verdict::Verdict;
