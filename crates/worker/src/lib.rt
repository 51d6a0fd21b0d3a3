//! A worker: one thread of the server, which takes datagrams at its port and answers them.
//!
//! Layer 5. Stands on: `giving`, `shared_book`, `server_core`, `sys_vars`, `turnstile`,
//! `edge_traits`, `net_addr`.
//! Promises: each datagram that it takes is that of exactly one act, with the answer that is due,
//! or is carried; each operation that it enters is its act's, a sweep of a silence or a stop that
//! has its cause; what it did adds up over turns.
#![tactic(auto)]

mod act;
mod carry;
mod desk;
mod kinds;
mod serving;
mod sweeping;
mod turn;
mod worker;
mod working;

pub use act::{Act, ActKind, MAX_ACTS, ReadKind, VerdictKind};
pub use carry::Carry;
pub use turn::Turn;
pub use worker::Worker;
pub use working::WorkEnd;
