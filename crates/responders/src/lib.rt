//! A session of the server: workers and the pilot, each in a thread of its own, on one history.
//!
//! Layer 5. Stands on: `worker`, `pilot`, `shared_book`, `server_core`, `associations`,
//! `edge_traits`, `net_addr`, `turnstile`.
//! Promises: whatever the threads do, there is one history that one thread could have made; each
//! datagram that a worker took is answered as the sequential server answers it at its place there, or
//! is carried; each request of the history is one act of one worker, and each publication is the
//! pilot's; a session ends as the stop says that stands, or where all ports are closed.
#![tactic(auto)]

mod closing;
mod jobs;
pub mod laws;
mod opening;
mod serving;
mod session;
mod workers;

pub use serving::serve_session;
pub use session::{Outcome, Session};
pub use workers::{MAX_WORKERS, Workers};
