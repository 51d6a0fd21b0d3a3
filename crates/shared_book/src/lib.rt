//! What the threads of a server share: what they know in common, and the book behind its turnstile,
//! into whose one history each enters its operations.
//!
//! Layer 5. Stands on: `server_core`, `sys_vars`, `mac_keys`, `edge_traits`, `turnstile`,
//! `fixed_time`.
//! Promises: an operation that is entered stands in the one history, at its place, and its reply is
//! the sequential server's there; one that is refused has no entry, and its cause stands in the
//! history that was seen; who meets a limit stops the server, and is told the stop that stands.
#![tactic(auto)]

mod common;
mod entering;
mod stopping;

pub use common::{Common, context_at};
pub use entering::enter;
pub use stopping::{Unentered, enter_or_stop, stop};
