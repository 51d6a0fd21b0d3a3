//! Nonces of control requests, by which a client shows that it gets what is sent to its address: a
//! time, and a part of a digest that only the server can make (RFC 9327, section 4, command 12).
//!
//! Layer 3. Stands on: `edge_traits`, `net_addr`, `fixed_time`.
//! Promises: a nonce is good exactly where it is the one that is made for its sender at a time that
//! lies at most 16 seconds back; no call allocates.
#![tactic(auto)]

pub mod checking;
pub mod laws;
pub mod making;

pub use checking::{LIFETIME, check};
pub use making::{NONCE_LEN, make};
