//! Acceptance tests of the client lists: the linked one answers as the plain one, however many rows
//! it has. It has no functions of its own.
//!
//! Layer 7. Stands on: `recency_links`, `recency`, `access_rules`, `net_addr`.
//! Promises: nothing beyond that its tests pass.
#![tactic(auto)]

#[cfg(test)]
mod tests;
