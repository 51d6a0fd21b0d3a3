//! Acceptance tests of the sample files: what the server's reader makes of them. It has no functions
//! of its own.
//!
//! Layer 7. Stands on: `conf_file`, `access_rules`, `net_addr`.
//! Promises: nothing beyond that its tests pass.
#![tactic(auto)]

#[cfg(test)]
mod tests;
