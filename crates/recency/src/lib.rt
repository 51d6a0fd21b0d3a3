//! The client list, or MRU list: one row a client, oldest arrival first.
//!
//! Layer 4. Stands on: `access_rules`, `net_addr`.
//! Promises: one row a client at most; an arrival moves it to the end; a row goes by age alone.
#![tactic(auto)]

mod arriving;
pub mod laws;
pub mod limits;
pub mod list;
pub mod plain_list;
mod reading;
pub mod row;
pub mod steps;
#[cfg(test)]
mod tests;
pub mod visit;

pub use limits::{
    Limits, MAX_AGE, MAX_DEPTH, PLAIN_MAXAGE, PLAIN_MAXDEPTH, PLAIN_MINAGE, PLAIN_MINDEPTH,
};
pub use list::Recency;
pub use plain_list::PlainList;
pub use row::Row;
pub use steps::Steps;
pub use visit::{Touched, Visit};
