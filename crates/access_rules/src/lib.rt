//! Who may ask: restrict flags by prefix of address, and the rate score of a client.
//!
//! Layer 4. Stands on: `net_addr`.
//! Promises: an address has the flags of the last rule whose prefix has it; a score is exact.
#![tactic(auto)]

pub mod flags;
mod order;
pub mod rate;
pub mod rules;
pub mod servers;

pub use flags::{
    IGNORE, KOD, LIMITED, NOMODIFY, NOMRULIST, NOQUERY, NOSERVE, NOTRUST, VERSION, has_flag,
};
pub use rate::{ARRIVAL_SCORE, PLAIN_AVERAGE, PLAIN_BURST, PLAIN_SPACING, Rate, over, score};
pub use rules::{MAX_RULES, Rule, RuleFault, Rules, flags_for};
pub use servers::{MAX_POLL, MAX_SERVERS, MIN_POLL, ServerLine};
