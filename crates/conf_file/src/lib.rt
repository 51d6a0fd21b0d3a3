//! The configuration file of the server: its text to a value.
//!
//! Layer 4. Stands on: `recency`, `access_rules`, `discipline`, `mac_keys`, `edge_traits`, `net_addr`,
//! `refusals`, `text_words`.
//! Promises: a text is the configuration that it means, or is refused at exactly its first refused
//! word.
#![tactic(auto)]

pub mod conf;
pub mod confs;
mod drafts;
mod families;
mod frequencies;
mod kinds;
mod line_reader;
mod lines;
mod list_options;
mod listen_lines;
pub mod lists;
mod option_lines;
mod options;
mod rate_options;
mod restrict_lines;
mod restrict_options;
mod server_options;
pub mod servers;
mod short_lines;
mod tails;
mod words;

pub use conf::Conf;
pub use confs::{ConfFault, read_conf};
pub use lists::{Addrs, MAX_LISTEN, ServerLines};
pub use servers::Server;
