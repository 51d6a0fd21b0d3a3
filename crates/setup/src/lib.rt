//! What a server's configuration asks of its host: files are read, ports bound, and the first session
//! of the server is made.
//!
//! Layer 5. Stands on: `responders`, `worker`, `pilot`, `shared_book`, `server_core`, `associations`,
//! `sys_vars`, `conf_file`, `access_rules`, `discipline`, `mac_keys`, `mode6_frame`, `edge_traits`,
//! `net_addr`, `refusals`, `fixed_time`.
//! Promises: the first session is that of the configuration, with its keys, at ports of its addresses,
//! where nothing happened yet; a file that is refused is refused at its first refused word, and each
//! other fault has its cause.
#![tactic(auto)]

mod files;
mod listening;
mod opening;
mod setting_up;

pub use files::{MAX_FILE, SetupFault};
pub use listening::UPSTREAM;
pub use setting_up::set_up;
