//! The outside: in memory, which follows its list, and real, over the system.

mod file_source;
mod memory_host;
mod memory_port;
mod octets;
mod real_host;
mod sink;
mod source;
mod standard_output;
mod udp_any;
mod udp_port;
mod uptime;
