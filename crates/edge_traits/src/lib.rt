//! The outside of the programs, as traits: datagram ports, clocks, sources and sinks of octets,
//! gates and hosts; each in memory, which tells all that it did, and real, over the system.
//!
//! Layer 2. Stands on: `net_addr`, `fixed_time`.
//! Promises: what was taken, given, read and written is told where the object tells it, and a fault
//! comes only where the object's count of faults rose.
#![tactic(auto)]

mod calls;
pub mod clock;
pub mod file_source;
pub mod gate;
pub mod grams;
pub mod host;
pub mod memory_clock;
pub mod memory_file;
pub mod memory_host;
pub mod memory_port;
pub mod memory_sink;
pub mod memory_source;
pub mod octets;
pub mod port;
pub mod real_host;
pub mod salt;
pub mod sink;
pub mod source;
pub mod standard_output;
pub mod status;
pub mod text;
pub mod udp_any;
pub mod udp_port;
pub mod uptime;

pub use clock::Clock;
pub use file_source::FileSource;
pub use gate::{Gate, OpenGate};
pub use grams::Grams;
pub use host::{Host, HostFault};
pub use memory_clock::MemoryClock;
pub use memory_file::MemoryFile;
pub use memory_host::MemoryHost;
pub use memory_port::{Incoming, MemoryPort};
pub use memory_sink::MemorySink;
pub use memory_source::MemorySource;
pub use octets::{MAX_OCTETS, Octets};
pub use port::{Event, Port, PortFault, Taken};
pub use real_host::RealHost;
pub use salt::Salt;
pub use sink::{Sink, SinkFault, write_whole};
pub use source::{Failed, ReadFault, Source, read_whole};
pub use standard_output::StandardOutput;
pub use status::Status;
pub use text::{Name, Text};
pub use udp_any::UdpAny;
pub use udp_port::UdpPort;
pub use uptime::Uptime;
