use net_addr::Ip;

/// What a client list knows of a client. Times are stamps, in 32.32 seconds.
#[derive(Clone, Copy, Debug, PartialEq, Eq)]
pub struct Row {
    /// The client.
    pub ip: Ip,
    /// The port of its last arrival.
    pub port: u16,
    /// When it first arrived.
    pub first: u64,
    /// When it last arrived.
    pub last: u64,
    /// How many of its arrivals this row has seen. It stays at 2^32 - 1.
    pub count: u32,
    /// The mode of its last arrival, and 8 times the version.
    pub mv: u8,
    /// The restrict flags that its last arrival had.
    pub flags: u16,
    /// Its rate score at the last arrival.
    pub score: u32,
    /// When it was last told to slow down, by a RATE kiss code.
    pub told: Option<u64>,
}
