use access_rules::Rate;
use net_addr::Ip;

/// One arrival of a client.
#[derive(Clone, Copy, Debug, PartialEq, Eq)]
pub struct Visit {
    /// The client.
    pub ip: Ip,
    /// The port that it came from.
    pub port: u16,
    /// The mode of its packet, and 8 times the version.
    pub mv: u8,
    /// The restrict flags of its address.
    pub flags: u16,
    /// How often it may come.
    pub rate: Rate,
}

/// What a client list made of an arrival.
#[derive(Clone, Copy, Debug, PartialEq, Eq)]
pub enum Touched {
    /// The client had a row, which is now the newest.
    Known,
    /// The client has a new row, and no row went.
    Added,
    /// The client has a new row, in place of that of this oldest client.
    Replaced(Ip),
    /// The client has no row, and the list is as it was.
    Untracked,
}
