use crate::pair::Pairs;

/// The most rows that a page may be limited to (our own rule, after NTPsec).
pub const MAX_LIMIT: u32 = 256;

/// The most datagrams that a page may have (our own rule, after NTPsec).
pub const MAX_FRAGS: u32 = 128;

/// Which clients a listing shows.
#[derive(Clone, Copy, Debug, PartialEq, Eq)]
pub struct MruFilter {
    /// Those that arrived so often at least: 1 or more.
    pub mincount: u32,
    /// Those that have all of these restrict flags.
    pub resall: u16,
    /// Those that have one of these restrict flags, or all clients where it is 0.
    pub resany: u16,
}

/// What a listing asks for, page after page.
#[derive(Clone, Copy, Debug, PartialEq, Eq)]
pub struct Query {
    pub filter: MruFilter,
    /// The most rows of a page, 1 to 256, or as many as its datagrams hold.
    pub limit: Option<u32>,
    /// The most datagrams of a page, 1 to 128.
    pub frags: u32,
}

/// A read of the client list: what it asks for, and the clients behind one of which it goes on.
#[derive(Drop)]
pub struct ReadRequest {
    pub filter: MruFilter,
    /// The most rows of a page, 1 to 256, or as many as its datagrams hold.
    pub limit: Option<u32>,
    /// The most datagrams of a page, 1 to 128.
    pub frags: u32,
    /// The page goes on behind the first of these that stands in the list. Where none is named it
    /// begins with the oldest client.
    pub pairs: Pairs,
}
