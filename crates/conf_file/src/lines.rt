use crate::frequencies::Frequency;
use crate::list_options::ListOptions;
use crate::rate_options::RateOptions;
use crate::restrict_options::Restriction;
use crate::servers::Server;
use edge_traits::Name;
use net_addr::Addr;

/// What a line of a configuration file means.
#[derive(Drop)]
pub enum Line {
    /// A line that has no effect.
    Nothing,
    /// An address at which a worker listens.
    Listen(Addr),
    Server(Server),
    Restrict(Restriction),
    /// The rate limit.
    Limit(RateOptions),
    /// The limits of the client list, which may not fit each other.
    Mru(ListOptions),
    /// The name of the key file.
    Keys(Name),
    /// The stratum of a server that serves its own clock.
    Local(u8),
    /// The frequency of the clock.
    Frequency(Frequency),
}
