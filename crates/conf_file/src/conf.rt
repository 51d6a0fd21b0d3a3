ghost use Rattle.std.specs.Option.{ForSome};
ghost use Rattle.discipline.specs.Frequency.{IsFrequency};

use crate::lists::{Addrs, ServerLines};
use access_rules::{Rate, Rules};
use edge_traits::Name;
use recency::Limits;

/// The configuration of a server.
#[derive(Drop)]
pub struct Conf {
    /// Where it listens.
    pub listen: Addrs,
    /// The upstream servers that it asks.
    pub servers: ServerLines,
    pub rules: Rules,
    pub rate: Rate,
    pub limits: Limits,
    /// The name of the key file.
    pub keys: Option<Name>,
    /// The stratum at which it serves its own clock, 1 to 15.
    pub local: Option<u8>,
    /// The frequency with which its clock begins, in 2^-32 of the rate: at most 500 ppm either way.
    pub freq: Option<i32>,
    pub ghost bounded: { ForSome freq IsFrequency },
}
