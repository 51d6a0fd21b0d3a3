ghost use Rattle.std.specs.Prelude.{◌≡◌};
ghost use Rattle.sys_vars.specs.Contexts.{time_of};

use edge_traits::Salt;
use fixed_time::{Ntp64, add_raw};

/// What an answer needs to know beside the record: of the server, and of the moment.
#[derive(Clone, Copy)]
pub struct Context {
    /// The server's secret.
    pub salt: Salt,
    /// The time at which the server's clocks begin.
    pub origin: Ntp64,
    /// When the request came, in units of 2^-32 seconds after the origin.
    pub moment: u64,
}

impl Context {
    /// When the request came, as a timestamp.
    pub fn time(&self) -> Ntp64
        ensures { result.0 ≡ time_of self.now }
    {
        add_raw(self.origin, self.moment)
    }
}
