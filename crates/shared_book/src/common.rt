ghost use Rattle.std.specs.Prelude.{◌≡◌};
ghost use Rattle.shared_book.specs.Contexts.{context_at};

use edge_traits::Salt;
use fixed_time::Ntp64;
use mac_keys::KeyTable;
use sys_vars::Context;

/// What the parts of a server know in common.
#[derive(Drop)]
pub struct Common {
    /// The keys of the MACs that it takes and makes.
    pub keys: KeyTable,
    /// The server's secret.
    pub salt: Salt,
    /// The time at which its clocks begin.
    pub origin: Ntp64,
}

/// What an answer needs to know beside the server, of a datagram that came at this moment.
pub fn context_at(common: &Common, came: u64) -> Context
    ensures { result ≡ context_at common.now came }
{
    Context {
        origin: common.origin,
        moment: came,
        salt: common.salt,
    }
}
