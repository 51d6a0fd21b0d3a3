ghost use Rattle.std.specs.Prelude.{◌≡◌, ◌<◌};
ghost use Rattle.draws.specs.Clients.{client_addr};
ghost use Rattle.draws.specs.declared.clients.TheConstants.{CLIENTS};

use net_addr::{Addr, Ip};

/// How many clients there are.
pub const CLIENTS: u64 = 600;

/// The address of the client of this number, in the network 10.0.0.0/16.
pub fn client_addr(number: u64) -> Addr
    requires { number < CLIENTS }
    ensures { result ≡ client_addr number }
{
    Addr {
        ip: Ip::V4([10, 0, (number / 256) as u8, (number % 256) as u8]),
        port: 123,
    }
}
