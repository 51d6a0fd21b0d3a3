//! What the tests share: a server that has just begun, and what a port finds.
ghost use Rattle.std.specs.Prelude.{◌≡◌, ◌^◌, [], IfSome, IsSome};
ghost use Rattle.acceptance_threads.specs.declared.shared.TheConstants.{ORIGIN};

use edge_traits::{Incoming, MAX_OCTETS, Octets, Salt};
use fixed_time::Ntp64;
use mac_keys::KeyTable;
use net_addr::{Addr, Ip};
use recency::Limits;
use server_core::Book;
use shared_book::Common;
use std::alloc::Global;
use sys_vars::Record;
use turnstile::{Seat, Turnstile};

/// A second, in 32.32.
pub const SECOND: u64 = 1 << 32;

/// 1 January 1970 (RFC 5905, figure 4).
pub const ORIGIN: Ntp64 = Ntp64(0x83aa_7e80_0000_0000);

/// A client.
pub const CLIENT: Addr = Addr {
    ip: Ip::V4([10, 0, 0, 1]),
    port: 40000,
};

/// What the parts of the server know.
pub fn common(alloc: Global) -> Common
    ensures { result.origin ≡ ORIGIN }
{
    Common {
        keys: KeyTable::new(alloc),
        salt: Salt([0; 16]),
        origin: ORIGIN,
    }
}

/// A server that has just begun.
pub fn begun(alloc: Global) -> Option<Book>
    ensures journal { IfSome result (λ book. book.journal ≡ []) }
    ensures origin { IfSome result (λ book. book.state.origin ≡ ORIGIN) }
{
    let record = Record::opening(alloc, ORIGIN).ok()?;
    Book::begin(alloc, record, Limits::plain(), ORIGIN).ok()
}

/// The same behind its turnstile, and its first seat.
pub fn opened(alloc: Global) -> Option<(Turnstile<Book>, Seat<Book>)>
    ensures door { IfSome result (λ opened. opened.1.door ≡ opened.0) }
    ensures opening { IfSome result (λ opened. IsSome opened.1.opening) }
    ensures share { IfSome result (λ opened. opened.1.share ≡ 2 ^ 32) }
{
    Turnstile::begin(alloc, begun(alloc)?).ok()
}

/// These octets, as many as there is room for.
fn octets_of(bytes: &[u8]) -> Octets {
    let mut octets = Octets::new();
    for byte in bytes {
        if octets.len() < MAX_OCTETS {
            octets.push(*byte);
        }
    }
    octets
}

/// What a port finds: these octets, from this address.
pub fn datagram(from: &Addr, bytes: &[u8]) -> Incoming {
    Incoming::Datagram(*from, octets_of(bytes))
}
