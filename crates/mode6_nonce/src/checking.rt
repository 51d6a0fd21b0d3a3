ghost use Rattle.std.specs.Prelude.{◌≡◌, ◌↔◌, ◌^◌, ◌<◌, ℕ, IsTrue, IfSome, IsSomeAnd, take};
ghost use Rattle.byteorder.specs.Endian.{big_bytes};
ghost use Rattle.hex.specs.Hex.{encode_lower};
ghost use Rattle.mode6_nonce.specs.Nonces.{IsAlive, IsGood};

use crate::making::{NONCE_LEN, make};
use edge_traits::Salt;
use fixed_time::{Ntp64, diff};
use hex::FromHex;
use net_addr::Ip;

/// How long a nonce is good: 16 seconds, in units of 2^-32 seconds.
pub const LIFETIME: i64 = 16 << 32;

/// Whether a nonce is good now for a client at this address: it is what `make` gives for the time
/// that its first 16 digits name, and that time lies from 0 to 16 seconds back.
pub fn check(salt: &Salt, ip: &Ip, nonce: &[u8], now: Ntp64) -> bool
    ensures { IsTrue result ↔ IsGood salt.now ip.now nonce.now now.0 }
{
    match time_in(nonce) {
        Some(time) => is_alive(now, time) && is_same(nonce, &make(salt, ip, time)),
        None => false,
    }
}

/// Whether a nonce that was made at this time is taken now.
fn is_alive(now: Ntp64, time: Ntp64) -> bool
    ensures { IsTrue result ↔ IsAlive now.0 time.0 }
{
    let age = diff(now, time);
    0 <= age.0 && age.0 <= LIFETIME
}

/// Whether octets are those of a nonce.
fn is_same(octets: &[u8], nonce: &[u8; NONCE_LEN]) -> bool
    ensures { IsTrue result ↔ (octets.now ≡ nonce.now) }
{
    // This may take longer the more octets agree. Who sees when a response comes could have asked for
    // the nonce.
    octets == nonce.as_slice()
}

/// The time that the first 16 octets of a nonce name, if they do: as hexadecimal digits, of which the
/// letters may be of either case.
fn time_in(nonce: &[u8]) -> Option<Ntp64>
    ensures fits { IfSome result (λ time. time.0 < 2 ^ 64) }
    ensures named { (time : ℕ) → time < 2 ^ 64 → take 16 nonce.now ≡ encode_lower (big_bytes 8 time)
        → IsSomeAnd result (λ named. named.0 ≡ time) }
{
    if nonce.len() < 16 {
        return None;
    }
    match <[u8; 8]>::from_hex(&nonce[..16]) {
        Ok(octets) => Some(Ntp64(u64::from_be_bytes(octets))),
        Err(_) => None,
    }
}
