ghost use Rattle.std.specs.Prelude.{◌≡◌, ◌++◌};
ghost use Rattle.md5.specs.Md5.{md5};
ghost use Rattle.mode6_nonce.specs.Nonces.{nonce_octets, nonce_of, octets_of};

use edge_traits::Salt;
use fixed_time::Ntp64;
use md5::{Digest, Md5};
use net_addr::Ip;

/// How many octets a nonce has: 16 digits of its time, and 8 of its digest.
pub const NONCE_LEN: usize = 24;

/// The nonce that a client at this address gets at a time: its octets in lower-case hexadecimal
/// digits, 16 of the time and 8 of the digest.
pub fn make(salt: &Salt, ip: &Ip, time: Ntp64) -> [u8; NONCE_LEN]
    ensures { result ≡ nonce_of salt.now ip.now time.0 }
{
    let mut nonce = [0; NONCE_LEN];
    hex::encode_to_slice(nonce_octets(salt, ip, time), &mut nonce).unwrap();
    nonce
}

/// The time, and the first four octets of the digest.
fn nonce_octets(salt: &Salt, ip: &Ip, time: Ntp64) -> [u8; 12]
    ensures { result ≡ nonce_octets salt.now ip.now time.0 }
{
    let time = time.0.to_be_bytes();
    let digest = digest(salt, ip, &time);
    let mut octets = [0; 12];
    octets[..8].copy_from_slice(&time);
    octets[8..].copy_from_slice(&digest[..4]);
    octets
}

fn digest(salt: &Salt, ip: &Ip, time: &[u8; 8]) -> [u8; 16]
    ensures { result ≡ md5 (salt.now.0 ++ octets_of ip.now ++ time.now) }
{
    let mut hasher = Md5::new();
    hasher.update(salt.0.as_slice());
    hasher.update(octets_of(ip));
    hasher.update(time.as_slice());
    hasher.finalize()
}

fn octets_of(ip: &Ip) -> &[u8]
    ensures { result.now ≡ octets_of ip.now }
{
    match ip {
        Ip::V4(octets) => octets.as_slice(),
        Ip::V6(octets) => octets.as_slice(),
    }
}
