ghost use Rattle.std.specs.Prelude.{◌≡◌, ◌≤◌, ℕ, List, length, take};
ghost use Rattle.mac_keys.specs.declared.keys.TheConstants.{MAX_SECRET};

use std::marker::Model;

/// The lowest id of a key in a key file; 0 is none.
pub const MIN_KEY_ID: u32 = 1;

/// The highest id of a key in a key file.
pub const MAX_KEY_ID: u32 = 65_535;

/// The most octets of a secret.
pub const MAX_SECRET: usize = 64;

/// The most octets of a secret that a key file has as it is.
pub const MAX_PLAIN_SECRET: usize = 20;

/// The fewest hexadecimal digits of a secret in a key file, two an octet.
pub const MIN_HEX_DIGITS: usize = 22;

/// The most hexadecimal digits of a secret in a key file.
pub const MAX_HEX_DIGITS: usize = 2 * MAX_SECRET;

/// A hash function: MD5 (RFC 1321), SHA-1 or SHA-256 (FIPS 180-4).
#[derive(Clone, Copy, Debug, PartialEq, Eq)]
pub enum Algorithm {
    Md5,
    Sha1,
    Sha256,
}

/// The octets of a secret, 1 to `MAX_SECRET` of them, kept in place.
#[derive(Drop)]
pub struct Secret {
    kept: [u8; MAX_SECRET],
    used: usize,
}

impl Model for Secret {
    ghost use Rattle.std.specs.Prelude.{◌≤◌, ℕ, List, take};
    ghost use Rattle.mac_keys.specs.declared.keys.TheConstants.{MAX_SECRET};

    ghost Value = { List ℕ };

    ghost view = { λ s. take s.used s.kept };

    ghost invariant = { λ s. (1 ≤ s.used) × (s.used ≤ MAX_SECRET) };
}

impl Secret {
    /// The secret of these octets.
    pub fn of(octets: &[u8]) -> Secret
        requires some { 1 ≤ length octets.now }
        requires at_most { length octets.now ≤ MAX_SECRET }
        ensures { result ≡ octets.now }
    {
        let mut kept = [0; MAX_SECRET];
        kept[..octets.len()].copy_from_slice(octets);
        Secret {
            kept,
            used: octets.len(),
        }
    }

    /// The octets, first to last.
    pub fn as_slice(&self) -> &[u8]
        ensures same { result.now ≡ self.now }
        ensures some { 1 ≤ length self.now }
        ensures at_most { length self.now ≤ MAX_SECRET }
    {
        &self.kept[..self.used]
    }
}

/// A key: its id, `MIN_KEY_ID` to `MAX_KEY_ID` in a key file, the hash function that its digests use, and its secret.
#[derive(Drop)]
pub struct Key {
    pub id: u32,
    pub algorithm: Algorithm,
    pub secret: Secret,
}
