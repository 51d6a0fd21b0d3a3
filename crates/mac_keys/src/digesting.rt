ghost use Rattle.std.specs.Prelude.{◌≡◌, ◌++◌, take};
ghost use Rattle.md5.specs.Md5.{md5};
ghost use Rattle.sha1.specs.Sha1.{sha1};
ghost use Rattle.sha2.specs.Sha256.{sha256};
ghost use Rattle.mac_keys.specs.Digests.{digest_of};

use crate::digests::Digest;
use crate::keys::{Algorithm, Key};
use md5::{Digest as Md5Hasher, Md5};
use sha1::Sha1;
use sha2::{Digest as Sha2Hasher, Sha256};

/// The digest of the key's secret followed by the message: 16 octets for MD5, 20 for SHA-1, and the
/// first 20 of SHA-256, since a MAC has 24, 20 or 4 octets (RFC 7822, section 1), and its key id 4.
pub fn digest(key: &Key, message: &[u8]) -> Digest
    ensures { result ≡ digest_of key.now message.now }
{
    let secret = key.secret.as_slice();
    match key.algorithm {
        Algorithm::Md5 => Digest::of_16(&md5_of(secret, message)),
        Algorithm::Sha1 => Digest::of_20(&sha1_of(secret, message)),
        Algorithm::Sha256 => Digest::of_20(&sha256_of(secret, message)[..20]),
    }
}

fn md5_of(secret: &[u8], message: &[u8]) -> [u8; 16]
    ensures { result ≡ md5 (secret.now ++ message.now) }
{
    let mut hasher = Md5::new();
    hasher.update(secret);
    hasher.update(message);
    hasher.finalize()
}

fn sha1_of(secret: &[u8], message: &[u8]) -> [u8; 20]
    ensures { result ≡ sha1 (secret.now ++ message.now) }
{
    let mut hasher = Sha1::new();
    hasher.update(secret);
    hasher.update(message);
    hasher.finalize()
}

fn sha256_of(secret: &[u8], message: &[u8]) -> [u8; 32]
    ensures { result ≡ sha256 (secret.now ++ message.now) }
{
    let mut hasher = Sha256::new();
    hasher.update(secret);
    hasher.update(message);
    hasher.finalize()
}

#[cfg(test)]
mod tests {
    use super::*;
    use crate::keys::Secret;

    // RFC 1321, appendix A.5, and the examples of FIPS 180-4: each message cut into secret and message.
    #[test]
    fn digests_of_the_standards_are_met(rt: HostRuntime) {
        let cases = [
            (
                Algorithm::Md5,
                b"a".as_slice(),
                b"".as_slice(),
                [
                    0x0c, 0xc1, 0x75, 0xb9, 0xc0, 0xf1, 0xb6, 0xa8, 0x31, 0xc3, 0x99, 0xe2, 0x69,
                    0x77, 0x26, 0x61,
                ]
                .as_slice(),
            ),
            (
                Algorithm::Md5,
                b"a".as_slice(),
                b"bc".as_slice(),
                [
                    0x90, 0x01, 0x50, 0x98, 0x3c, 0xd2, 0x4f, 0xb0, 0xd6, 0x96, 0x3f, 0x7d, 0x28,
                    0xe1, 0x7f, 0x72,
                ]
                .as_slice(),
            ),
            (
                Algorithm::Md5,
                b"message".as_slice(),
                b" digest".as_slice(),
                [
                    0xf9, 0x6b, 0x69, 0x7d, 0x7c, 0xb7, 0x93, 0x8d, 0x52, 0x5a, 0x2f, 0x31, 0xaa,
                    0xf1, 0x61, 0xd0,
                ]
                .as_slice(),
            ),
            (
                Algorithm::Md5,
                b"12345678901234567890".as_slice(),
                b"123456789012345678901234567890123456789012345678901234567890".as_slice(),
                [
                    0x57, 0xed, 0xf4, 0xa2, 0x2b, 0xe3, 0xc9, 0x55, 0xac, 0x49, 0xda, 0x2e, 0x21,
                    0x07, 0xb6, 0x7a,
                ]
                .as_slice(),
            ),
            (
                Algorithm::Sha1,
                b"ab".as_slice(),
                b"c".as_slice(),
                [
                    0xa9, 0x99, 0x3e, 0x36, 0x47, 0x06, 0x81, 0x6a, 0xba, 0x3e, 0x25, 0x71, 0x78,
                    0x50, 0xc2, 0x6c, 0x9c, 0xd0, 0xd8, 0x9d,
                ]
                .as_slice(),
            ),
            (
                Algorithm::Sha1,
                b"abcdbcde".as_slice(),
                b"cdefdefgefghfghighijhijkijkljklmklmnlmnomnopnopq".as_slice(),
                [
                    0x84, 0x98, 0x3e, 0x44, 0x1c, 0x3b, 0xd2, 0x6e, 0xba, 0xae, 0x4a, 0xa1, 0xf9,
                    0x51, 0x29, 0xe5, 0xe5, 0x46, 0x70, 0xf1,
                ]
                .as_slice(),
            ),
            (
                Algorithm::Sha256,
                b"a".as_slice(),
                b"bc".as_slice(),
                [
                    0xba, 0x78, 0x16, 0xbf, 0x8f, 0x01, 0xcf, 0xea, 0x41, 0x41, 0x40, 0xde, 0x5d,
                    0xae, 0x22, 0x23, 0xb0, 0x03, 0x61, 0xa3,
                ]
                .as_slice(),
            ),
            (
                Algorithm::Sha256,
                b"abcdbcdecdefdefgefgh".as_slice(),
                b"fghighijhijkijkljklmklmnlmnomnopnopq".as_slice(),
                [
                    0x24, 0x8d, 0x6a, 0x61, 0xd2, 0x06, 0x38, 0xb8, 0xe5, 0xc0, 0x26, 0x93, 0x0c,
                    0x3e, 0x60, 0x39, 0xa3, 0x3c, 0xe4, 0x59,
                ]
                .as_slice(),
            ),
        ];
        for (algorithm, secret, message, octets) in cases {
            let key = Key {
                id: 1,
                algorithm,
                secret: Secret::of(secret),
            };
            assert!(rt;
                digest(&key, message).as_slice() == octets,
                "{algorithm:?} {message:?}"
            );
        }
    }
}
