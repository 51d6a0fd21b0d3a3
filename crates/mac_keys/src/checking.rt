ghost use Rattle.std.specs.Prelude.{◌≡◌, ◌↔◌, IsTrue};
ghost use Rattle.mac_keys.specs.Checks.{IsAuthentic, is_good};
ghost use Rattle.mac_keys.specs.Digests.{digest_of};
ghost use Rattle.mac_keys.specs.declared.checking.Auth.TheVariants.{Good, Bad};

use crate::comparing::is_same;
use crate::digesting::digest;
use crate::keys::Key;
use crate::tables::KeyTable;

/// What a message authentication code shows: there is none, it is that of the key with this id, or it
/// is bad.
#[derive(Clone, Copy, Debug, PartialEq, Eq)]
pub enum Auth {
    Absent,
    Good(u32),
    Bad,
}

impl Auth {
    /// Whether the code is that of a key.
    pub fn is_good(self) -> bool
        ensures { result ≡ is_good self }
    {
        match self {
            Auth::Good(_) => true,
            Auth::Absent | Auth::Bad => false,
        }
    }
}

/// What a digest of the message shows that was given for the key with this id: good exactly where
/// the table has the key and the digest is its own, else bad.
pub fn check(keys: &KeyTable, id: u32, message: &[u8], given: &[u8]) -> Auth
    ensures good { (result ≡ Good id) ↔ IsAuthentic keys.now id message.now given.now }
    ensures bad { (result ≡ Bad) ↔ ¬ IsAuthentic keys.now id message.now given.now }
{
    match keys.find(id) {
        Some(key) if is_authentic(key, message, given) => Auth::Good(id),
        _ => Auth::Bad,
    }
}

/// Whether a digest is that of the message under this key, for a caller who has the key at hand.
pub fn is_authentic(key: &Key, message: &[u8], given: &[u8]) -> bool
    ensures { IsTrue result ↔ (given.now ≡ digest_of key.now message.now) }
{
    is_same(digest(key, message).as_slice(), given)
}

#[cfg(test)]
mod tests {
    use super::*;
    use crate::keys::{Algorithm, Key, Secret};
    use std::test::Fail;

    // The digest of "abc" is an example of FIPS 180-4.
    #[test]
    fn only_the_whole_digest_under_a_known_key_is_good(rt: HostRuntime) -> Result<(), Fail> {
        let good = [
            0xa9, 0x99, 0x3e, 0x36, 0x47, 0x06, 0x81, 0x6a, 0xba, 0x3e, 0x25, 0x71, 0x78, 0x50,
            0xc2, 0x6c, 0x9c, 0xd0, 0xd8, 0x9d,
        ];
        let mut other_last = good;
        other_last[19] ^= 1;
        let mut keys = KeyTable::new(rt.alloc());
        keys.add(Key {
            id: 9,
            algorithm: Algorithm::Sha1,
            secret: Secret::of(b"ab"),
        })?;
        let cases = [
            (9, b"c".as_slice(), good.as_slice(), Auth::Good(9)),
            (9, b"d".as_slice(), good.as_slice(), Auth::Bad),
            (8, b"c".as_slice(), good.as_slice(), Auth::Bad),
            (9, b"c".as_slice(), other_last.as_slice(), Auth::Bad),
            (9, b"c".as_slice(), &good[..16], Auth::Bad),
            (9, b"c".as_slice(), b"".as_slice(), Auth::Bad),
        ];
        for (id, message, given, auth) in cases {
            assert_eq!(rt; check(&keys, id, message, given), auth, "{id} {message:?}");
            assert_eq!(rt; auth.is_good(), auth == Auth::Good(9));
        }
        Ok(())
    }
}
