ghost use Rattle.std.specs.Prelude.{◌≡◌, ◌↔◌, ◌+◌, ◌≤◌, ℕ, length, None};
ghost use Rattle.ntp_trailer.specs.Trailers.{HasTrailer};
ghost use Rattle.ntp_trailer.specs.Authentic.{IsAuth, IsAuthenticMac, IsAuthenticTrailer};

use crate::parts::{KEY_ID_LEN, Mac, Trailer};
use crate::places::{before, behind};
use mac_keys::{Auth, KeyTable, check};

/// What the MAC of these octets shows, whose trailer this is (RFC 5905, section 7.3): there is none,
/// it is that of the key with its id, or it is bad, as a key id alone always is.
pub fn auth(keys: &KeyTable, bytes: &[u8], trailer: &Trailer) -> Auth
    requires { HasTrailer bytes.now trailer.now }
    ensures shown { IsAuth keys.now bytes.now trailer.now result }
    ensures only { (other : Auth) → IsAuth keys.now bytes.now trailer.now other → result ≡ other }
{
    match trailer.mac {
        Some(mac) => auth_of(keys, bytes, mac),
        None => Auth::Absent,
    }
}

fn auth_of(keys: &KeyTable, bytes: &[u8], mac: Mac) -> Auth
    requires { mac.start + KEY_ID_LEN ≤ length bytes.now }
    ensures present { ¬ (result ≡ Auth.Absent) }
    ensures good { (id : ℕ) → ((result ≡ Auth.Good id) ↔ IsAuthenticMac keys.now bytes.now mac id) }
    ensures bad { (result ≡ Auth.Bad) ↔ ((id : ℕ) → ¬ (IsAuthenticMac keys.now bytes.now mac id)) }
{
    if mac.length <= KEY_ID_LEN {
        return Auth::Bad;
    }
    let given = behind(bytes, mac.start + KEY_ID_LEN);
    check(keys, mac.id, before(bytes, mac.start), given)
}

#[cfg(test)]
mod tests {
    use super::*;
    use crate::appending::append_mac;
    use crate::splitting::split;
    use edge_traits::Octets;
    use mac_keys::{Algorithm, Key, Secret};
    use ntp_packet::HEADER_LEN;
    use std::test::Fail;

    const HEADER: [u8; HEADER_LEN] = [
        0x23, 0x00, 0x06, 0xe9, 0x00, 0x00, 0x00, 0x00, 0x00, 0x00, 0x00, 0x00, 0x00, 0x00, 0x00,
        0x00, 0x00, 0x00, 0x00, 0x00, 0x00, 0x00, 0x00, 0x00, 0x00, 0x00, 0x00, 0x00, 0x00, 0x00,
        0x00, 0x00, 0x00, 0x00, 0x00, 0x00, 0x00, 0x00, 0x00, 0x00, 0x83, 0xaa, 0x7e, 0x80, 0x00,
        0x00, 0x00, 0x00,
    ];

    const FIELD: &[u8] = b"\x00\x02\x00\x10field of 16.";

    // The digests of "secret", the header and the field, by Python's hashlib.
    const MD5: &[u8] = b"\x76\x8a\x48\x46\xbd\x50\xba\x51\xeb\x05\xb0\xfa\xe4\x23\xe4\xba";

    const SHA1: &[u8] =
        b"\x1a\xa0\x2b\x63\xfc\x45\x77\x69\xf4\x81\x4f\xef\x26\x91\xec\xc3\x76\x1d\x18\x2c";

    const SHA1_WITH_FIELD: &[u8] =
        b"\xf2\x05\x5c\x6c\x42\x99\x7a\x4a\x30\x68\x32\xf8\x06\x21\x68\x7c\x52\x3c\xbe\xed";

    fn key_of(id: u32, algorithm: Algorithm) -> Key {
        Key {
            id,
            algorithm,
            secret: Secret::of(b"secret"),
        }
    }

    #[test]
    fn the_digest_is_of_all_octets_before_the_mac(rt: HostRuntime) -> Result<(), Fail> {
        let (md5, sha1) = (Algorithm::Md5, Algorithm::Sha1);
        let none = b"".as_slice();
        let cases = [
            ("no MAC", md5, none, none, none, Auth::Absent),
            ("zeros alone", md5, none, &[0; 4], none, Auth::Bad),
            ("a key id alone", md5, none, &[0, 0, 1, 2], none, Auth::Bad),
            ("MD5", md5, none, &[0, 0, 1, 2], MD5, Auth::Good(258)),
            ("SHA-1", sha1, none, &[0, 0, 1, 2], SHA1, Auth::Good(258)),
            (
                "SHA-1 over a field",
                sha1,
                FIELD,
                &[0, 0, 1, 2],
                SHA1_WITH_FIELD,
                Auth::Good(258),
            ),
            (
                "the header's digest behind a field",
                sha1,
                FIELD,
                &[0, 0, 1, 2],
                SHA1,
                Auth::Bad,
            ),
            ("an unknown key", md5, none, &[0, 0, 2, 1], MD5, Auth::Bad),
            ("another hash", sha1, none, &[0, 0, 1, 2], MD5, Auth::Bad),
        ];
        for (what, algorithm, field, id, digest, shown) in cases {
            let mut keys = KeyTable::new(rt.alloc());
            keys.add(key_of(258, algorithm))?;
            let mut packet = Octets::new();
            packet.put(&HEADER);
            for piece in [field, id, digest] {
                if piece.len() <= 20 && packet.len() <= 128 {
                    packet.put(piece);
                }
            }
            assert!(rt; packet.len() >= HEADER_LEN);
            match split(packet.as_slice()) {
                Ok(trailer) => {
                    assert_eq!(rt; auth(&keys, packet.as_slice(), &trailer), shown, "{what}");
                }
                Err(_) => assert!(rt; false, "{what} was refused"),
            }
        }
        Ok(())
    }

    #[test]
    fn a_mac_of_id_and_digest_is_appended(rt: HostRuntime) {
        let mut packet = Octets::new();
        packet.put(&HEADER);
        append_mac(&key_of(258, Algorithm::Sha1), &mut packet);
        assert_eq!(rt; packet.len(), 72);
        assert_eq!(rt; &packet.as_slice()[48..52], [0, 0, 1, 2].as_slice());
        assert_eq!(rt; &packet.as_slice()[52..], SHA1);
    }
}
