ghost use Rattle.std.specs.Prelude.{◌≡◌, ◌+◌, ◌≤◌, ◌++◌, ◌⊎◌, [], length, replicate};
ghost use Rattle.byteorder.specs.Endian.{big_bytes};
ghost use Rattle.ntp_trailer.specs.Trailers.{IsTrailer};
ghost use Rattle.ntp_trailer.specs.Authentic.{spelled_mac};

use crate::parts::{KEY_ID_LEN, MAX_MAC_LEN};
use byteorder::{BigEndian, ByteOrder};
use edge_traits::{MAX_OCTETS, Octets};
use mac_keys::{Key, digest};
use ntp_packet::HEADER_LEN;

/// Appends the key's MAC of all octets so far: its id and its digest (RFC 5905, section 7.3).
pub fn append_mac(key: &Key, packet: &mut Octets)
    requires { length packet.old + MAX_MAC_LEN ≤ MAX_OCTETS }
    ensures spelled { packet.new ≡ packet.old ++ spelled_mac key.now packet.old }
    ensures len { (length packet.new ≡ length packet.old + KEY_ID_LEN + 16)
        ⊎ (length packet.new ≡ length packet.old + KEY_ID_LEN + 20) }
    ensures read_back { length packet.old ≡ HEADER_LEN
        → IsTrailer packet.new [] (spelled_mac key.now packet.old) }
{
    let made = digest(key, packet.as_slice());
    packet.put(&id_octets(key.id));
    packet.put(made.as_slice());
}

fn id_octets(id: u32) -> [u8; 4]
    ensures { result ≡ big_bytes KEY_ID_LEN id }
{
    let mut octets = [0; KEY_ID_LEN];
    BigEndian::write_u32(&mut octets, id);
    octets
}

/// Appends a crypto-NAK: a key id of zero with no digest (RFC 5905, section 9.2).
pub fn append_nak(packet: &mut Octets)
    requires { length packet.old + KEY_ID_LEN ≤ MAX_OCTETS }
    ensures { packet.new ≡ packet.old ++ replicate KEY_ID_LEN 0 }
{
    packet.put(&[0; KEY_ID_LEN]);
}

#[cfg(test)]
mod tests {
    use super::*;

    #[test]
    fn a_crypto_nak_is_four_zero_octets(rt: HostRuntime) {
        let mut packet = Octets::new();
        packet.put(&[0x24; 48]);
        append_nak(&mut packet);
        assert_eq!(rt; packet.len(), 52);
        assert_eq!(rt; &packet.as_slice()[47..], [0x24, 0, 0, 0, 0].as_slice());
    }
}
