ghost use Rattle.std.specs.Prelude.{◌≡◌, ◌≤◌, ◌↔◌, ℕ, Some, IsNone, IfSome};
ghost use Rattle.net_addr.specs.Addresses.{IsIp, bits_of};
ghost use Rattle.net_addr.specs.Spelling.{NamesBits, SpellsPrefix};
ghost use Rattle.net_addr.specs.declared.addr.Ip.{Ip};
ghost use Rattle.net_addr.specs.declared.prefix.Prefix.{Prefix};

use crate::addr::{Ip, bits};
use crate::ip_reader::read_ip;
use crate::masks::prefix_of;
use crate::numbers::cut_number;
use crate::prefix::Prefix;

/// The prefix that a text spells: an IP address, which is a prefix of all its bits, or as
/// `10.0.0.0/8` an IP address, a slash and a length, which is decimal without leading zeros, at most
/// 32 for IPv4 and 128 for IPv6. Host bits that the text has are cleared.
pub fn read_prefix(text: &[u8]) -> Option<Prefix>
    ensures found { IfSome result (λ prefix. SpellsPrefix text.now prefix) }
    ensures only { (prefix : Prefix) → SpellsPrefix text.now prefix → result ≡ Some prefix }
    ensures none { IsNone result
        ↔ ((ip : Ip) → (length : ℕ) → IsIp ip → ¬ (NamesBits text.now ip length)) }
{
    match bits_in(text) {
        Some((ip, length)) => Some(prefix_of(&ip, length)),
        None => None,
    }
}

/// The IP address of a prefix's text, and how many of its bits the text names.
fn bits_in(text: &[u8]) -> Option<(Ip, u8)>
    ensures found { IfSome result (λ bits. NamesBits text.now bits.0 bits.1) }
    ensures fits { IfSome result (λ bits. IsIp bits.0 × (bits.1 ≤ bits_of bits.0)) }
    ensures only { (ip : Ip) → (length : ℕ) → IsIp ip → NamesBits text.now ip length
        → result ≡ Some (ip, length) }
{
    if let Some(ip) = read_ip(text) {
        return Some((ip, bits(&ip)));
    }
    let Some((front, length)) = cut_number(text, b'/') else {
        return None;
    };
    match read_ip(front) {
        Some(ip) if length <= u16::from(bits(&ip)) => Some((ip, length as u8)),
        _ => None,
    }
}

#[cfg(test)]
mod tests {
    use super::read_prefix;
    use crate::{Ip, in_prefix};

    fn v6(number: u128) -> Ip {
        Ip::V6(number.to_be_bytes())
    }

    #[test]
    fn host_bits_are_cleared(rt: HostRuntime) {
        for (text, ip, length) in [
            ("10.1.2.3/8", Ip::V4([10, 0, 0, 0]), 8),
            ("10.1.2.3", Ip::V4([10, 1, 2, 3]), 32),
            ("172.16.255.1/12", Ip::V4([172, 16, 0, 0]), 12),
            ("255.255.255.255/0", Ip::V4([0, 0, 0, 0]), 0),
            (
                "2001:db8::1/32",
                v6(0x20010db8_00000000_00000000_00000000),
                32,
            ),
            ("::1", v6(1), 128),
            ("ffff::/0", v6(0), 0),
            (
                "2001:db8::ff00/121",
                v6(0x20010db8_00000000_00000000_0000ff00),
                121,
            ),
        ] {
            let read = read_prefix(text.as_bytes());
            assert!(rt; read.is_some(), "{text} is a prefix");
            if let Some(prefix) = read {
                assert_eq!(rt; prefix.ip, ip, "address of {text}");
                assert_eq!(rt; prefix.length, length, "length of {text}");
                assert!(rt; in_prefix(&ip, &prefix), "{text} has its address");
            }
        }
    }

    #[test]
    fn other_texts_are_no_prefixes(rt: HostRuntime) {
        for text in [
            "",
            "/8",
            "10.0.0.0/",
            "10.0.0.0/08",
            "10.0.0.0/+8",
            "1.2.3.4/33",
            "::/129",
            "::/65536",
            "10.0.0.0/8/8",
            "10.0.0.0 /8",
            "10/8",
            "[::1]/64",
            "10.0.0.0:123/8",
        ] {
            assert_eq!(rt; read_prefix(text.as_bytes()), None, "'{text}'");
        }
    }
}
