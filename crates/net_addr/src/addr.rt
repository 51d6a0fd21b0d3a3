ghost use Rattle.std.specs.Prelude.{◌≡◌, ◌↔◌, ◌<◌, ◌^◌, IsTrue};
ghost use Rattle.net_addr.specs.Addresses.{bits_of, number_of, same_addr, same_family, same_ip};
ghost use Rattle.net_addr.specs.declared.addr.Ip.{Ip};

/// An IP address, its octets in network order. An IPv4-mapped address is one of IPv6.
#[derive(Clone, Copy, Debug, PartialEq, Eq, Hash)]
pub enum Ip {
    V4([u8; 4]),
    V6([u8; 16]),
}

/// The address of a host's port.
#[derive(Clone, Copy, Debug, PartialEq, Eq, Hash)]
pub struct Addr {
    pub ip: Ip,
    pub port: u16,
}

/// Whether two IP addresses are one.
pub fn is_same_ip(one: &Ip, other: &Ip) -> bool
    ensures value { result ≡ same_ip one.now other.now }
    ensures exact { IsTrue result ↔ (one.now ≡ other.now) }
{
    match (one, other) {
        (Ip::V4(these), Ip::V4(those)) => these == those,
        (Ip::V6(these), Ip::V6(those)) => these == those,
        _ => false,
    }
}

/// Whether two addresses are one: the IP address and the port.
pub fn is_same_addr(one: &Addr, other: &Addr) -> bool
    ensures value { result ≡ same_addr one.now other.now }
    ensures exact { IsTrue result ↔ (one.now ≡ other.now) }
{
    is_same_ip(&one.ip, &other.ip) && one.port == other.port
}

/// Whether two IP addresses are of one family.
pub fn is_same_family(one: &Ip, other: &Ip) -> bool
    ensures { result ≡ same_family one.now other.now }
{
    bits(one) == bits(other)
}

/// How many bits an address of this family has: 32 or 128.
pub fn bits(ip: &Ip) -> u8
    ensures { result ≡ bits_of ip.now }
{
    match ip {
        Ip::V4(_) => 32,
        Ip::V6(_) => 128,
    }
}

/// The IP address as a number: its first octet is the highest.
pub fn number(ip: &Ip) -> u128
    ensures value { result ≡ number_of ip.now }
    ensures bound { number_of ip.now < 2 ^ bits_of ip.now }
{
    match ip {
        Ip::V4(octets) => u128::from(number_v4(*octets)),
        Ip::V6(octets) => number_v6(*octets),
    }
}

#[tactic(auto, unfolding(crate::specs::Addresses::number_of))]
pub(crate) fn number_v4(octets: [u8; 4]) -> u32
    ensures value { result ≡ number_of (Ip.V4 octets) }
    ensures bound { number_of (Ip.V4 octets) < 2 ^ 32 }
{
    u32::from_be_bytes(octets)
}

#[tactic(auto, unfolding(crate::specs::Addresses::number_of))]
pub(crate) fn number_v6(octets: [u8; 16]) -> u128
    ensures value { result ≡ number_of (Ip.V6 octets) }
    ensures bound { number_of (Ip.V6 octets) < 2 ^ 128 }
{
    u128::from_be_bytes(octets)
}

#[cfg(test)]
mod tests {
    use super::*;

    #[test]
    fn addresses_are_one_by_family_octets_and_port(rt: HostRuntime) {
        let one = Ip::V4([10, 0, 0, 1]);
        let next = Ip::V4([10, 0, 0, 2]);
        let unspecified = Ip::V6([0; 16]);
        for (other, same, family) in [
            (one, true, true),
            (next, false, true),
            (unspecified, false, false),
        ] {
            assert_eq!(rt; is_same_ip(&one, &other), same, "{other:?}");
            assert_eq!(rt; is_same_family(&one, &other), family, "{other:?}");
        }
        let at = Addr { ip: one, port: 123 };
        assert!(rt; is_same_addr(&at, &Addr { ip: one, port: 123 }));
        assert!(rt; !is_same_addr(&at, &Addr { ip: one, port: 124 }));
        assert!(rt;
            !is_same_addr(
                &at,
                &Addr {
                    ip: next,
                    port: 123
                }
            )
        );
        assert_eq!(rt; (bits(&one), bits(&unspecified)), (32, 128));
        assert_eq!(rt; number(&next), 0x0a000002);
    }
}
