ghost use Rattle.std.specs.Prelude.{◌≡◌, ◌≤◌, ◌==◌, true};
ghost use Rattle.net_addr.specs.Addresses.{same_family};
ghost use Rattle.net_addr.specs.Prefixes.{first_bits, has_ip};
ghost use Rattle.net_addr.specs.declared.addr.Ip.{Ip};

use crate::addr::{Ip, number_v4, number_v6};
use crate::prefix::Prefix;

/// Whether the address is of the prefix's family and begins with its bits.
pub fn in_prefix(ip: &Ip, prefix: &Prefix) -> bool
    ensures value { result ≡ has_ip prefix.now ip.now }
    ensures all { prefix.now.length ≡ 0 → result ≡ same_family ip.now prefix.now.ip }
{
    match (ip, &prefix.ip) {
        (Ip::V4(octets), Ip::V4(of_prefix)) => { agree_v4(*octets, *of_prefix, prefix.length) }
        (Ip::V6(octets), Ip::V6(of_prefix)) => { agree_v6(*octets, *of_prefix, prefix.length) }
        _ => false,
    }
}

/// Whether two addresses agree in their first `length` bits.
fn agree_v4(these: [u8; 4], those: [u8; 4], length: u8) -> bool
    requires { length ≤ 32 }
    ensures value { result ≡ (first_bits length (Ip.V4 these) == first_bits length (Ip.V4 those)) }
    ensures all { length ≡ 0 → result ≡ true }
{
    let beyond = 32 - u32::from(length);
    u64::from(number_v4(these)) >> beyond == u64::from(number_v4(those)) >> beyond
}

/// Whether two addresses agree in their first `length` bits.
fn agree_v6(these: [u8; 16], those: [u8; 16], length: u8) -> bool
    requires { length ≤ 128 }
    ensures value { result ≡ (first_bits length (Ip.V6 these) == first_bits length (Ip.V6 those)) }
    ensures all { length ≡ 0 → result ≡ true }
{
    let these = number_v6(these);
    let those = number_v6(those);
    if length == 0 {
        return true;
    }
    let beyond = 128 - u32::from(length);
    these >> beyond == those >> beyond
}
