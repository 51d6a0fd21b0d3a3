ghost use Rattle.std.specs.Prelude.{◌≡◌, ◌≤◌, ◌<◌, ◌^◌, ◌-◌, ◌*◌, ◌/◌, ◌↔◌, ℕ, List, true, Some, IfSome, IsNone};
ghost use Rattle.net_addr.specs.Addresses.{bits_of, number_of};
ghost use Rattle.net_addr.specs.Prefixes.{has_ip, numbered, without_host_bits, IsMask};
ghost use Rattle.net_addr.specs.declared.addr.Ip.{Ip};

use crate::addr::{Ip, number_v4, number_v6};
use crate::prefix::Prefix;

/// The prefix of `length` bits that has the address: its bits after the first `length` are cleared.
pub fn prefix_of(ip: &Ip, length: u8) -> Prefix
    requires { length ≤ bits_of ip.now }
    ensures ip { result.ip ≡ without_host_bits length ip.now }
    ensures length { result.length ≡ length }
    ensures has { has_ip result ip.now ≡ true }
{
    let ip = cleared(ip, length);
    Prefix { ip, length }
}

/// The address with its bits after the first `length` cleared.
fn cleared(ip: &Ip, length: u8) -> Ip
    requires { length ≤ bits_of ip.now }
    ensures ip { result ≡ without_host_bits length ip.now }
    ensures family { bits_of result ≡ bits_of ip.now }
    ensures number { number_of result
        ≡ number_of ip.now / 2 ^ (bits_of ip.now - length) * 2 ^ (bits_of ip.now - length) }
{
    match ip {
        Ip::V4(octets) => Ip::V4(octets_v4(cleared_v4(number_v4(*octets), length))),
        Ip::V6(octets) => Ip::V6(octets_v6(cleared_v6(number_v6(*octets), length))),
    }
}

fn cleared_v4(number: u32, length: u8) -> u32
    requires { length ≤ 32 }
    ensures { result ≡ number / 2 ^ (32 - length) * 2 ^ (32 - length) }
{
    let beyond = 32 - u32::from(length);
    (u64::from(number) >> beyond << beyond) as u32
}

fn cleared_v6(number: u128, length: u8) -> u128
    requires { length ≤ 128 }
    ensures { result ≡ number / 2 ^ (128 - length) * 2 ^ (128 - length) }
{
    if length == 0 {
        return 0;
    }
    let beyond = 128 - u32::from(length);
    number >> beyond << beyond
}

#[tactic(auto, unfolding(crate::specs::Addresses::number_of, crate::specs::Prefixes::numbered))]
fn octets_v4(number: u32) -> [u8; 4]
    ensures ip { (octets : List ℕ) → Ip.V4 result ≡ numbered (Ip.V4 octets) number }
    ensures number { number_of (Ip.V4 result) ≡ number }
{
    number.to_be_bytes()
}

#[tactic(auto, unfolding(crate::specs::Addresses::number_of, crate::specs::Prefixes::numbered))]
fn octets_v6(number: u128) -> [u8; 16]
    ensures ip { (octets : List ℕ) → Ip.V6 result ≡ numbered (Ip.V6 octets) number }
    ensures number { number_of (Ip.V6 result) ≡ number }
{
    number.to_be_bytes()
}

/// The length of a mask: how many ones it begins with, where all its other bits are zeros.
pub fn mask_length(mask: &Ip) -> Option<u8>
    ensures found { IfSome result (λ length. IsMask mask.now length) }
    ensures only { (length : ℕ) → IsMask mask.now length → result ≡ Some length }
    ensures none { IsNone result ↔ ((length : ℕ) → ¬ (IsMask mask.now length)) }
{
    match mask {
        Ip::V4(octets) => mask_length_v4(number_v4(*octets)),
        Ip::V6(octets) => mask_length_v6(number_v6(*octets)),
    }
}

fn mask_length_v4(mask: u32) -> Option<u8>
    ensures within { IfSome result (λ length. length ≤ 32) }
    ensures found { IfSome result (λ length. mask ≡ (2 ^ length - 1) * 2 ^ (32 - length)) }
    ensures only { (length : ℕ) → length ≤ 32 → mask ≡ (2 ^ length - 1) * 2 ^ (32 - length)
        → result ≡ Some length }
{
    let mut length = 0;
    while length <= 32 {
        if mask == ones_v4(length) {
            return Some(length);
        }
        length += 1;
    }
    None
}

fn ones_v4(length: u8) -> u32
    requires { length ≤ 32 }
    ensures { result ≡ (2 ^ length - 1) * 2 ^ (32 - length) }
{
    u32::MAX - (((1u64 << (32 - length)) - 1) as u32)
}

fn mask_length_v6(mask: u128) -> Option<u8>
    ensures within { IfSome result (λ length. length ≤ 128) }
    ensures found { IfSome result (λ length. mask ≡ (2 ^ length - 1) * 2 ^ (128 - length)) }
    ensures only { (length : ℕ) → length ≤ 128 → mask ≡ (2 ^ length - 1) * 2 ^ (128 - length)
        → result ≡ Some length }
{
    let mut length = 0;
    while length <= 128 {
        if mask == ones_v6(length) {
            return Some(length);
        }
        length += 1;
    }
    None
}

fn ones_v6(length: u8) -> u128
    requires { length ≤ 128 }
    ensures { result ≡ (2 ^ length - 1) * 2 ^ (128 - length) }
{
    if length == 0 {
        return 0;
    }
    u128::MAX - ((1 << (128 - length)) - 1)
}

#[cfg(test)]
mod tests {
    use super::{mask_length, prefix_of};
    use crate::{Ip, in_prefix};

    fn v6(number: u128) -> Ip {
        Ip::V6(number.to_be_bytes())
    }

    #[test]
    fn a_mask_is_ones_and_then_zeros(rt: HostRuntime) {
        for (mask, length) in [
            (Ip::V4([0, 0, 0, 0]), Some(0)),
            (Ip::V4([255, 0, 0, 0]), Some(8)),
            (Ip::V4([255, 255, 240, 0]), Some(20)),
            (Ip::V4([255, 255, 255, 255]), Some(32)),
            (Ip::V4([255, 0, 255, 0]), None),
            (Ip::V4([0, 0, 0, 1]), None),
            (v6(0), Some(0)),
            (v6(0xfffffffe_00000000_00000000_00000000), Some(31)),
            (v6(0xffffffff_ffffffff_ffffffff_ffffffff), Some(128)),
            (v6(1), None),
        ] {
            assert_eq!(rt; mask_length(&mask), length, "{mask:?}");
        }
    }

    #[test]
    fn a_prefix_has_what_agrees_in_its_bits(rt: HostRuntime) {
        let prefix = prefix_of(&Ip::V4([192, 168, 5, 77]), 23);
        assert_eq!(rt; prefix.ip, Ip::V4([192, 168, 4, 0]));
        assert!(rt; in_prefix(&Ip::V4([192, 168, 4, 0]), &prefix));
        assert!(rt; in_prefix(&Ip::V4([192, 168, 5, 255]), &prefix));
        assert!(rt; !in_prefix(&Ip::V4([192, 168, 6, 0]), &prefix));
        // An IPv4-mapped address is one of IPv6.
        let mapped = Ip::V6([0, 0, 0, 0, 0, 0, 0, 0, 0, 0, 255, 255, 192, 168, 5, 0]);
        assert!(rt; !in_prefix(&mapped, &prefix));
        assert!(rt; in_prefix(&mapped, &prefix_of(&mapped, 96)));
    }
}
