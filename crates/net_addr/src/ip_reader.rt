ghost use Rattle.std.specs.Prelude.{◌≡◌, ◌≢◌, ◌↔◌, ◌⊎◌, ◌++◌, List, ℕ, Some, IsNone, IfSome, IfNone, codes};
ghost use Rattle.std.specs.Net.Addr.{segments_of};
ghost use Rattle.std.specs.Net.Grammar.{IsDotted, IsColonHex};
ghost use Rattle.net_addr.specs.Addresses.{IsIp};
ghost use Rattle.net_addr.specs.Spelling.{SpellsIp, SpellsHost};
ghost use Rattle.net_addr.specs.declared.addr.Ip.{Ip};

use crate::addr::Ip;
use std::net::{Ipv4Addr, Ipv6Addr};

/// The IP address that a text spells: `1.2.3.4`, `2001:db8::1`, `::ffff:1.2.3.4`. Nothing may stand
/// before it or after it: no brackets, no zone.
pub fn read_ip(text: &[u8]) -> Option<Ip>
    ensures found { IfSome result (λ ip. SpellsIp text.now ip) }
    ensures fits { IfSome result (λ ip. IsIp ip) }
    ensures only { (ip : Ip) → IsIp ip → SpellsIp text.now ip → result ≡ Some ip }
    ensures none { IsNone result ↔ ((ip : Ip) → IsIp ip → ¬ (SpellsIp text.now ip)) }
{
    if let Some(octets) = octets_v4(text) {
        return Some(Ip::V4(octets));
    }
    match octets_v6(text) {
        Some(octets) => Some(Ip::V6(octets)),
        None => None,
    }
}

/// The IP address that a text spells as it stands before a port: `1.2.3.4`, `[2001:db8::1]`.
pub(crate) fn read_host(text: &[u8]) -> Option<Ip>
    ensures found { IfSome result (λ ip. SpellsHost text.now ip) }
    ensures fits { IfSome result (λ ip. IsIp ip) }
    ensures only { (ip : Ip) → IsIp ip → SpellsHost text.now ip → result ≡ Some ip }
{
    if let Some(octets) = octets_v4(text) {
        return Some(Ip::V4(octets));
    }
    let Some(inner) = in_brackets(text) else {
        return None;
    };
    match octets_v6(inner) {
        Some(octets) => Some(Ip::V6(octets)),
        None => None,
    }
}

/// The IP address that a text spells without a port, in brackets or not.
pub(crate) fn read_bare(text: &[u8]) -> Option<Ip>
    ensures found { IfSome result (λ ip. SpellsIp text.now ip ⊎ SpellsHost text.now ip) }
    ensures fits { IfSome result (λ ip. IsIp ip) }
    ensures only { (ip : Ip) → IsIp ip → SpellsIp text.now ip ⊎ SpellsHost text.now ip
        → result ≡ Some ip }
{
    match read_ip(text) {
        Some(ip) => Some(ip),
        None => read_host(text),
    }
}

/// What stands in brackets, where a text is that and its brackets.
fn in_brackets(text: &[u8]) -> Option<&[u8]>
    ensures found { IfSome result (λ inner. text.now ≡ codes "[" ++ inner.now ++ codes "]") }
    ensures none { IfNone result ((inner : List ℕ) → text.now ≢ codes "[" ++ inner ++ codes "]") }
{
    match text {
        [b'[', inner @ .., b']'] => Some(inner),
        _ => None,
    }
}

fn octets_v4(text: &[u8]) -> Option<[u8; 4]>
    ensures found { IfSome result (λ octets. IsDotted text.now octets) }
    ensures fits { IfSome result (λ octets. IsIp (Ip.V4 octets)) }
    ensures only { (octets : List ℕ) → IsDotted text.now octets → result ≡ Some octets }
{
    match Ipv4Addr::parse_ascii(text) {
        Ok(ip) => Some(ip.octets()),
        Err(_) => None,
    }
}

fn octets_v6(text: &[u8]) -> Option<[u8; 16]>
    ensures found { IfSome result (λ octets. IsColonHex text.now (segments_of octets)) }
    ensures fits { IfSome result (λ octets. IsIp (Ip.V6 octets)) }
    ensures only { (octets : List ℕ) → IsIp (Ip.V6 octets)
        → IsColonHex text.now (segments_of octets) → result ≡ Some octets }
{
    match Ipv6Addr::parse_ascii(text) {
        Ok(ip) => Some(octets_of(ip.segments())),
        Err(_) => None,
    }
}

fn octets_of(segments: [u16; 8]) -> [u8; 16]
    ensures segments { segments_of result ≡ segments }
    ensures fits { IsIp (Ip.V6 result) }
{
    let [a, b, c, d, e, f, g, h] = segments;
    Ipv6Addr::new(a, b, c, d, e, f, g, h).octets()
}
