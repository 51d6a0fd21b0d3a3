ghost use Rattle.std.specs.Prelude.{◌≡◌, ◌+◌, ◌^◌, ◌<◌, ◌≤◌, [], ◌∷◌, ◌++◌, length, codes, decimal};
ghost use Rattle.std.specs.Net.Text.{ipv4_text};
ghost use Rattle.net_addr.specs.Addresses.{IsIp, IsAddr};
ghost use Rattle.net_addr.specs.Spelling.{ip_text, text_of, Spells, SpellsIp};
ghost use Rattle.net_addr.specs.declared.addr.Ip.{Ip};

use crate::addr::{Addr, Ip};
use crate::groups::ipv6_text;
use itoa::Buffer;
use std::marker::Model;

/// The most octets that a text has.
const CAPACITY: usize = 48;

/// The octets of the longest text of an IPv6 address: eight groups of four digits, and colons.
pub(crate) const LONGEST_V6: usize = 39;

/// The text of an address: a list of at most 48 octets, kept in place.
#[derive(Drop)]
pub struct AddrText {
    octets: [u8; CAPACITY],
    used: usize,
}

impl Model for AddrText {
    ghost use Rattle.std.specs.Prelude.{ℕ, ◌≤◌, List, take};
    ghost use Rattle.net_addr.specs.declared.addr_text.TheConstants.{CAPACITY};

    ghost Value = { List ℕ };

    ghost view = { λ t. take t.used t.octets };

    ghost invariant = { λ t. t.used ≤ CAPACITY };
}

impl AddrText {
    pub(crate) fn new() -> AddrText
        ensures { result ≡ [] }
    {
        AddrText {
            octets: [0; CAPACITY],
            used: 0,
        }
    }

    /// The number of octets.
    pub fn len(&self) -> usize
        ensures value { result ≡ length self.now }
        ensures bound { result ≤ CAPACITY }
    {
        self.used
    }

    /// The octets.
    pub fn as_slice(&self) -> &[u8]
        ensures value { result.now ≡ self.now }
        ensures bound { length result.now ≤ CAPACITY }
    {
        &self.octets[..self.used]
    }

    pub(crate) fn append(&mut self, more: &[u8])
        requires { length self.old + length more.now ≤ CAPACITY }
        ensures { self.new ≡ self.old ++ more.now }
    {
        let end = self.used + more.len();
        self.octets[self.used..end].copy_from_slice(more);
        self.used = end;
    }

    // A number of 16 bits has five digits at most.
    fn append_decimal(&mut self, n: u16)
        requires { length self.old + 5 ≤ CAPACITY }
        ensures text { self.new ≡ self.old ++ decimal n }
        ensures grows { length self.new ≤ length self.old + 5 }
    {
        let mut digits = Buffer::new();
        self.append(digits.format(n).as_bytes());
    }

    fn append_after(&mut self, mark: u8, n: u16)
        requires { length self.old + 6 ≤ CAPACITY }
        ensures text { self.new ≡ self.old ++ mark ∷ [] ++ decimal n }
        ensures fits { n < 2 ^ 16 }
        ensures grows { length self.new ≤ length self.old + 6 }
    {
        self.append(&[mark]);
        self.append_decimal(n);
    }
}

fn ipv4_text(octets: &[u8; 4]) -> AddrText
    ensures text { result ≡ ipv4_text octets.now }
    ensures fits { IsIp (Ip.V4 octets.now) }
    ensures short { length result ≤ LONGEST_V6 }
{
    let mut text = AddrText::new();
    text.append_decimal(u16::from(octets[0]));
    text.append_after(b'.', u16::from(octets[1]));
    text.append_after(b'.', u16::from(octets[2]));
    text.append_after(b'.', u16::from(octets[3]));
    text
}

/// The text of an IP address: `1.2.3.4`, or for IPv6 that of RFC 5952, section 4, without a dotted
/// tail: `2001:db8::1`, `::ffff:c000:201`.
#[tactic(auto, unfolding(crate::specs::Spelling::ip_text))]
pub fn write_ip(ip: &Ip) -> AddrText
    ensures text { result ≡ ip_text ip.now }
    ensures spelled { SpellsIp result ip.now }
    ensures fits { IsIp ip.now }
    ensures short { length result ≤ LONGEST_V6 }
{
    match ip {
        Ip::V4(octets) => ipv4_text(octets),
        Ip::V6(octets) => ipv6_text(octets),
    }
}

/// The text of an address: `1.2.3.4:123`, `[::1]:123`.
#[tactic(auto, unfolding(crate::specs::Spelling::text_of))]
pub fn write_text(a: &Addr) -> AddrText
    ensures text { result ≡ text_of a.now }
    ensures spelled { Spells result a.now }
    ensures fits { IsAddr a.now }
{
    let ip = write_ip(&a.ip);
    let mut text = match a.ip {
        Ip::V4(_) => ip,
        Ip::V6(_) => bracketed(&ip),
    };
    text.append_after(b':', a.port);
    text
}

/// A text in brackets.
fn bracketed(inner: &AddrText) -> AddrText
    requires { length inner.now ≤ LONGEST_V6 }
    ensures text { result ≡ codes "[" ++ inner.now ++ codes "]" }
    ensures short { length result ≤ LONGEST_V6 + 2 }
{
    let mut text = AddrText::new();
    text.append(b"[");
    text.append(inner.as_slice());
    text.append(b"]");
    text
}
