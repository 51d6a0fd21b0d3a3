ghost use Rattle.std.specs.Prelude.{◌≡◌, ◌+◌, ◌*◌, ◌<◌, ◌≤◌, ◌++◌, length};
ghost use Rattle.std.specs.Char.{digit_char};
ghost use Rattle.std.specs.Net.Addr.{segments_of};
ghost use Rattle.std.specs.Net.Text as Text;
ghost use Rattle.net_addr.specs.Addresses.{IsIp};
ghost use Rattle.net_addr.specs.Spelling.{ip_text};
ghost use Rattle.net_addr.specs.declared.addr.Ip.{Ip};

use crate::addr_text::{AddrText, LONGEST_V6};
use std::net::Ipv6Addr;

// std writes the same text, but by a formatter, which may fail and say less of what it wrote.

/// The text of an IPv6 address, by RFC 5952, section 4.
#[tactic(auto, unfolding(crate::specs::Spelling::ip_text))]
pub(crate) fn ipv6_text(octets: &[u8; 16]) -> AddrText
    ensures text { result ≡ ip_text (Ip.V6 octets.now) }
    ensures fits { IsIp (Ip.V6 octets.now) }
    ensures short { length result ≤ LONGEST_V6 }
{
    let groups = Ipv6Addr::from_octets(*octets).segments();
    hex_groups_text(&groups)
}

#[tactic(auto, unfolding(std::specs::Net::Text::hex_groups_text))]
fn hex_groups_text(groups: &[u16; 8]) -> AddrText
    ensures text { result ≡ Text.hex_groups_text groups.now }
    ensures short { length result ≤ LONGEST_V6 }
{
    let (start, len) = longest_zero_run(groups);
    let mut text = AddrText::new();
    if len > 1 {
        append_groups(&mut text, &groups[..start]);
        text.append(b"::");
        append_groups(&mut text, &groups[start + len..]);
    } else {
        append_groups(&mut text, groups);
    }
    text
}

/// The start and the length of the longest run of zeros, and of two such runs the first.
fn longest_zero_run(groups: &[u16]) -> (usize, usize)
    ensures value { result ≡ Text.longest_zero_run groups.now }
    ensures within { result.0 + result.1 ≤ length groups.now }
{
    let mut start = groups.len();
    let mut len = 0;
    let mut run = 0;
    for i in (0..groups.len()).rev() {
        run = if groups[i] == 0 { run + 1 } else { 0 };
        if run >= len {
            start = i;
            len = run;
        }
    }
    (start, len)
}

/// Appends groups with colons between them.
fn append_groups(text: &mut AddrText, groups: &[u16])
    requires { length text.old + 5 * length groups.now ≤ LONGEST_V6 + 1 }
    ensures text { text.new ≡ text.old ++ Text.groups_text groups.now }
    ensures grows { length text.new ≤ length text.old + 5 * length groups.now }
    ensures short { length text.old ≤ LONGEST_V6 → length text.new ≤ LONGEST_V6 }
{
    if let [first, rest @ ..] = groups {
        append_hex(text, *first);
        for group in rest {
            text.append(b":");
            append_hex(text, *group);
        }
    }
}

/// Appends a group in hexadecimal digits of lower case without leading zeros.
#[tactic(auto, unfolding(std::specs::Net::Text::hex))]
fn append_hex(text: &mut AddrText, group: u16)
    requires { length text.old + 4 ≤ LONGEST_V6 }
    ensures text { text.new ≡ text.old ++ Text.hex group }
    ensures grows { length text.new ≤ length text.old + 4 }
{
    let digits = [
        hex_digit(group / 0x1000),
        hex_digit(group / 0x100 % 16),
        hex_digit(group / 0x10 % 16),
        hex_digit(group % 16),
    ];
    text.append(&digits[leading_zero_digits(group)..]);
}

fn hex_digit(digit: u16) -> u8
    requires { digit < 16 }
    ensures { result ≡ digit_char digit }
{
    if digit < 10 {
        b'0' + digit as u8
    } else {
        b'a' + (digit - 10) as u8
    }
}

/// How many of a group's four digits are leading zeros, the last digit apart.
fn leading_zero_digits(group: u16) -> usize
    ensures value { result ≡ Text.leading_zero_digits group }
    ensures within { result < 4 }
{
    match group {
        0x1000.. => 0,
        0x100.. => 1,
        0x10.. => 2,
        _ => 3,
    }
}
