ghost use Rattle.std.specs.Prelude.{◌≡◌, ◌≤◌, ℕ, ◌∷◌, false, codes, bytes_eq, Some, IfSome};
ghost use Rattle.net_addr.specs.Addresses.{IsIp, bits_of};
ghost use Rattle.net_addr.specs.Prefixes.{same_family, without_host_bits};
ghost use Rattle.net_addr.specs.Spelling.{SpellsIp};
ghost use Rattle.net_addr.specs.declared.addr.Ip.{Ip};
ghost use Rattle.conf_file.specs.Options.{IsReadAs};
ghost use Rattle.conf_file.specs.RestrictLines.{AreFlags, IsAddressTail, IsMaskWord, IsPrefixOf, IsRestrictTail, IsTargetTail};

use crate::families::{Family, defaults, family_in, is_of};
use crate::lines::Line;
use crate::options::read_options;
use crate::restrict_options::{Restriction, flag_table, flags_in};
use crate::words::is_word;
use net_addr::{Ip, Prefix, mask_length, prefix_of, read_ip, read_prefix};
use text_words::Words;

/// What the words after `restrict` mean: a family, or none, a prefix, and flags.
pub fn restrict_line(words: &mut Words<'_>) -> Result<Line, u32>
    ensures { IsReadAs 2 IsRestrictTail words.old result }
{
    let Some(word) = words.next() else {
        return Err(2);
    };
    let Some(family) = family_in(word) else {
        return target_line(Family::Both, word, words, 2);
    };
    match words.next() {
        Some(word) => target_line(family, word, words, 3),
        None => Err(3),
    }
}

/// What a word of this number means with those after it: a prefix, and flags.
fn target_line(family: Family, word: &[u8], words: &mut Words<'_>, number: u32) -> Result<Line, u32>
    requires { number ≤ 3 }
    ensures { IsReadAs number (IsTargetTail family) (word.now ∷ words.old) result }
{
    if is_word(word, b"default") {
        let (first, second) = defaults(family);
        return flags_line(first, second, words, number + 1);
    }
    let Some(ip) = read_ip(word) else {
        return prefix_line(family, word, words, number);
    };
    if !is_of(family, &ip) {
        return Err(number);
    }
    address_line(&ip, words, number + 1)
}

/// What a word of this number means that is no address, with those after it.
fn prefix_line(family: Family, word: &[u8], words: &mut Words<'_>, number: u32) -> Result<Line, u32>
    requires number { number ≤ 3 }
    requires no_default { bytes_eq word.now (codes "default") ≡ false }
    requires no_address { (ip : Ip) → IsIp ip → ¬ (SpellsIp word.now ip) }
    ensures { IsReadAs number (IsTargetTail family) (word.now ∷ words.old) result }
{
    let Some(prefix) = read_prefix(word) else {
        return Err(number);
    };
    if !is_of(family, &prefix.ip) {
        return Err(number);
    }
    flags_line(prefix, None, words, number + 1)
}

/// What the words after an address mean, of which the first has this number: a mask, or none, and
/// flags.
fn address_line(ip: &Ip, words: &mut Words<'_>, number: u32) -> Result<Line, u32>
    requires { number ≤ 4 }
    ensures { IsReadAs number (IsAddressTail ip.now) words.old result }
{
    let whole = whole_of(ip);
    if !words.is_next(b"mask") {
        return flags_line(whole, None, words, number);
    }
    let Some(_) = words.next() else {
        return Err(number);
    };
    let Some(mask) = words.next() else {
        return Err(number + 1);
    };
    let Some(length) = length_in(ip, mask) else {
        return Err(number + 1);
    };
    flags_line(prefix_of(ip, length), None, words, number + 2)
}

/// What flags mean for these prefixes, of which the first has this number.
fn flags_line(
    first: Prefix,
    second: Option<Prefix>,
    words: &mut Words<'_>,
    number: u32,
) -> Result<Line, u32>
    requires { number ≤ 6 }
    ensures { IsReadAs number (AreFlags first second) words.old result }
{
    match read_options(&flag_table(), 0, words, number) {
        Ok(given) => Ok(Line::Restrict(Restriction {
            first,
            second,
            flags: flags_in(&given),
        })),
        Err(number) => Err(number),
    }
}

/// The prefix of an address alone.
fn whole_of(ip: &Ip) -> Prefix
    ensures { IsPrefixOf (without_host_bits (bits_of ip.now) ip.now) (bits_of ip.now) result }
{
    let length = match ip {
        Ip::V4(_) => 32,
        Ip::V6(_) => 128,
    };
    prefix_of(ip, length)
}

/// How many ones the mask has that a word spells, if it is one of the address's family.
fn length_in(ip: &Ip, word: &[u8]) -> Option<u8>
    ensures found { IfSome result (IsMaskWord ip.now word.now) }
    ensures within { IfSome result (λ length. length ≤ bits_of ip.now) }
    ensures only { (length : ℕ) → IsMaskWord ip.now word.now length → result ≡ Some length }
{
    let mask = read_ip(word)?;
    if !is_same_family(&mask, ip) {
        return None;
    }
    mask_length(&mask)
}

/// Whether two addresses are of one family.
fn is_same_family(one: &Ip, other: &Ip) -> bool
    ensures { result ≡ same_family one.now other.now }
{
    match (one, other) {
        (Ip::V4(_), Ip::V4(_)) => true,
        (Ip::V6(_), Ip::V6(_)) => true,
        _ => false,
    }
}
