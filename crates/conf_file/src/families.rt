ghost use Rattle.std.specs.Prelude.{◌≡◌};
ghost use Rattle.conf_file.specs.RestrictLines.{AreDefaults, IsPrefixOf, family_of, is_allowed, zeros_v4, zeros_v6};

use crate::words::is_word;
use net_addr::{Ip, Prefix};

/// The families of addresses that a line is for.
#[derive(Clone, Copy, Debug, PartialEq, Eq)]
pub enum Family {
    Both,
    OnlyV4,
    OnlyV6,
}

/// The family that a word asks for.
pub fn family_in(word: &[u8]) -> Option<Family>
    ensures { result ≡ family_of word.now }
{
    if is_word(word, b"-4") {
        return Some(Family::OnlyV4);
    }
    if is_word(word, b"-6") {
        return Some(Family::OnlyV6);
    }
    None
}

/// Whether an address is of these families.
pub fn is_of(family: Family, ip: &Ip) -> bool
    ensures { result ≡ is_allowed family ip.now }
{
    match (family, ip) {
        (Family::Both, _) => true,
        (Family::OnlyV4, Ip::V4(_)) => true,
        (Family::OnlyV6, Ip::V6(_)) => true,
        _ => false,
    }
}

/// The prefixes of all addresses of these families.
pub fn defaults(family: Family) -> (Prefix, Option<Prefix>)
    ensures { AreDefaults family result.0 result.1 }
{
    match family {
        Family::Both => (whole_v4(), Some(whole_v6())),
        Family::OnlyV4 => (whole_v4(), None),
        Family::OnlyV6 => (whole_v6(), None),
    }
}

/// The prefix of all IPv4 addresses.
#[tactic(auto, unfolding(net_addr::specs::Addresses::number_of))]
fn whole_v4() -> Prefix
    ensures { IsPrefixOf zeros_v4 0 result }
{
    Prefix {
        ip: Ip::V4([0; 4]),
        length: 0,
    }
}

/// The prefix of all IPv6 addresses.
#[tactic(auto, unfolding(net_addr::specs::Addresses::number_of))]
fn whole_v6() -> Prefix
    ensures { IsPrefixOf zeros_v6 0 result }
{
    Prefix {
        ip: Ip::V6([0; 16]),
        length: 0,
    }
}
