ghost use Rattle.std.specs.Prelude.{◌≡◌};
ghost use Rattle.conf_file.specs.Options.{IsGivenBy};
ghost use Rattle.conf_file.specs.declared.options.Value.TheVariants.{Alone};
ghost use Rattle.conf_file.specs.RestrictOptions.{flag_rules, flags_of};

use crate::options::{OptionRule, Options};
use access_rules::{IGNORE, KOD, LIMITED, NOMODIFY, NOMRULIST, NOQUERY, NOSERVE, NOTRUST, VERSION};
use net_addr::Prefix;

/// Flags that are added to the rule of one prefix, or of two.
#[derive(Clone, Copy, Debug, PartialEq, Eq)]
pub struct Restriction {
    pub first: Prefix,
    /// There where both families are meant: the prefix of the second.
    pub second: Option<Prefix>,
    pub flags: u16,
}

/// The flags that a `restrict` line may have.
pub fn flag_table() -> [OptionRule; 11]
    ensures { result ≡ flag_rules }
{
    [
        flag(b"ignore", IGNORE),
        flag(b"noserve", NOSERVE),
        flag(b"notrust", NOTRUST),
        flag(b"version", VERSION),
        flag(b"noquery", NOQUERY),
        flag(b"nomrulist", NOMRULIST),
        flag(b"limited", LIMITED),
        flag(b"kod", KOD),
        flag(b"nomodify", NOMODIFY),
        flag(b"nopeer", 0),
        flag(b"notrap", 0),
    ]
}

/// A word for a flag.
fn flag(name: &'static [u8], flag: u16) -> OptionRule
    ensures { result ≡ record { name = name.now; value = Alone flag } }
{
    OptionRule::alone(name, u32::from(flag))
}

/// The flags that are given.
pub fn flags_in(given: &Options) -> u16
    requires { IsGivenBy flag_rules given.now }
    ensures { result ≡ flags_of given.now }
{
    given.joined() as u16
}
