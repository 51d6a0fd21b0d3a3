ghost use Rattle.std.specs.Prelude.{◌≡◌};
ghost use Rattle.conf_file.specs.OptionLines.{mru_rules};

use crate::options::OptionRule;
use recency::{MAX_AGE, MAX_DEPTH};

/// The options of an `mru` line that are given: numbers of rows, and ages in seconds.
#[derive(Clone, Copy, Debug, PartialEq, Eq)]
pub struct ListOptions {
    pub mindepth: Option<u32>,
    pub maxdepth: Option<u32>,
    pub minage: Option<u32>,
    pub maxage: Option<u32>,
}

/// The options that an `mru` line may have.
pub fn mru_table() -> [OptionRule; 4]
    ensures { result ≡ mru_rules }
{
    [
        OptionRule::number(b"mindepth", 0, MAX_DEPTH),
        OptionRule::number(b"maxdepth", 1, MAX_DEPTH),
        OptionRule::number(b"minage", 0, MAX_AGE),
        OptionRule::number(b"maxage", 0, MAX_AGE),
    ]
}
