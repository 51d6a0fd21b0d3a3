ghost use Rattle.std.specs.Prelude.{◌≡◌, None};
ghost use Rattle.conf_file.specs.OptionLines.{limit_rules};

use crate::options::OptionRule;

/// The most arrivals a minute that a configuration may allow.
pub const MAX_AVERAGE: u32 = 60_000;

/// The most arrivals at once that a configuration may allow.
pub const MAX_BURST: u32 = 1_000;

/// The most seconds between two RATE kiss codes: a day.
pub const MAX_SPACING: u32 = 86_400;

/// The options of a `limit` line that are given.
#[derive(Clone, Copy, Debug, PartialEq, Eq)]
pub struct RateOptions {
    /// Arrivals a minute.
    pub average: Option<u32>,
    /// Arrivals at once.
    pub burst: Option<u32>,
    /// Seconds between two RATE kiss codes.
    pub spacing: Option<u32>,
}

impl RateOptions {
    /// No options.
    pub fn none() -> RateOptions
        ensures { result ≡ record { average = None; burst = None; spacing = None } }
    {
        RateOptions {
            average: None,
            burst: None,
            spacing: None,
        }
    }
}

/// The options that a `limit` line may have.
pub fn limit_table() -> [OptionRule; 3]
    ensures { result ≡ limit_rules }
{
    [
        OptionRule::number(b"average", 1, MAX_AVERAGE),
        OptionRule::number(b"burst", 1, MAX_BURST),
        OptionRule::number(b"kod", 0, MAX_SPACING),
    ]
}
