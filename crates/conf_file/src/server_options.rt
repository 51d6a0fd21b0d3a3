ghost use Rattle.std.specs.Prelude.{◌≡◌};
ghost use Rattle.conf_file.specs.OptionLines.{server_rules};

use crate::options::OptionRule;
use access_rules::{MAX_POLL, MIN_POLL};
use mac_keys::{MAX_KEY_ID, MIN_KEY_ID};

/// The poll exponent of a server where nothing else is said: 64 seconds (RFC 5905, section 7.2).
pub const PLAIN_POLL: u8 = 6;

/// The options that a `server` line may have.
pub fn server_table() -> [OptionRule; 5]
    ensures { result ≡ server_rules }
{
    let least = u32::from(MIN_POLL);
    let most = u32::from(MAX_POLL);
    [
        OptionRule::number(b"key", MIN_KEY_ID, MAX_KEY_ID),
        OptionRule::number(b"minpoll", least, most),
        OptionRule::number(b"maxpoll", least, most),
        OptionRule::alone(b"burst", 0),
        OptionRule::alone(b"iburst", 0),
    ]
}
