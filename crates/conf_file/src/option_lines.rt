ghost use Rattle.std.specs.Prelude.{◌≡◌, ◌≤◌, codes};
ghost use Rattle.std.specs.Option.{unwrap_or};
ghost use Rattle.access_rules.specs.declared.servers.TheConstants.{MAX_POLL, MIN_POLL};
ghost use Rattle.mac_keys.specs.declared.keys.TheConstants.{MAX_KEY_ID};
ghost use Rattle.conf_file.specs.OptionLines.{IsLimitTail, IsMruTail, IsServerTail, server_rules, server_with};
ghost use Rattle.conf_file.specs.Options.{IsGivenBy, IsReadAs, number_of};
ghost use Rattle.conf_file.specs.declared.server_options.TheConstants.{PLAIN_POLL};

use crate::lines::Line;
use crate::list_options::{ListOptions, mru_table};
use crate::options::{Options, read_options};
use crate::rate_options::{RateOptions, limit_table};
use crate::server_options::{PLAIN_POLL, server_table};
use crate::servers::Server;
use access_rules::ServerLine;
use net_addr::{Addr, read_text};
use text_words::Words;

/// The port of a server whose address has none (RFC 5905, section 7.2).
pub const NTP_PORT: u16 = 123;

/// What the words after `server` mean: an address, and options.
pub fn server_line(words: &mut Words<'_>) -> Result<Line, u32>
    ensures { IsReadAs 2 IsServerTail words.old result }
{
    let Some(word) = words.next() else {
        return Err(2);
    };
    let Some(addr) = read_text(word, NTP_PORT) else {
        return Err(2);
    };
    match read_options(&server_table(), 0, words, 3) {
        Ok(given) => Ok(Line::Server(server_of(addr, &given))),
        Err(number) => Err(number),
    }
}

/// The server at an address with these options.
fn server_of(addr: Addr, given: &Options) -> Server
    requires { IsGivenBy server_rules given.now }
    ensures { result ≡ server_with addr given.now }
{
    Server::of_line(ServerLine {
        addr,
        key: key_of(given),
        poll: poll_of(given),
    })
}

fn key_of(given: &Options) -> u32
    requires { IsGivenBy server_rules given.now }
    ensures key { result ≡ unwrap_or (number_of given.now (codes "key")) 0 }
    ensures at_most { result ≤ MAX_KEY_ID }
{
    given.number(b"key").unwrap_or(0)
}

fn poll_of(given: &Options) -> u8
    requires { IsGivenBy server_rules given.now }
    ensures poll { result ≡ unwrap_or (number_of given.now (codes "minpoll")) PLAIN_POLL }
    ensures at_least { MIN_POLL ≤ result }
    ensures at_most { result ≤ MAX_POLL }
{
    match given.number(b"minpoll") {
        Some(poll) => poll as u8,
        None => PLAIN_POLL,
    }
}

/// What the words after `limit` mean: options of the rate limit.
pub fn limit_line(words: &mut Words<'_>) -> Result<Line, u32>
    ensures { IsReadAs 2 IsLimitTail words.old result }
{
    match read_options(&limit_table(), 1, words, 2) {
        Ok(given) => Ok(Line::Limit(RateOptions {
            average: given.number(b"average"),
            burst: given.number(b"burst"),
            spacing: given.number(b"kod"),
        })),
        Err(number) => Err(number),
    }
}

/// What the words after `mru` mean: options of the client list.
pub fn mru_line(words: &mut Words<'_>) -> Result<Line, u32>
    ensures { IsReadAs 2 IsMruTail words.old result }
{
    match read_options(&mru_table(), 1, words, 2) {
        Ok(given) => Ok(Line::Mru(ListOptions {
            mindepth: given.number(b"mindepth"),
            maxdepth: given.number(b"maxdepth"),
            minage: given.number(b"minage"),
            maxage: given.number(b"maxage"),
        })),
        Err(number) => Err(number),
    }
}
