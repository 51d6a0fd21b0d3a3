ghost use Rattle.std.specs.Prelude.{◌≡◌};
ghost use Rattle.mrulist_reader.specs.Readers.{confirms, is_asked, same_pair};
ghost use Rattle.std.specs.List.{list_any};

use mru_items::{PageAnswer, Pair};
use net_addr::is_same_addr;

/// Whether two pairs are of one client, port and last arrival.
pub(crate) fn is_same_pair(one: &Pair, other: &Pair) -> bool
    ensures { result ≡ same_pair one.now other.now }
{
    is_same_addr(&one.addr, &other.addr) && one.last == other.last
}

/// Whether a page that begins behind this client is one for a read that named these.
fn confirms(named: &[Pair], older: Option<Pair>) -> bool
    ensures { result ≡ confirms named.now older }
{
    match older {
        None => named.is_empty(),
        Some(pair) => is_among(&pair, named),
    }
}

/// Whether a pair is one of these.
fn is_among(pair: &Pair, pairs: &[Pair]) -> bool
    ensures { result ≡ list_any (same_pair pair.now) pairs.now }
{
    pairs.iter().any(|other| is_same_pair(pair, other))
}

/// Whether an answer is a page that was asked for, by a read that named these clients: it goes on
/// behind one of them, and has a row or ends the list.
pub(crate) fn is_asked(named: &[Pair], page: &PageAnswer) -> bool
    ensures { result ≡ is_asked named.now page.now }
{
    confirms(named, page.older) && (page.rows.len() > 0 || page.ended.is_some())
}
