ghost use Rattle.std.specs.Prelude.{◌≡◌, ◌+◌, ◌^◌, ◌<◌, ◌≤◌, ◌∷◌, [], ℕ, Some, None, IfSome, IfNone, MatchOption, bytes_eq, length, drop, slice_index_or};
ghost use Rattle.ntpq_report.specs.Peers.{ArePeerValues, IsPollExponent, PeerValues, items_named, value_in, values_of};

use mode6_frame::{Item, Items};
use text_words::read_decimal_within;

/// The greatest poll exponent (RFC 5905, section 7.2).
pub const MAX_HPOLL: u32 = 17;

/// The variables of a peer that the report shows.
#[derive(Clone, Copy)]
pub(crate) struct PeerVariables<'a> {
    pub srcadr: &'a [u8],
    pub refid: &'a [u8],
    pub stratum: &'a [u8],
    /// The poll exponent, log2 of seconds.
    pub hpoll: u32,
    pub reach: &'a [u8],
    pub delay: &'a [u8],
    pub offset: &'a [u8],
    pub jitter: &'a [u8],
}

/// The variables that the report shows, where each stands once and has a value, and the poll
/// exponent is a number.
pub(crate) fn peer_variables(items: &Items) -> Option<PeerVariables<'_>>
    ensures found { IfSome result (λ variables. ArePeerValues items.now (values_of variables)) }
    ensures only { IfSome result (λ variables. (values : PeerValues)
        → ArePeerValues items.now values → values_of variables ≡ values) }
    ensures none { IfNone result ((values : PeerValues) → ¬ (ArePeerValues items.now values)) }
{
    Some(PeerVariables {
        srcadr: value_in(items, b"srcadr")?,
        refid: value_in(items, b"refid")?,
        stratum: value_in(items, b"stratum")?,
        hpoll: poll_exponent(items)?,
        reach: value_in(items, b"reach")?,
        delay: value_in(items, b"delay")?,
        offset: value_in(items, b"offset")?,
        jitter: value_in(items, b"jitter")?,
    })
}

/// The poll exponent of a peer.
fn poll_exponent(items: &Items) -> Option<u32>
    ensures found { IfSome result (IsPollExponent items.now) }
    ensures only { (hpoll : ℕ) → IsPollExponent items.now hpoll → result ≡ Some hpoll }
    ensures none { IfNone result ((hpoll : ℕ) → ¬ (IsPollExponent items.now hpoll)) }
{
    read_decimal_within(value_in(items, b"hpoll")?, 0, MAX_HPOLL)
}

/// The value of the variable of this name, where it stands once and has one.
fn value_in<'a>(items: &'a Items, name: &[u8]) -> Option<&'a [u8]>
    ensures { MatchOption result
        (value_in items.now name.now ≡ None) (λ value. value_in items.now name.now ≡ Some value.now) }
{
    let place = next_named(items, 0, name)?;
    match next_named(items, place + 1, name) {
        Some(_) => None,
        None => value_of(items.get(place)),
    }
}

/// The value of an item, where it has one.
fn value_of(item: &Item) -> Option<&[u8]>
    ensures { MatchOption result
        (item.now.value ≡ None) (λ value. item.now.value ≡ Some value.now) }
{
    match &item.value {
        Some(value) => Some(value.as_slice()),
        None => None,
    }
}

/// The place of the next item of this name, from a place on.
fn next_named(items: &Items, from: usize, name: &[u8]) -> Option<usize>
    requires { from ≤ length items.now }
    ensures within { IfSome result (λ place. place < length items.now) }
    ensures bound { length items.now < 2 ^ 64 }
    ensures none { IfNone result (items_named name.now (drop from items.now) ≡ []) }
    ensures next { IfSome result (λ place. (item : Item)
        → items_named name.now (drop from items.now)
        ≡ slice_index_or items.now place item
        ∷ items_named name.now (drop (place + 1) items.now)) }
{
    for place in from..items.len() {
        if is_named(items.get(place), name) {
            return Some(place);
        }
    }
    None
}

/// Whether the item has this name.
fn is_named(item: &Item, name: &[u8]) -> bool
    ensures { result ≡ bytes_eq item.now.name name.now }
{
    item.name.as_slice() == name
}
