ghost use Rattle.std.specs.Prelude.{◌≡◌, ◌<◌, ◌≤◌, ◌^◌, ◌-◌, [], Some, Ok, IfOk, IfErr, IfSome, IsErrOf, IsTrue, ◌↔◌, codes, length, List};
ghost use Rattle.mode6_frame.specs.Told.{IsUnless};
ghost use Rattle.mru_items.specs.Names.{values_of};
ghost use Rattle.mru_items.specs.Queries.{AsksFor, AsksForClients, HasNonce, IsBounded, IsOnce, IsOptional, IsRead, IsReadOf, ArePairs, IsPair, IsPairUnder, IsQuery, NamesNone, NamesNoneFrom, NamesPair, NamesPairs, SpellsLimit, read_of, TellsStamp};
ghost use Rattle.mru_items.specs.Values.{IsExactly, SpellsMask};
ghost use Rattle.mru_items.specs.declared.pair.Pair.{Pair};
ghost use Rattle.mru_items.specs.declared.query.ReadRequest.{ReadRequest};
ghost use Rattle.mru_items.specs.declared.pair.TheConstants.{MAX_PAIRS};
ghost use Rattle.mru_items.specs.declared.query.TheConstants.{MAX_LIMIT};
ghost use Rattle.mru_items.specs.declared.query_reading.RequestFault.TheVariants.{BadValue, NoMemory};
ghost use Rattle.net_addr.specs.Spelling.{IsAddr, Spells};
ghost use Rattle.text_words.specs.Numbers.{SpellsNumber};

use crate::lookup::{is_missing, only_value};
use crate::pair::{MAX_PAIRS, Pair, Pairs};
use crate::query::{MAX_FRAGS, MAX_LIMIT, MruFilter, Query, ReadRequest};
use crate::value_reading::mask_in;
use crate::value_text::numbered;
use fixed_time::Ntp64;
use mode6_frame::{Items, read_stamp};
use net_addr::{Addr, read_named};
use std::alloc::{AllocError, AllocFailed, Global};
use text_words::read_decimal_within;

/// Why items are no read of the client list.
#[derive(Clone, Copy, Debug, PartialEq, Eq)]
pub enum RequestFault {
    /// An item stands twice or is wanting, or its value is out of its form or range.
    BadValue,
    /// Memory was wanting.
    NoMemory,
}

impl From<AllocError> for RequestFault {
    ghost use Rattle.std.specs.Prelude.{◌≡◌};
    ghost use Rattle.mru_items.specs.declared.query_reading.RequestFault.TheVariants.{NoMemory};

    ghost from_gives = { λ _ fault. fault ≡ NoMemory };

    fn from(_: AllocError) -> RequestFault {
        RequestFault::NoMemory
    }
}

impl<T: Drop> From<AllocFailed<T>> for RequestFault {
    ghost use Rattle.std.specs.Prelude.{◌≡◌};
    ghost use Rattle.mru_items.specs.declared.query_reading.RequestFault.TheVariants.{NoMemory};

    ghost from_gives = { λ _ fault. fault ≡ NoMemory };

    fn from(_: AllocFailed<T>) -> RequestFault {
        RequestFault::NoMemory
    }
}

/// The read of the client list that these items ask for, of a server whose clocks begin at `origin`
/// (RFC 9327, section 4, command 10). The pairs have the server's stamps. Whether the nonce is good
/// is another question.
pub fn read_request(
    alloc: Global,
    items: &Items,
    origin: Ntp64,
) -> Result<ReadRequest, RequestFault>
    ensures found { IfOk result (λ request. IsReadOf items.now origin.0 request) }
    ensures read { IfOk result IsRead }
    ensures only { (request : ReadRequest) → IsReadOf items.now origin.0 request
        → IsUnless NoMemory result (Ok request) }
    ensures refused { IsErrOf result BadValue
        → (request : ReadRequest) → ¬ (IsReadOf items.now origin.0 request) }
{
    match query_of(items) {
        Some(query) => read_behind(alloc, items, origin.0, query),
        None => Err(RequestFault::BadValue),
    }
}

/// The read of items that ask for this, with the pairs that they name.
fn read_behind(
    alloc: Global,
    items: &Items,
    origin: u64,
    query: Query,
) -> Result<ReadRequest, RequestFault>
    ensures found { IfOk result (λ request. (request ≡ read_of query request.pairs)
        × NamesPairs origin items.now MAX_PAIRS 0 request.pairs) }
    ensures fit { IfOk result (λ request. ArePairs request.pairs × (length request.pairs ≤ MAX_PAIRS)) }
    ensures only { (pairs : List Pair) → NamesPairs origin items.now MAX_PAIRS 0 pairs
        → IsUnless NoMemory result (Ok (read_of query pairs)) }
    ensures refused { IsErrOf result BadValue
        → (pairs : List Pair) → ¬ (NamesPairs origin items.now MAX_PAIRS 0 pairs) }
{
    match pairs_of(alloc, items, origin)? {
        Some(pairs) => Ok(ReadRequest {
            filter: query.filter,
            limit: query.limit,
            frags: query.frags,
            pairs,
        }),
        None => Err(RequestFault::BadValue),
    }
}

/// The pairs that items name.
fn pairs_of(alloc: Global, items: &Items, origin: u64) -> Result<Option<Pairs>, RequestFault>
    ensures exactly { IfOk result
        (λ pairs. IsExactly (NamesPairs origin items.now MAX_PAIRS 0) pairs) }
    ensures fit { IfOk result (λ pairs. IfSome pairs ArePairs) }
    ensures no_memory { IfErr result (λ fault. fault ≡ NoMemory) }
{
    let mut pairs = Vec::new(alloc);
    while may_name(alloc, items, pairs.len())? {
        match pair_of(alloc, items, pairs.len(), origin)? {
            Some(pair) => pairs.push(pair)?,
            None => return Ok(None),
        }
    }
    if !name_none_from(alloc, items, pairs.len())? {
        return Ok(None);
    }
    Ok(Some(Pairs::of(pairs)))
}

/// Whether a number is one of a pair, and items have something of that pair.
fn may_name(alloc: Global, items: &Items, number: usize) -> Result<bool, RequestFault>
    ensures may { IfOk result (λ is. IsTrue is
        ↔ ((number < MAX_PAIRS) × ¬ (NamesNone items.now number))) }
    ensures no_memory { IfErr result (λ fault. fault ≡ NoMemory) }
{
    if number < MAX_PAIRS {
        Ok(!names_none(alloc, items, number)?)
    } else {
        Ok(false)
    }
}

/// Whether items name no pair from this number on.
fn name_none_from(alloc: Global, items: &Items, number: usize) -> Result<bool, RequestFault>
    requires { number ≤ MAX_PAIRS }
    ensures none { IfOk result (λ is. IsTrue is ↔ NamesNoneFrom items.now (MAX_PAIRS - number) number) }
    ensures no_memory { IfErr result (λ fault. fault ≡ NoMemory) }
{
    for place in number..MAX_PAIRS {
        if !names_none(alloc, items, place)? {
            return Ok(false);
        }
    }
    Ok(true)
}

/// Whether items name no pair of this number.
fn names_none(alloc: Global, items: &Items, number: usize) -> Result<bool, RequestFault>
    ensures none { IfOk result (λ is. IsTrue is ↔ NamesNone items.now number) }
    ensures no_memory { IfErr result (λ fault. fault ≡ NoMemory) }
{
    let addr = numbered(alloc, b"addr", number)?;
    let last = numbered(alloc, b"last", number)?;
    Ok(is_missing(items, addr.as_slice()) && is_missing(items, last.as_slice()))
}

/// The pair of a number that items name.
fn pair_of(
    alloc: Global,
    items: &Items,
    number: usize,
    origin: u64,
) -> Result<Option<Pair>, RequestFault>
    ensures exactly { IfOk result
        (λ pair. IsExactly (NamesPair origin items.now number) pair) }
    ensures fits { IfOk result (λ pair. IfSome pair IsPair) }
    ensures no_memory { IfErr result (λ fault. fault ≡ NoMemory) }
{
    let addr_name = numbered(alloc, b"addr", number)?;
    let last_name = numbered(alloc, b"last", number)?;
    Ok(pair_under(items, addr_name.as_slice(), last_name.as_slice(), origin))
}

/// The pair of an address and a time under these names.
fn pair_under(items: &Items, addr: &[u8], last: &[u8], origin: u64) -> Option<Pair>
    ensures exactly { IsExactly (IsPairUnder origin items.now addr.now last.now) result }
    ensures fits { IfSome result IsPair }
{
    let addr = address_of(items, addr)?;
    let last = stamp_of(items, last, origin)?;
    Some(Pair { addr, last })
}

/// What items ask for, but for the pairs that they name.
fn query_of(items: &Items) -> Option<Query>
    ensures exactly { IsExactly (AsksFor items.now) result }
    ensures fits { IfSome result IsQuery }
{
    if !has_nonce(items) {
        return None;
    }
    let limit = limit_of(items)?;
    let frags = number_of(items, b"frags", 1, MAX_FRAGS, MAX_FRAGS)?;
    if !is_bounded(items, limit) {
        return None;
    }
    let filter = filter_of(items)?;
    Some(Query {
        filter,
        limit,
        frags,
    })
}

fn has_nonce(items: &Items) -> bool
    ensures { IsTrue result ↔ HasNonce items.now }
{
    match only_value(items, b"nonce") {
        Some(_) => true,
        None => false,
    }
}

fn is_bounded(items: &Items, limit: Option<u32>) -> bool
    ensures { IsTrue result ↔ IsBounded items.now limit }
{
    limit.is_some() || !is_missing(items, b"frags")
}

/// Which clients items ask for.
fn filter_of(items: &Items) -> Option<MruFilter>
    ensures { IsExactly (AsksForClients items.now) result }
{
    let mincount = number_of(items, b"mincount", 1, u32::MAX, 1)?;
    let resall = mask_of(items, b"resall")?;
    let resany = mask_of(items, b"resany")?;
    Some(MruFilter {
        mincount,
        resall,
        resany,
    })
}

/// The limit that items give, or that they give none.
fn limit_of(items: &Items) -> Option<Option<u32>>
    ensures { IsExactly
        (IsOptional SpellsLimit None (values_of (codes "limit") items.now)) result }
{
    if is_missing(items, b"limit") {
        return Some(None);
    }
    match only_value(items, b"limit") {
        Some(value) => limit_in(value),
        None => None,
    }
}

fn limit_in(value: &[u8]) -> Option<Option<u32>>
    ensures { IsExactly (SpellsLimit value.now) result }
{
    match read_decimal_within(value, 1, MAX_LIMIT) {
        Some(limit) => Some(Some(limit)),
        None => None,
    }
}

/// The number of an item that may be left out.
fn number_of(items: &Items, name: &[u8], least: u32, most: u32, plain: u32) -> Option<u32>
    ensures { IsExactly
        (IsOptional (SpellsNumber least most) plain (values_of name.now items.now)) result }
{
    if is_missing(items, name) {
        return Some(plain);
    }
    match only_value(items, name) {
        Some(value) => read_decimal_within(value, least, most),
        None => None,
    }
}

/// The mask of an item that may be left out.
fn mask_of(items: &Items, name: &[u8]) -> Option<u16>
    ensures { IsExactly
        (IsOptional SpellsMask 0 (values_of name.now items.now)) result }
{
    if is_missing(items, name) {
        return Some(0);
    }
    match only_value(items, name) {
        Some(value) => mask_in(value),
        None => None,
    }
}

/// The address of an item.
fn address_of(items: &Items, name: &[u8]) -> Option<Addr>
    ensures { IsExactly
        (IsOnce (λ value addr. IsAddr addr × Spells value addr) (values_of name.now items.now))
        result }
{
    match only_value(items, name) {
        Some(value) => address_in(value),
        None => None,
    }
}

fn address_in(value: &[u8]) -> Option<Addr>
    ensures { IsExactly (λ addr. IsAddr addr × Spells value.now addr) result }
{
    read_named(value)
}

/// The stamp of an item that has a timestamp.
fn stamp_of(items: &Items, name: &[u8], origin: u64) -> Option<u64>
    ensures { IsExactly (IsOnce (TellsStamp origin) (values_of name.now items.now)) result }
{
    match only_value(items, name) {
        Some(value) => stamp_in(value, origin),
        None => None,
    }
}

fn stamp_in(value: &[u8], origin: u64) -> Option<u64>
    ensures { IsExactly (TellsStamp origin value.now) result }
{
    match read_stamp(value) {
        Some(time) => Some(time.wrapping_sub(origin)),
        None => None,
    }
}
