ghost use Rattle.std.specs.Prelude.{◌≡◌, ◌≤◌, ◌<◌, ℕ, List, [], ◌∷◌, ◌++◌, codes, decimal, length, reverse, slice_index_or, IfOk, OnOk};
ghost use Rattle.std.specs.List.{join_by, sum_by};
ghost use Rattle.mode6_frame.specs.Cuts.{width_of};
ghost use Rattle.mode6_frame.specs.Items.{AreNameOctets};
ghost use Rattle.mode6_frame.specs.ItemTexts.{item_text};
ghost use Rattle.mode6_frame.specs.declared.message.TheConstants.{MAX_BODY};
ghost use Rattle.mru_items.specs.declared.pair.Pair.{Pair};
ghost use Rattle.mru_items.specs.declared.pair.TheConstants.{MAX_PAIRS};
ghost use Rattle.mru_items.specs.declared.query_writing.TheConstants.{MAX_HEAD};
ghost use Rattle.mru_items.specs.Queries.{IsLimit, IsQuery, limit_items, mask_items, mincount_items, named_of, pair_items, read_of, request_items, request_len, request_text};

use crate::answer::{NONCE_OCTETS, Nonce};
use crate::pair::{MAX_PAIRS, Pair, Pairs};
use crate::query::Query;
use crate::value_text::{add, add_numbered, address, fixed, mask, number, stamp};
use edge_traits::Text;
use itoa::Buffer;
use mode6_frame::{Item, Items, MAX_BODY, put_item};
use net_addr::write_text;
use std::alloc::{AllocError, Global};

/// The most octets of the body of a read that names no pairs.
const MAX_HEAD: usize = 103;

/// The pairs that a read names of those that a client has seen, oldest first: the newest of them,
/// newest first, as many as fit into one datagram, and 16 at most. Times are timestamps.
pub fn named_pairs(alloc: Global, query: &Query, seen: &[Pair]) -> Result<Pairs, AllocError>
    requires { IsQuery query.now }
    ensures named { IfOk result (λ pairs. pairs ≡ named_of query.now (reverse seen.now)) }
    ensures fits { IfOk result (λ pairs. request_len (read_of query.now pairs) ≤ MAX_BODY) }
{
    let mut pairs = Vec::new(alloc);
    let mut room = MAX_BODY - head_len(query);
    for count in 0..seen.len().min(MAX_PAIRS) {
        let pair = newest(seen, count);
        let needed = pair_len(count, &pair);
        if needed > room {
            return Ok(Pairs::of(pairs));
        }
        room -= needed;
        pairs.push(pair)?;
    }
    Ok(Pairs::of(pairs))
}

/// The pair behind so many newer ones.
fn newest(seen: &[Pair], count: usize) -> Pair
    requires { count < length seen.now }
    ensures { (d : Pair) → result ≡ slice_index_or (reverse seen.now) count d }
{
    seen[seen.len() - 1 - count]
}

/// How many octets the body of a read has that names no pairs.
fn head_len(query: &Query) -> usize
    requires { IsQuery query.now }
    ensures value { result ≡ request_len (read_of query.now []) }
    ensures few { result ≤ MAX_HEAD }
{
    let filter = query.filter;
    let bounds = 14 + NONCE_OCTETS + digit_count(query.frags) + limit_len(query.limit);
    bounds + mincount_len(filter.mincount) + mask_len(filter.resall) + mask_len(filter.resany)
}

/// How many octets the item of a limit adds.
fn limit_len(limit: Option<u32>) -> usize
    requires { IsLimit limit }
    ensures value { result ≡ sum_by width_of (limit_items limit) }
    ensures few { result ≤ 11 }
{
    match limit {
        None => 0,
        Some(limit) => 8 + digit_count(limit),
    }
}

/// How many octets the item of the least count adds.
fn mincount_len(mincount: u32) -> usize
    ensures value { result ≡ sum_by width_of (mincount_items mincount) }
    ensures few { result ≤ 21 }
{
    if mincount == 1 {
        return 0;
    }
    11 + digit_count(mincount)
}

/// How many octets the item of a mask adds, which has a name of six.
fn mask_len(mask: u16) -> usize
    ensures value { (name : List ℕ) → length name ≡ 6
        → result ≡ sum_by width_of (mask_items name mask) }
    ensures few { result ≤ 15 }
{
    if mask == 0 { 0 } else { 15 }
}

/// How many octets the items of a pair add.
fn pair_len(number: usize, pair: &Pair) -> usize
    requires { number < MAX_PAIRS }
    ensures value { result ≡ sum_by width_of (pair_items number (pair.now ∷ [])) }
{
    let mut digits = Buffer::new();
    35 + 2 * digits.format(number).len() + write_text(&pair.addr).len()
}

/// How many decimal digits a number has.
fn digit_count(number: u32) -> usize
    ensures value { result ≡ length (decimal number) }
    ensures few { result ≤ 10 }
    ensures three { number < 1000 → result ≤ 3 }
{
    let mut digits = Buffer::new();
    digits.format(number).len()
}

/// The body of the request that asks for a page so, with this nonce, and names these pairs.
#[tactic(auto, using(crate::proofs::RoomLemmas::text_len), unfolding(crate::specs::Queries::request_text))]
pub fn request_text(
    alloc: Global,
    nonce: &Nonce,
    query: &Query,
    pairs: &Pairs,
) -> Result<Text, AllocError>
    requires { IsQuery query.now }
    ensures text { IfOk result (λ text.
        text ≡ request_text nonce.now (read_of query.now pairs.now)) }
    ensures len { AreNameOctets nonce.now → IfOk result (λ text.
        length text ≡ request_len (read_of query.now pairs.now)) }
{
    let items = request_items(alloc, nonce, query, pairs)?;
    let text = joined(alloc, &items)?;
    Ok(text)
}

/// The items by which a client asks for a page so.
#[tactic(auto, unfolding(crate::specs::Queries::request_items))]
fn request_items(
    alloc: Global,
    nonce: &Nonce,
    query: &Query,
    pairs: &Pairs,
) -> Result<Items, AllocError>
    ensures { IfOk result (λ items. items ≡ request_items nonce.now (read_of query.now pairs.now)) }
{
    let mut items = Vec::new(alloc);
    add(alloc, &mut items, b"nonce", fixed(alloc, nonce)?)?;
    add(alloc, &mut items, b"frags", number(alloc, query.frags)?)?;
    put_limit(alloc, &mut items, query.limit)?;
    put_mincount(alloc, &mut items, query.filter.mincount)?;
    put_mask(alloc, &mut items, b"resall", query.filter.resall)?;
    put_mask(alloc, &mut items, b"resany", query.filter.resany)?;
    put_pairs(alloc, &mut items, pairs.as_slice())?;
    Ok(Items::of(items))
}

/// Appends the item of a limit, where one is given.
fn put_limit(alloc: Global, items: &mut Vec<Item>, limit: Option<u32>) -> Result<(), AllocError>
    ensures { OnOk result (items.new.items ≡ items.old.items ++ limit_items limit) }
{
    match limit {
        None => Ok(()),
        Some(limit) => add(alloc, items, b"limit", number(alloc, limit)?),
    }
}

/// Appends the item of the least count, where it is not 1.
fn put_mincount(alloc: Global, items: &mut Vec<Item>, mincount: u32) -> Result<(), AllocError>
    ensures { OnOk result (items.new.items ≡ items.old.items ++ mincount_items mincount) }
{
    if mincount == 1 {
        return Ok(());
    }
    add(alloc, items, b"mincount", number(alloc, mincount)?)
}

/// Appends the item of a mask, where it is not 0.
fn put_mask(alloc: Global, items: &mut Vec<Item>, name: &[u8], flags: u16) -> Result<(), AllocError>
    ensures { OnOk result (items.new.items ≡ items.old.items ++ mask_items name.now flags) }
{
    if flags == 0 {
        return Ok(());
    }
    add(alloc, items, name, mask(alloc, flags)?)
}

/// Appends the items of pairs, numbered from 0 on.
fn put_pairs(alloc: Global, items: &mut Vec<Item>, pairs: &[Pair]) -> Result<(), AllocError>
    ensures { OnOk result (items.new.items ≡ items.old.items ++ pair_items 0 pairs.now) }
{
    for place in 0..pairs.len() {
        add_numbered(
            alloc,
            items,
            b"addr",
            place,
            address(alloc, &pairs[place].addr)?,
        )?;
        add_numbered(
            alloc,
            items,
            b"last",
            place,
            stamp(alloc, pairs[place].last)?,
        )?;
    }
    Ok(())
}

/// The texts of items, with a comma and a space between two.
fn joined(alloc: Global, items: &Items) -> Result<Text, AllocError>
    ensures { IfOk result (λ text. text ≡ join_by item_text (codes ", ") items.now) }
{
    let mut text = Vec::new(alloc);
    if items.len() == 0 {
        return Ok(Text::of(text));
    }
    put_item(&mut text, items.get(0))?;
    for place in 1..items.len() {
        text.extend_from_slice(b", ")?;
        put_item(&mut text, items.get(place))?;
    }
    Ok(Text::of(text))
}
