ghost use Rattle.std.specs.Prelude.{◌≡◌, ◌+◌, ◌*◌, ◌≤◌, ℕ, List, Ok, Err, Some, None, length, drop, IfOk, IfErr};
ghost use Rattle.std.specs.List.{prefix_len};
ghost use Rattle.refusals.specs.Refusals.{IsRefusedAt};
ghost use Rattle.refusals.specs.Told.{IsUnless, told_number};
ghost use Rattle.mode6_frame.specs.declared.items.Item.{Item};
ghost use Rattle.mode6_frame.specs.declared.items.ItemFault.TheVariants.{At, NoMemory};
ghost use Rattle.mode6_frame.specs.ItemReader.{IsSlotRead, IsUnclosedSlot, IsValueRead, IsUnclosedValue, IsToldAt, IsTrimmedAt, is_octet_at};
ghost use Rattle.mode6_frame.specs.Items.{IsItemText, IsDue, is_white, is_name_octet, is_quoted_octet, is_bare_octet};
ghost use Rattle.mode6_frame.specs.Readings.{items_read};

use crate::items::{Item, ItemFault, Items};
use edge_traits::Text;
use std::alloc::Global;

/// The items of a text: names that commas separate, each alone or with a value behind an equals
/// sign, with white space around all of these skipped (RFC 9327, section 4).
///
/// White space is space, tab, carriage return and line feed; where nothing else stands between two
/// commas there is no item. A name has octets from 33 to 126 without comma, equals sign and
/// quotation mark. A value stands in quotes and has octets from 32 to 126 without quotation mark;
/// or it is bare and has these octets and tab, without comma, and no white space at its ends.
pub fn read_items(alloc: Global, text: &[u8]) -> Result<Items, ItemFault>
    ensures found { IfOk result (λ items. IsItemText text.now items) }
    ensures only { (items : List Item) → IsItemText text.now items
        → IsUnless NoMemory result (Ok items) }
    ensures read { IfOk result (λ items. items_read text.now ≡ Some items) }
    ensures room { IfOk result (λ items. 2 * length items ≤ length text.now + 1) }

    // The refusals: want of memory comes freely, and the place exactly.
    ensures refused { IfErr result (IsDue text.now) }
    ensures refused_only { (octets : ℕ) → IsRefusedAt IsItemText text.now octets
        → IsUnless NoMemory result (Err (At (told_number octets))) }
    ensures unread { (place : ℕ) → result ≡ Err (At place) → items_read text.now ≡ None }
{
    let mut items = Vec::new(alloc);
    let mut at = 0;
    'slots: loop {
        let end = read_slot(alloc, text, at, &mut items)?;
        if end == text.len() {
            return Ok(Items::of(items));
        }
        if text[end] != b',' {
            return Err(refused_at(end));
        }
        at = end + 1;
    }
}

/// Where a value stands behind an equals sign, and where its slot ends.
#[derive(Clone, Copy)]
struct ValuePlace {
    begin: usize,
    end: usize,
    past: usize,
}

/// Adds the item of the slot that begins at a place, if it has one, and answers where the slot ends.
fn read_slot(
    alloc: Global,
    text: &[u8],
    at: usize,
    items: &mut Vec<Item>,
) -> Result<usize, ItemFault>
    requires { at ≤ length text.now }
    ensures read { IfOk result
        (λ end. IsSlotRead text.now at end items.old.items items.new.items) }
    ensures unclosed { IfErr result (IsToldAt (IsUnclosedSlot text.now at)) }
{
    let begin = past_white(text, at);
    let end = past_name(text, begin);
    if begin == end {
        return Ok(begin);
    }
    let past = past_white(text, end);
    if !is_at(text, past, b'=') {
        items.push(named(alloc, &text[begin..end])?)?;
        return Ok(past);
    }
    let place = value_at(text, past + 1)?;
    let value = &text[place.begin..place.end];
    items.push(valued(alloc, &text[begin..end], value)?)?;
    Ok(place.past)
}

/// Where the value stands behind the equals sign before a place.
fn value_at(text: &[u8], at: usize) -> Result<ValuePlace, ItemFault>
    requires { at ≤ length text.now }
    ensures read { IfOk result
        (λ place. IsValueRead text.now at place.begin place.end place.past) }
    ensures unclosed { IfErr result (IsToldAt (IsUnclosedValue text.now at)) }
{
    let begin = past_white(text, at);
    if is_at(text, begin, b'"') {
        let close = past_quoted(text, begin + 1);
        if !is_at(text, close, b'"') {
            return Err(refused_at(close));
        }
        return Ok(ValuePlace {
            begin: begin + 1,
            end: close,
            past: past_white(text, close + 1),
        });
    }
    let run = past_bare(text, begin);
    Ok(ValuePlace {
        begin,
        end: trimmed(text, begin, run),
        past: past_white(text, run),
    })
}

fn named(alloc: Global, name: &[u8]) -> Result<Item, ItemFault>
    ensures named { IfOk result (λ item. item ≡ record { name = name.now; value = None }) }
    ensures no_memory { IfErr result (λ fault. fault ≡ NoMemory) }
{
    Ok(Item {
        name: Text::of(Vec::from_slice(alloc, name)?),
        value: None,
    })
}

fn valued(alloc: Global, name: &[u8], value: &[u8]) -> Result<Item, ItemFault>
    ensures valued { IfOk result
        (λ item. item ≡ record { name = name.now; value = Some value.now }) }
    ensures no_memory { IfErr result (λ fault. fault ≡ NoMemory) }
{
    Ok(Item {
        name: Text::of(Vec::from_slice(alloc, name)?),
        value: Some(Text::of(Vec::from_slice(alloc, value)?)),
    })
}

fn refused_at(octets: usize) -> ItemFault
    ensures { result ≡ At (told_number octets) }
{
    ItemFault::At {
        place: octets.min(u32::MAX as usize) as u32,
    }
}

/// Where the white space ends that begins at a place.
fn past_white(text: &[u8], at: usize) -> usize
    requires { at ≤ length text.now }
    ensures past { result ≡ at + prefix_len is_white (drop at text.now) }
    ensures within { result ≤ length text.now }
{
    let mut end = at;
    while end < text.len() && is_white_octet(text[end]) {
        end += 1;
    }
    end
}

/// Where the octets of a name end that begin at a place.
fn past_name(text: &[u8], at: usize) -> usize
    requires { at ≤ length text.now }
    ensures past { result ≡ at + prefix_len is_name_octet (drop at text.now) }
    ensures within { result ≤ length text.now }
{
    let mut end = at;
    while end < text.len() && is_octet_of_name(text[end]) {
        end += 1;
    }
    end
}

/// Where the octets of a value in quotes end that begin at a place.
fn past_quoted(text: &[u8], at: usize) -> usize
    requires { at ≤ length text.now }
    ensures past { result ≡ at + prefix_len is_quoted_octet (drop at text.now) }
    ensures within { result ≤ length text.now }
{
    let mut end = at;
    while end < text.len() && is_octet_of_quoted(text[end]) {
        end += 1;
    }
    end
}

/// Where the octets of a bare value end that begin at a place, with spaces and tabs behind it.
fn past_bare(text: &[u8], at: usize) -> usize
    requires { at ≤ length text.now }
    ensures past { result ≡ at + prefix_len is_bare_octet (drop at text.now) }
    ensures within { result ≤ length text.now }
{
    let mut end = at;
    while end < text.len() && is_octet_of_bare(text[end]) {
        end += 1;
    }
    end
}

/// Where the white space begins that ends the octets from a place up to another.
fn trimmed(text: &[u8], begin: usize, end: usize) -> usize
    requires begun { begin ≤ end }
    requires within { end ≤ length text.now }
    ensures trimmed { IsTrimmedAt text.now begin result end }
{
    let mut cut = end;
    while cut > begin && is_white_octet(text[cut - 1]) {
        cut -= 1;
    }
    cut
}

fn is_at(text: &[u8], at: usize, octet: u8) -> bool
    ensures { result ≡ is_octet_at octet (drop at text.now) }
{
    at < text.len() && text[at] == octet
}

fn is_white_octet(octet: u8) -> bool
    ensures { result ≡ is_white octet }
{
    matches!(octet, b' ' | b'\t' | b'\r' | b'\n')
}

fn is_octet_of_name(octet: u8) -> bool
    ensures { result ≡ is_name_octet octet }
{
    (33..=126).contains(&octet) && !matches!(octet, b',' | b'=' | b'"')
}

fn is_octet_of_quoted(octet: u8) -> bool
    ensures { result ≡ is_quoted_octet octet }
{
    (32..=126).contains(&octet) && octet != b'"'
}

fn is_octet_of_bare(octet: u8) -> bool
    ensures { result ≡ is_bare_octet octet }
{
    (is_octet_of_quoted(octet) || octet == b'\t') && octet != b','
}
