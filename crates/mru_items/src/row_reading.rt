ghost use Rattle.std.specs.Prelude.{◌≡◌, ◌≤◌, ◌+◌, ◌-◌, ◌^◌, ℕ, Some, None, IfOk, IfErr, IfSome, IsErrOf, [], ◌<◌, codes, length, slice_index_or};
ghost use Rattle.mode6_frame.specs.declared.items.Item.{Item};
ghost use Rattle.std.specs.Int.{is_in_range};
ghost use Rattle.std.specs.List.{AllByRecursion, count_by, list_all};
ghost use Rattle.std.specs.Option.{option_copied};
ghost use Rattle.mode6_frame.specs.Stamps.{stamp_in};
ghost use Rattle.mru_items.specs.Answers.{Among, IsFoundAs, IsFoundRow, IsShownRow, has_each, row_in, rows_in, told_by};
ghost use Rattle.mru_items.specs.Names.{are_digits, has_number, numbered, the_one, values_of};
ghost use Rattle.mru_items.specs.Values.{flags_in, number_in};
ghost use Rattle.mru_items.specs.declared.answer_reading.AnswerFault.TheVariants.{BadReply, NoMemory};
ghost use Rattle.net_addr.specs.Readings.{addr_in};
ghost use Rattle.net_addr.specs.Addresses.{IsAddr};

use crate::answer_reading::AnswerFault;
use crate::lookup::{next_named, value_at};
use crate::shown::{Shown, ShownRow};
use crate::value_reading::{address_in, flags_in, number_in};
use crate::value_text::numbered;
use mode6_frame::{Items, read_stamp};
use net_addr::Addr;
use std::alloc::Global;

/// The rows that items tell. Where they stand in their order, each is looked at a few times.
#[tactic(auto, unfolding(crate::specs::Answers::rows_in))]
pub(crate) fn rows_of(alloc: Global, items: &Items) -> Result<Shown, AnswerFault>
    ensures told { IfOk result (λ rows. rows_in items.now ≡ Some rows) }
    ensures fit { IfOk result (AllByRecursion IsShownRow) }
    ensures bad { IsErrOf result BadReply → rows_in items.now ≡ None }
{
    let count = count_numbered(items, b"addr.");
    if !has_each(items, count) {
        return Err(AnswerFault::BadReply);
    }
    let mut rows = Vec::new(alloc);
    let mut place = 0;
    for number in 0..count {
        rows.push(row_from(alloc, items, number, &mut place)?)?;
    }
    Ok(Shown::of(rows))
}

/// Whether there are so many items of each of the six words.
fn has_each(items: &Items, count: usize) -> bool
    ensures { result ≡ has_each items.now count }
{
    count_numbered(items, b"addr.") == count
        && count_numbered(items, b"last.") == count
        && count_numbered(items, b"first.") == count
        && count_numbered(items, b"ct.") == count
        && count_numbered(items, b"mv.") == count
        && count_numbered(items, b"rs.") == count
}

/// How many items have a name that is this front and digits.
fn count_numbered(items: &Items, front: &[u8]) -> usize
    ensures value { result ≡ count_by (λ item. has_number front.now item.name) items.now }
    ensures few { result ≤ length items.now }
{
    let mut count = 0;
    for place in 0..items.len() {
        if has_number(front, items.get(place).name.as_slice()) {
            count += 1;
        }
    }
    count
}

fn has_number(front: &[u8], name: &[u8]) -> bool
    ensures { result ≡ has_number front.now name.now }
{
    name.starts_with(front) && are_digits(&name[front.len()..])
}

fn are_digits(digits: &[u8]) -> bool
    ensures { result ≡ are_digits digits.now }
{
    0 < digits.len() && are_all_digits(digits)
}

fn are_all_digits(digits: &[u8]) -> bool
    ensures { result ≡ list_all (is_in_range 48 57) digits.now }
{
    digits.iter().all(|digit| is_digit(*digit))
}

fn is_digit(octet: u8) -> bool
    ensures { result ≡ is_in_range 48 57 octet }
{
    (b'0'..=b'9').contains(&octet)
}

/// The row of a number. Its items are looked for from a place on, and then from the first.
fn row_from(
    alloc: Global,
    items: &Items,
    number: usize,
    place: &mut usize,
) -> Result<ShownRow, AnswerFault>
    requires { place.old ≤ length items.now }
    ensures found { IfOk result (IsFoundRow items.now number) }
    ensures fits { IfOk result IsShownRow }
    ensures bad { IsErrOf result BadReply → row_in items.now number ≡ None }
    ensures within { place.new ≤ length items.now }
{
    let addr = address_from(alloc, items, number, place)?;
    let last = stamp_from(alloc, items, b"last", number, place)?;
    let first = stamp_from(alloc, items, b"first", number, place)?;
    let count = number_from(alloc, items, b"ct", number, u32::MAX, place)?;
    let mv = number_from(alloc, items, b"mv", number, 255, place)? as u8;
    let flags = flags_from(alloc, items, number, place)?;
    Ok(ShownRow {
        addr,
        last,
        first,
        count,
        mv,
        flags,
    })
}

fn address_from(
    alloc: Global,
    items: &Items,
    number: usize,
    place: &mut usize,
) -> Result<Addr, AnswerFault>
    requires { place.old ≤ length items.now }
    ensures found { IfOk result
        (IsFoundAs addr_in (values_of (numbered (codes "addr") number) items.now)) }
    ensures fits { IfOk result IsAddr }
    ensures bad { IsErrOf result BadReply
        → told_by addr_in (values_of (numbered (codes "addr") number) items.now) ≡ None }
    ensures within { place.new ≤ length items.now }
{
    match address_in(value_from(alloc, items, b"addr", number, place)?) {
        Some(addr) => Ok(addr),
        None => Err(AnswerFault::BadReply),
    }
}

fn stamp_from(
    alloc: Global,
    items: &Items,
    word: &[u8],
    number: usize,
    place: &mut usize,
) -> Result<u64, AnswerFault>
    requires { place.old ≤ length items.now }
    ensures found { IfOk result
        (IsFoundAs stamp_in (values_of (numbered word.now number) items.now)) }
    ensures bad { IsErrOf result BadReply
        → told_by stamp_in (values_of (numbered word.now number) items.now) ≡ None }
    ensures within { place.new ≤ length items.now }
{
    match read_stamp(value_from(alloc, items, word, number, place)?) {
        Some(time) => Ok(time),
        None => Err(AnswerFault::BadReply),
    }
}

fn number_from(
    alloc: Global,
    items: &Items,
    word: &[u8],
    number: usize,
    most: u32,
    place: &mut usize,
) -> Result<u32, AnswerFault>
    requires { place.old ≤ length items.now }
    ensures found { IfOk result
        (IsFoundAs (number_in 0 most) (values_of (numbered word.now number) items.now)) }
    ensures few { IfOk result (λ number. number ≤ most) }
    ensures bad { IsErrOf result BadReply
        → told_by (number_in 0 most) (values_of (numbered word.now number) items.now) ≡ None }
    ensures within { place.new ≤ length items.now }
{
    match number_in(value_from(alloc, items, word, number, place)?, 0, most) {
        Some(number) => Ok(number),
        None => Err(AnswerFault::BadReply),
    }
}

fn flags_from(
    alloc: Global,
    items: &Items,
    number: usize,
    place: &mut usize,
) -> Result<u16, AnswerFault>
    requires { place.old ≤ length items.now }
    ensures found { IfOk result
        (IsFoundAs flags_in (values_of (numbered (codes "rs") number) items.now)) }
    ensures bad { IsErrOf result BadReply
        → told_by flags_in (values_of (numbered (codes "rs") number) items.now) ≡ None }
    ensures within { place.new ≤ length items.now }
{
    match flags_in(value_from(alloc, items, b"rs", number, place)?) {
        Some(flags) => Ok(flags),
        None => Err(AnswerFault::BadReply),
    }
}

/// A value of a name that ends in a number, of the first such item from a place on, or else of the
/// first of all. The place is then behind that item.
fn value_from<'a>(
    alloc: Global,
    items: &'a Items,
    word: &[u8],
    number: usize,
    place: &mut usize,
) -> Result<&'a [u8], AnswerFault>
    requires { place.old ≤ length items.now }
    ensures found { IfOk result
        (λ value. Among (values_of (numbered word.now number) items.now) (Some value.now)) }
    ensures bad { IsErrOf result BadReply
        → the_one (values_of (numbered word.now number) items.now) ≡ None }
    ensures within { place.new ≤ length items.now }
{
    let name = numbered(alloc, word, number)?;
    let at = place_of(items, name.as_slice(), *place);
    if at == items.len() {
        return Err(AnswerFault::BadReply);
    }
    *place = at + 1;
    match value_at(items, at) {
        Some(value) => Ok(value),
        None => Err(AnswerFault::BadReply),
    }
}

/// The place of an item of a name: of the first from a place on, or else of the first of all.
fn place_of(items: &Items, name: &[u8], from: usize) -> usize
    requires { from ≤ length items.now }
    ensures within { result ≤ length items.now }
    ensures none { result ≡ length items.now → values_of name.now items.now ≡ [] }
    ensures found { (d : Item) → result < length items.now
        → Among (values_of name.now items.now) (slice_index_or items.now result d).value }
{
    let at = next_named(items, name, from);
    if at < items.len() {
        return at;
    }
    next_named(items, name, 0)
}
