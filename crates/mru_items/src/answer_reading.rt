ghost use Rattle.std.specs.Prelude.{◌≡◌, ◌<◌, ◌^◌, Some, None, IfOk, IfSome, IsErrOf, codes, option_map};
ghost use Rattle.std.specs.List.{list_all};
ghost use Rattle.mode6_frame.specs.Items.{AreNameOctets, is_name_octet};
ghost use Rattle.mode6_frame.specs.Readings.{items_read};
ghost use Rattle.mru_items.specs.Answers.{IsAnswer, IsOlder, IsTime, answer_in, answer_told, nonce_in, nonce_told, nonce_value, older_by, pair_by, time_by};
ghost use Rattle.mru_items.specs.Names.{values_of};
ghost use Rattle.mode6_frame.specs.Stamps as Stamps;
ghost use Rattle.net_addr.specs.Addresses.{IsAddr};
ghost use Rattle.mru_items.specs.declared.answer_reading.AnswerFault.TheVariants.{BadReply};

use crate::answer::{NONCE_OCTETS, Nonce, PageAnswer};
use crate::lookup::{is_missing, only_value};
use crate::pair::Pair;
use crate::row_reading::rows_of;
use crate::value_reading::address_in;
use mode6_frame::{ItemFault, Items, read_items, read_stamp};
use std::alloc::{AllocError, AllocFailed, Global};

/// Why there is no answer in a text.
#[derive(Clone, Copy, Debug, PartialEq, Eq)]
pub enum AnswerFault {
    /// It has no items, or an item stands twice or is wanting, or a value is out of its form.
    BadReply,
    /// Memory was wanting.
    NoMemory,
}

impl From<AllocError> for AnswerFault {
    ghost use Rattle.std.specs.Prelude.{◌≡◌};
    ghost use Rattle.mru_items.specs.declared.answer_reading.AnswerFault.TheVariants.{NoMemory};

    ghost from_gives = { λ _ fault. fault ≡ NoMemory };

    fn from(_: AllocError) -> AnswerFault {
        AnswerFault::NoMemory
    }
}

impl<T: Drop> From<AllocFailed<T>> for AnswerFault {
    ghost use Rattle.std.specs.Prelude.{◌≡◌};
    ghost use Rattle.mru_items.specs.declared.answer_reading.AnswerFault.TheVariants.{NoMemory};

    ghost from_gives = { λ _ fault. fault ≡ NoMemory };

    fn from(_: AllocFailed<T>) -> AnswerFault {
        AnswerFault::NoMemory
    }
}

/// The page that the text of an answer to a read tells. Where the items of rows stand in their order
/// this takes a number of steps that is bounded by the octets of the text; where they don't, each item
/// of a row is looked for in the whole.
#[tactic(auto, unfolding(crate::specs::Answers::answer_told))]
pub fn read_answer(alloc: Global, text: &[u8]) -> Result<PageAnswer, AnswerFault>
    ensures told { IfOk result (λ answer. answer_told text.now ≡ Some answer) }
    ensures answer { IfOk result IsAnswer }
    ensures bad { IsErrOf result BadReply → answer_told text.now ≡ None }
{
    let items = items_of(alloc, text)?;
    answer_of(alloc, &items)
}

/// The page that items tell.
#[tactic(auto, unfolding(crate::specs::Answers::answer_in))]
fn answer_of(alloc: Global, items: &Items) -> Result<PageAnswer, AnswerFault>
    ensures told { IfOk result (λ answer. answer_in items.now ≡ Some answer) }
    ensures answer { IfOk result IsAnswer }
    ensures bad { IsErrOf result BadReply → answer_in items.now ≡ None }
{
    let nonce = told(nonce_in(items))?;
    let older = told(older_in(items))?;
    let rows = rows_of(alloc, items)?;
    let ended = told(time_in(items, b"now"))?;
    let newest = told(time_in(items, b"last.newest"))?;
    Ok(PageAnswer {
        nonce,
        older,
        rows,
        ended,
        newest,
    })
}

/// What is told, or the fault of an answer that doesn't.
fn told<T: Copy>(what: Option<T>) -> Result<T, AnswerFault>
    ensures told { IfOk result (λ it. what ≡ Some it) }
    ensures bad { IsErrOf result BadReply → what ≡ None }
{
    match what {
        Some(it) => Ok(it),
        None => Err(AnswerFault::BadReply),
    }
}

/// The client behind which the page begins.
fn older_in(items: &Items) -> Option<Option<Pair>>
    ensures value { result ≡ older_by
        (values_of (codes "addr.older") items.now) (values_of (codes "last.older") items.now) }
    ensures fits { IfSome result IsOlder }
{
    if is_missing(items, b"addr.older") && is_missing(items, b"last.older") {
        return Some(None);
    }
    match pair_in(items, b"addr.older", b"last.older") {
        Some(pair) => Some(Some(pair)),
        None => None,
    }
}

/// The client that two items tell.
fn pair_in(items: &Items, addr: &[u8], last: &[u8]) -> Option<Pair>
    ensures value { result ≡ pair_by (values_of addr.now items.now) (values_of last.now items.now) }
    ensures fits { IfSome result (λ pair. IsAddr pair.addr × (pair.last < 2 ^ 64)) }
{
    let addr = address_in(only_value(items, addr)?)?;
    let last = read_stamp(only_value(items, last)?)?;
    Some(Pair { addr, last })
}

/// The time of an item that may be left out.
fn time_in(items: &Items, name: &[u8]) -> Option<Option<u64>>
    ensures value { result ≡ time_by (values_of name.now items.now) }
    ensures fits { IfSome result IsTime }
{
    if is_missing(items, name) {
        return Some(None);
    }
    match only_value(items, name) {
        Some(value) => stamp_in(value),
        None => None,
    }
}

fn stamp_in(value: &[u8]) -> Option<Option<u64>>
    ensures value { result ≡ option_map Some (Stamps.stamp_in value.now) }
    ensures fits { IfSome result IsTime }
{
    match read_stamp(value) {
        Some(time) => Some(Some(time)),
        None => None,
    }
}

/// The nonce that the text of an answer to a request for one tells.
#[tactic(auto, unfolding(crate::specs::Answers::nonce_told))]
pub fn read_nonce(alloc: Global, text: &[u8]) -> Result<Nonce, AnswerFault>
    ensures told { IfOk result (λ nonce. nonce_told text.now ≡ Some nonce) }
    ensures bare { IfOk result AreNameOctets }
    ensures bad { IsErrOf result BadReply → nonce_told text.now ≡ None }
{
    let items = items_of(alloc, text)?;
    match nonce_in(&items) {
        Some(nonce) => Ok(nonce),
        None => Err(AnswerFault::BadReply),
    }
}

/// The items of a text.
fn items_of(alloc: Global, text: &[u8]) -> Result<Items, AnswerFault>
    ensures read { IfOk result (λ items. items_read text.now ≡ Some items) }
    ensures unread { IsErrOf result BadReply → items_read text.now ≡ None }
{
    match read_items(alloc, text) {
        Ok(items) => Ok(items),
        Err(ItemFault::At { .. }) => Err(AnswerFault::BadReply),
        Err(ItemFault::NoMemory) => Err(AnswerFault::NoMemory),
    }
}

/// The nonce that items tell.
#[tactic(auto, unfolding(crate::specs::Answers::nonce_in))]
fn nonce_in(items: &Items) -> Option<Nonce>
    ensures value { result ≡ nonce_in items.now }
    ensures bare { IfSome result AreNameOctets }
{
    nonce_value(only_value(items, b"nonce")?)
}

fn nonce_value(value: &[u8]) -> Option<Nonce>
    ensures value { result ≡ nonce_value value.now }
    ensures bare { IfSome result AreNameOctets }
{
    if value.len() != NONCE_OCTETS || !is_bare(value) {
        return None;
    }
    let mut nonce = [0; NONCE_OCTETS];
    nonce.copy_from_slice(value);
    Some(nonce)
}

/// Whether all octets are visible, and none is a comma, an equals sign or a quotation mark.
fn is_bare(value: &[u8]) -> bool
    ensures { result ≡ list_all is_name_octet value.now }
{
    value.iter().all(|octet| is_bare_octet(*octet))
}

fn is_bare_octet(octet: u8) -> bool
    ensures { result ≡ is_name_octet octet }
{
    (33..=126).contains(&octet) && !matches!(octet, b',' | b'=' | b'"')
}
