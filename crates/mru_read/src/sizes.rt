ghost use Rattle.std.specs.Prelude.{◌≡◌, ◌≤◌, ◌<◌, ◌+◌, ◌^◌, ◌&&◌, length, nat_le, decimal};
ghost use Rattle.std.specs.Net.Text.{hex};
ghost use Rattle.mode6_frame.specs.declared.cutting.TheConstants.{MAX_ITEM};
ghost use Rattle.net_addr.specs.Addresses.{IsAddr};
ghost use Rattle.net_addr.specs.Spelling.{text_of};
ghost use Rattle.mru_read.specs.Pages.{is_within};
ghost use Rattle.mru_read.specs.Sizes.{IsMeasure, end_lengths, front_lengths, measured, no_items, one_more, parts_in, row_lengths};

use mode6_frame::{MAX_BODY, STAMP_LEN};
use mru_items::{MAX_FRAGS, Pair, ReadRequest};
use net_addr::{Addr, write_text};
use recency::Row;

/// The octets of a tag as an item.
const TAG_OCTETS: usize = 23;

/// What the items of an answer take so far, by the lengths of their texts.
#[derive(Clone, Copy, Debug, PartialEq, Eq)]
pub(crate) struct Measure {
    /// The octets of the plain text, up to one more than a datagram holds.
    pub(crate) plain: usize,
    /// The octets of the part under way.
    pub(crate) used: usize,
    /// The parts begun, up to one more than a page may have.
    pub(crate) begun: usize,
}

/// The items before the rows of a page.
pub(crate) fn front_size(confirmed: &Option<Pair>) -> Measure
    ensures measure { result ≡ measured no_items (front_lengths confirmed.now) }
    ensures bounds { IsMeasure result }
{
    let nonce = with_item(
        &Measure {
            plain: 0,
            used: TAG_OCTETS,
            begun: 1,
        },
        30,
    );
    match confirmed {
        None => nonce,
        Some(pair) => with_item(
            &with_item(&nonce, 11 + addr_len(&pair.addr)),
            11 + STAMP_LEN,
        ),
    }
}

/// The items with those of a row of this number, from 0.
pub(crate) fn with_row(size: &Measure, number: usize, row: &Row) -> Measure
    requires { IsMeasure size.now }
    ensures measure { result ≡ measured size.now (row_lengths number row.now) }
    ensures bounds { IsMeasure result }
{
    let digits = decimal_len(number as u64);
    let addr = addr_len(&Addr {
        ip: row.ip,
        port: row.port,
    });
    let size = with_item(size, 6 + digits + addr);
    let size = with_item(&size, 6 + digits + STAMP_LEN);
    let size = with_item(&size, 7 + digits + STAMP_LEN);
    let size = with_item(&size, 4 + digits + decimal_len(u64::from(row.count)));
    let size = with_item(&size, 4 + digits + decimal_len(u64::from(row.mv)));
    with_item(&size, 6 + digits + hex_len(row.flags))
}

/// The items with those that end the list, whose newest client arrived last at this time.
pub(crate) fn with_end(size: &Measure, newest: &Option<u64>) -> Measure
    requires { IsMeasure size.now }
    ensures measure { result ≡ measured size.now (end_lengths newest.now) }
    ensures bounds { IsMeasure result }
{
    let size = with_item(size, 4 + STAMP_LEN);
    match newest {
        None => size,
        Some(_) => with_item(&size, 12 + STAMP_LEN),
    }
}

/// Whether a read allows so many rows, with items that take so much.
pub(crate) fn is_allowed(request: &ReadRequest, count: usize, size: &Measure) -> bool
    ensures { result ≡ (is_within request.now.limit count
        && nat_le (parts_in size.now) request.now.frags) }
{
    is_within(&request.limit, count) && parts_in(size) <= request.frags as usize
}

/// Whether a limit allows so many rows.
fn is_within(limit: &Option<u32>, count: usize) -> bool
    ensures { result ≡ is_within limit.now count }
{
    match limit {
        None => true,
        Some(limit) => count <= *limit as usize,
    }
}

/// How many datagrams the items take.
fn parts_in(size: &Measure) -> usize
    ensures { result ≡ parts_in size.now }
{
    if size.plain <= MAX_BODY {
        1
    } else {
        size.begun
    }
}

/// The items with one more, whose text has so many octets.
#[tactic(auto, unfolding(crate::specs::Sizes::one_more))]
fn with_item(size: &Measure, len: usize) -> Measure
    requires len { len ≤ MAX_ITEM }
    requires bounds { IsMeasure size.now }
    ensures measure { result ≡ one_more size.now len }
    ensures bounds { IsMeasure result }
{
    let plain = (size.plain + (2 + len)).min(MAX_BODY + 1);
    if size.used + (2 + len) + 3 <= MAX_BODY {
        return Measure {
            plain,
            used: size.used + (2 + len),
            begun: size.begun,
        };
    }
    Measure {
        plain,
        used: TAG_OCTETS + (2 + len),
        begun: (size.begun + 1).min(MAX_FRAGS as usize + 1),
    }
}

/// The octets of an address with its port.
fn addr_len(addr: &Addr) -> usize
    ensures len { result ≡ length (text_of addr.now) }
    ensures at_most { result ≤ 48 }
    ensures fits { IsAddr addr.now }
{
    write_text(addr).len()
}

/// The octets of a number in decimal.
fn decimal_len(number: u64) -> usize
    ensures len { result ≡ length (decimal number) }
    ensures at_most { result ≤ 20 }
    ensures fits { number < 2 ^ 64 }
{
    let mut digits = 1;
    let mut left = number;
    while left >= 10 {
        left /= 10;
        digits += 1;
    }
    digits
}

/// The octets of flags in hexadecimal, without leading zeros.
#[tactic(auto, unfolding(std::specs::Net::Text::hex))]
fn hex_len(flags: u16) -> usize
    ensures len { result ≡ length (hex flags) }
    ensures at_most { result ≤ 4 }
    ensures fits { flags < 2 ^ 16 }
{
    if flags >= 0x1000 {
        return 4;
    }
    if flags >= 0x100 {
        return 3;
    }
    if flags >= 0x10 {
        return 2;
    }
    1
}
