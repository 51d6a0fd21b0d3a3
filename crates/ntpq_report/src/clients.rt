ghost use Rattle.std.specs.Prelude.{◌≡◌, ◌++◌, ◌%◌, ◌/◌, ◌<◌, ◌≤◌, IfOk, OnOk, codes, decimal};
ghost use Rattle.std.specs.Char.{digit_char};
ghost use Rattle.std.specs.Net.Text as Groups;
ghost use Rattle.ntpq_report.specs.Fields.{right_in};
ghost use Rattle.ntpq_report.specs.Clients.{average_interval, client_line, mru_report, seconds_after};

use crate::fields::{put_number, put_right};
use edge_traits::Text;
use fixed_time::{Ntp64, diff};
use itoa::Buffer;
use mru_items::ShownRow;
use mrulist_reader::Listing;
use net_addr::write_ip;
use std::alloc::{AllocError, Global};

/// The width of the columns of seconds.
pub const INTERVAL_WIDTH: usize = 6;

/// The width of the column of restrict flags.
pub const FLAGS_WIDTH: usize = 4;

/// The width of the column of arrivals.
pub const COUNT_WIDTH: usize = 6;

/// The width of the column of ports.
pub const PORT_WIDTH: usize = 5;

/// The clients of a listing, a line for each under a heading, in the listing's order: the whole
/// seconds since its last arrival and between two arrivals on the average, its restrict flags in
/// hexadecimal digits, the mode and the version of its last arrival, how often it arrived, its port
/// and its IP address. A number that is wider than its column stands whole.
pub fn mru_report(alloc: Global, listing: &Listing) -> Result<Text, AllocError>
    ensures { IfOk result (λ text. text ≡ mru_report listing.entry.now) }
{
    let heading = b"lstint avgint rstr m v  count rport remote address\n";
    let mut text = Vec::from_slice(alloc, heading)?;
    for place in 0..listing.rows.len() {
        put_client(&mut text, listing.now, listing.rows.get(place))?;
    }
    Ok(Text::of(text))
}

/// Appends the line of a client, as of this time.
fn put_client(text: &mut Vec<u8>, now: u64, row: &ShownRow) -> Result<(), AllocError>
    ensures { OnOk result (text.new.items ≡ text.old.items ++ client_line now row.now) }
{
    put_number(text, INTERVAL_WIDTH, seconds_after(now, row.last) as usize)?;
    put_next_number(text, INTERVAL_WIDTH, average_interval(row))?;
    put_flags(text, row.flags)?;
    put_digits(text, row.mv % 8)?;
    put_digits(text, row.mv / 8)?;
    put_next_number(text, COUNT_WIDTH, u64::from(row.count))?;
    put_next_number(text, PORT_WIDTH, u64::from(row.addr.port))?;
    put_next(text, write_ip(&row.addr.ip).as_slice())?;
    text.push(b'\n')?;
    Ok(())
}

/// Appends a space, and a number in decimal digits at the right of a column.
fn put_next_number(text: &mut Vec<u8>, width: usize, number: u64) -> Result<(), AllocError>
    ensures { OnOk result
        (text.new.items ≡ text.old.items ++ codes " " ++ right_in width (decimal number)) }
{
    text.push(b' ')?;
    put_number(text, width, number as usize)
}

/// Appends a space, and a number in decimal digits.
fn put_digits(text: &mut Vec<u8>, number: u8) -> Result<(), AllocError>
    ensures { OnOk result (text.new.items ≡ text.old.items ++ codes " " ++ decimal number) }
{
    let mut digits = Buffer::new();
    put_next(text, digits.format(number).as_bytes())
}

/// Appends a space and a text.
fn put_next(text: &mut Vec<u8>, field: &[u8]) -> Result<(), AllocError>
    ensures { OnOk result (text.new.items ≡ text.old.items ++ codes " " ++ field.now) }
{
    text.push(b' ')?;
    text.extend_from_slice(field)
}

/// Appends a space, and flags in their column in hexadecimal digits without leading zeros.
#[tactic(auto, unfolding(std::specs::Net::Text::hex))]
fn put_flags(text: &mut Vec<u8>, flags: u16) -> Result<(), AllocError>
    ensures { OnOk result (text.new.items
        ≡ text.old.items ++ codes " " ++ right_in FLAGS_WIDTH (Groups.hex flags)) }
{
    let digits = [
        hex_digit(flags / 0x1000),
        hex_digit(flags / 0x100 % 16),
        hex_digit(flags / 0x10 % 16),
        hex_digit(flags % 16),
    ];
    text.push(b' ')?;
    put_right(text, FLAGS_WIDTH, &digits[leading_zero_digits(flags)..])
}

fn hex_digit(digit: u16) -> u8
    requires { digit < 16 }
    ensures { result ≡ digit_char digit }
{
    if digit < 10 {
        b'0' + digit as u8
    } else {
        b'a' + (digit - 10) as u8
    }
}

/// How many of four hexadecimal digits are leading zeros, the last digit apart.
fn leading_zero_digits(flags: u16) -> usize
    ensures value { result ≡ Groups.leading_zero_digits flags }
    ensures within { result < 4 }
{
    match flags {
        0x1000.. => 0,
        0x100.. => 1,
        0x10.. => 2,
        _ => 3,
    }
}

/// How many whole seconds lie between two arrivals of a client on the average.
fn average_interval(row: &ShownRow) -> u64
    ensures { result ≡ average_interval row.now }
{
    if row.count < 2 {
        return 0;
    }
    seconds_after(row.last, row.first) / u64::from(row.count - 1)
}

/// How many whole seconds a timestamp is later than another, 0 where it is earlier.
fn seconds_after(later: u64, earlier: u64) -> u64
    ensures { result ≡ seconds_after later earlier }
{
    let span = diff(Ntp64(later), Ntp64(earlier)).0;
    if span.is_negative() {
        return 0;
    }
    span.unsigned_abs() / (1 << 32)
}
