ghost use Rattle.std.specs.Prelude.{◌≡◌, ◌≤◌, ℕ, Some, IfSome, length};
ghost use Rattle.std.specs.Net.Text as Groups;
ghost use Rattle.std.specs.Option.{option_copied};
ghost use Rattle.mode6_frame.specs.Stamps.{hex_in};
ghost use Rattle.mru_items.specs.Values.{SpellsMask, flags_in, mask_digits, number_in};
ghost use Rattle.net_addr.specs.Addresses.{IsAddr};
ghost use Rattle.net_addr.specs.Readings.{addr_in};

use crate::value_text::leading_zero_digits;
use mode6_frame::read_hexadecimal;
use net_addr::{Addr, read_named};
use text_words::read_decimal_within;

/// The address that a value spells with its port.
pub(crate) fn address_in(value: &[u8]) -> Option<Addr>
    ensures value { result ≡ addr_in value.now }
    ensures fits { IfSome result IsAddr }
{
    read_named(value)
}

/// The number from `least` to `most` that a value tells in decimal.
pub(crate) fn number_in(value: &[u8], least: u32, most: u32) -> Option<u32>
    ensures value { result ≡ number_in least most value.now }
{
    read_decimal_within(value, least, most)
}

/// The flags that a value tells in hexadecimal digits, of either case and without leading zeros.
pub(crate) fn flags_in(value: &[u8]) -> Option<u16>
    ensures value { result ≡ flags_in value.now }
{
    let digits = digits_of(value)?;
    let flags = hexadecimal(digits)?;
    if digits.len() == digit_count(flags) {
        Some(flags)
    } else {
        None
    }
}

/// The mask that a value tells in one to four hexadecimal digits, of either case.
pub(crate) fn mask_in(value: &[u8]) -> Option<u16>
    ensures found { IfSome result (SpellsMask value.now) }
    ensures only { (mask : ℕ) → SpellsMask value.now mask → result ≡ Some mask }
{
    hexadecimal(digits_of(value)?)
}

/// One to four octets behind `0x`.
fn digits_of(value: &[u8]) -> Option<&[u8]>
    ensures value { option_copied result ≡ mask_digits value.now }
    ensures few { IfSome result (λ digits. length digits.now ≤ 4) }
{
    if value.len() < 3 || value.len() > 6 || &value[..2] != b"0x".as_slice() {
        return None;
    }
    Some(&value[2..])
}

/// The number of up to four hexadecimal digits.
fn hexadecimal(digits: &[u8]) -> Option<u16>
    requires { length digits.now ≤ 4 }
    ensures { result ≡ hex_in digits.now }
{
    match read_hexadecimal(digits) {
        Some(number) => Some(number as u16),
        None => None,
    }
}

/// How many hexadecimal digits a number has without leading zeros.
#[tactic(auto, unfolding(std::specs::Net::Text::hex))]
fn digit_count(number: u16) -> usize
    ensures { result ≡ length (Groups.hex number) }
{
    4 - leading_zero_digits(number)
}
