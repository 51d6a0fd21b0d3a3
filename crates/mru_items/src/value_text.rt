ghost use Rattle.std.specs.Prelude.{◌≡◌, ◌<◌, ◌++◌, ◌∷◌, [], IfOk, OnOk, codes, decimal};
ghost use Rattle.std.specs.Char.{digit_char};
ghost use Rattle.std.specs.Net.Text as Groups;
ghost use Rattle.mode6_frame.specs.Stamps.{stamp_text};
ghost use Rattle.mru_items.specs.Names.{numbered, valued};
ghost use Rattle.mru_items.specs.Values.{flags_text, mask_text};
ghost use Rattle.net_addr.specs.Spelling.{text_of};

use itoa::Buffer;
use mode6_frame::{Item, Text, put_stamp};
use net_addr::{Addr, write_text};
use std::alloc::{AllocError, Global};

/// These octets.
pub(crate) fn fixed(alloc: Global, octets: &[u8]) -> Result<Text, AllocError>
    ensures { IfOk result (λ text. text ≡ octets.now) }
{
    Ok(Text::of(Vec::from_slice(alloc, octets)?))
}

/// An address with its port.
pub(crate) fn address(alloc: Global, addr: &Addr) -> Result<Text, AllocError>
    ensures { IfOk result (λ text. text ≡ text_of addr.now) }
{
    fixed(alloc, write_text(addr).as_slice())
}

/// A timestamp of 32.32 seconds.
pub(crate) fn stamp(alloc: Global, time: u64) -> Result<Text, AllocError>
    ensures { IfOk result (λ text. text ≡ stamp_text time) }
{
    let mut text = Vec::new(alloc);
    put_stamp(alloc, &mut text, time)?;
    Ok(Text::of(text))
}

/// A number in decimal digits.
pub(crate) fn number(alloc: Global, number: u32) -> Result<Text, AllocError>
    ensures { IfOk result (λ text. text ≡ decimal number) }
{
    let mut digits = Buffer::new();
    fixed(alloc, digits.format(number).as_bytes())
}

/// Flags in hexadecimal digits without leading zeros.
#[tactic(auto, unfolding(std::specs::Net::Text::hex))]
pub(crate) fn flags(alloc: Global, flags: u16) -> Result<Text, AllocError>
    ensures { IfOk result (λ text. text ≡ flags_text flags) }
{
    let digits = [
        hex_digit(flags / 0x1000),
        hex_digit(flags / 0x100 % 16),
        hex_digit(flags / 0x10 % 16),
        hex_digit(flags % 16),
    ];
    let mut text = Vec::from_slice(alloc, b"0x")?;
    text.extend_from_slice(&digits[leading_zero_digits(flags)..])?;
    Ok(Text::of(text))
}

/// A mask in four hexadecimal digits.
pub(crate) fn mask(alloc: Global, mask: u16) -> Result<Text, AllocError>
    ensures { IfOk result (λ text. text ≡ mask_text mask) }
{
    let mut text = Vec::from_slice(alloc, b"0x")?;
    text.extend_from_slice(hex::encode(alloc, mask.to_be_bytes())?.as_bytes())?;
    Ok(Text::of(text))
}

fn hex_digit(digit: u16) -> u8
    requires { digit < 16 }
    ensures { result ≡ digit_char digit }
{
    if digit < 10 {
        b'0' + digit as u8
    } else {
        b'a' + (digit - 10) as u8
    }
}

/// How many of four hexadecimal digits are leading zeros, the last digit apart.
pub(crate) fn leading_zero_digits(flags: u16) -> usize
    ensures value { result ≡ Groups.leading_zero_digits flags }
    ensures within { result < 4 }
{
    match flags {
        0x1000.. => 0,
        0x100.. => 1,
        0x10.. => 2,
        _ => 3,
    }
}

/// Appends an item with a value.
pub(crate) fn add(
    alloc: Global,
    items: &mut Vec<Item>,
    name: &[u8],
    value: Text,
) -> Result<(), AllocError>
    ensures { OnOk result (items.new.items ≡ items.old.items ++ valued name.now value ∷ []) }
{
    items.push(Item {
        name: fixed(alloc, name)?,
        value: Some(value),
    })?;
    Ok(())
}

/// Appends an item with a value, whose name is a word, a point and a number.
pub(crate) fn add_numbered(
    alloc: Global,
    items: &mut Vec<Item>,
    word: &[u8],
    number: usize,
    value: Text,
) -> Result<(), AllocError>
    ensures { OnOk result
        (items.new.items ≡ items.old.items ++ valued (numbered word.now number) value ∷ []) }
{
    items.push(Item {
        name: numbered(alloc, word, number)?,
        value: Some(value),
    })?;
    Ok(())
}

/// A name that is a word, a point and a number.
pub(crate) fn numbered(alloc: Global, word: &[u8], number: usize) -> Result<Text, AllocError>
    ensures { IfOk result (λ name. name ≡ numbered word.now number) }
{
    let mut name = Vec::from_slice(alloc, word)?;
    name.push(b'.')?;
    let mut digits = Buffer::new();
    name.extend_from_slice(digits.format(number).as_bytes())?;
    Ok(Text::of(name))
}
