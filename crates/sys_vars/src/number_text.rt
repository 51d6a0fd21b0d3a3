ghost use Rattle.std.specs.Prelude.{◌≡◌, ◌≤◌, ◌<◌, ◌+◌, ◌*◌, ◌/◌, ◌%◌, ◌^◌, ◌++◌, ◌==◌, ◌&&◌, ◌∷◌, [], not, if◌then◌else◌, IfOk, OnOk, codes, decimal, length};
ghost use Rattle.std.specs.Fmt.{signed_decimal};
ghost use Rattle.hex.specs.Hex.{encode_lower};
ghost use Rattle.std.specs.Int.{to_be_bytes, w32};
ghost use Rattle.sys_vars.specs.Variables.{IsPlainValue};
ghost use Rattle.mode6_frame.specs.Stamps.{stamp_text};
ghost use Rattle.sys_vars.specs.Texts.{IsWord, frequency_millionths, millionths_text, ms_text, nanoseconds, ppm_text, reach_text, signed_ms_text, six_digits};

use fixed_time::{Ntp64, Span};
use itoa::Buffer;
use mode6_frame::Text;
use std::alloc::{AllocError, Global};

/// These octets.
pub(crate) fn fixed(alloc: Global, octets: &[u8]) -> Result<Text, AllocError>
    ensures value { IfOk result (λ text. text ≡ octets.now) }
    ensures short { IfOk result (λ text. length text ≡ length octets.now) }
    ensures plain { IsPlainValue octets.now → IfOk result IsPlainValue }
{
    Ok(Text::of(Vec::from_slice(alloc, octets)?))
}

/// A number in decimal digits.
pub(crate) fn natural(alloc: Global, number: u64) -> Result<Text, AllocError>
    ensures value { IfOk result (λ text. text ≡ decimal number) }
    ensures short { IfOk result (λ text. length text ≤ 20) }
    ensures plain { IfOk result IsPlainValue }
{
    let mut digits = Buffer::new();
    fixed(alloc, digits.format(number).as_bytes())
}

/// A number in decimal digits, with a minus in front of a negative one.
pub(crate) fn integer(alloc: Global, number: i8) -> Result<Text, AllocError>
    ensures value { IfOk result (λ text. text ≡ signed_decimal number) }
    ensures short { IfOk result (λ text. length text ≤ 20) }
    ensures plain { IfOk result IsPlainValue }
{
    let mut digits = Buffer::new();
    fixed(alloc, digits.format(number).as_bytes())
}

/// A time of 32.32 seconds in milliseconds.
pub(crate) fn milliseconds(alloc: Global, time: u64) -> Result<Text, AllocError>
    ensures value { IfOk result (λ text. text ≡ ms_text time) }
    ensures short { IfOk result (λ text. length text ≤ 28) }
    ensures plain { IfOk result IsPlainValue }
{
    let mut text = Vec::new(alloc);
    put_ms(&mut text, time)?;
    Ok(Text::of(text))
}

/// A signed time of 32.32 seconds in milliseconds.
pub(crate) fn signed_milliseconds(alloc: Global, time: Span) -> Result<Text, AllocError>
    ensures value { IfOk result (λ text. text ≡ signed_ms_text time.0) }
    ensures short { IfOk result (λ text. length text ≤ 28) }
    ensures plain { IfOk result IsPlainValue }
{
    let mut text = Vec::new(alloc);
    put_signed_ms(&mut text, time)?;
    Ok(Text::of(text))
}

/// A frequency in units of 2^-32 in parts per million.
#[tactic(auto, unfolding(crate::specs::Texts::ppm_text))]
pub(crate) fn parts_per_million(alloc: Global, frequency: i32) -> Result<Text, AllocError>
    ensures value { IfOk result (λ text. text ≡ ppm_text frequency) }
    ensures short { IfOk result (λ text. length text ≤ 28) }
    ensures plain { IfOk result IsPlainValue }
{
    let mut text = Vec::new(alloc);
    let millionths = frequency_millionths(frequency.unsigned_abs());
    put_signed(&mut text, frequency < 0, millionths)?;
    Ok(Text::of(text))
}

/// Whole millionths of a part per million in a frequency in units of 2^-32.
fn frequency_millionths(frequency: u32) -> u64
    ensures { result ≡ frequency_millionths frequency }
{
    (u128::from(frequency) * 1_000_000_000_000 / (1 << 32)) as u64
}

/// Whole nanoseconds in a time of 32.32 seconds.
fn nanoseconds(time: u64) -> u64
    ensures { result ≡ nanoseconds time }
{
    (u128::from(time) * 1_000_000_000 / (1 << 32)) as u64
}

/// Appends a time of 32.32 seconds in milliseconds.
#[tactic(auto, unfolding(crate::specs::Texts::ms_text))]
pub(crate) fn put_ms(text: &mut Vec<u8>, time: u64) -> Result<(), AllocError>
    ensures value { OnOk result (text.new.items ≡ text.old.items ++ ms_text time) }
    ensures longer { OnOk result (length text.new.items ≤ length text.old.items + 27) }
    ensures word { OnOk result (IsWord (ms_text time)) }
{
    put_millionths(text, nanoseconds(time))
}

/// Appends a signed time of 32.32 seconds in milliseconds.
#[tactic(auto, unfolding(crate::specs::Texts::signed_ms_text, crate::specs::Texts::ms_text))]
pub(crate) fn put_signed_ms(text: &mut Vec<u8>, time: Span) -> Result<(), AllocError>
    ensures value { OnOk result (text.new.items ≡ text.old.items ++ signed_ms_text time.0) }
    ensures longer { OnOk result (length text.new.items ≤ length text.old.items + 28) }
    ensures word { OnOk result (IsWord (signed_ms_text time.0)) }
{
    put_signed(text, time.0 < 0, nanoseconds(time.0.unsigned_abs()))
}

/// Appends so many millionths of a number, with a minus in front of a negative one.
fn put_signed(text: &mut Vec<u8>, is_negative: bool, millionths: u64) -> Result<(), AllocError>
    ensures value { OnOk result (text.new.items ≡ text.old.items
        ++ ((if is_negative && not (millionths == 0) then codes "-" else [])
        ++ millionths_text millionths)) }
    ensures longer { OnOk result (length text.new.items ≤ length text.old.items + 28) }
    ensures word { OnOk result (IsWord
        ((if is_negative && not (millionths == 0) then codes "-" else [])
        ++ millionths_text millionths)) }
{
    put_minus(text, is_negative, millionths)?;
    put_millionths(text, millionths)
}

/// Appends the minus of a negative number, where its millionths are not 0.
fn put_minus(text: &mut Vec<u8>, is_negative: bool, millionths: u64) -> Result<(), AllocError>
    ensures value { OnOk result (text.new.items
        ≡ text.old.items ++ (if is_negative && not (millionths == 0) then codes "-" else [])) }
    ensures longer { OnOk result (length text.new.items ≤ length text.old.items + 1) }
{
    if is_negative && millionths != 0 {
        text.push(b'-')?;
    }
    Ok(())
}

/// Appends so many millionths as a decimal number.
fn put_millionths(text: &mut Vec<u8>, millionths: u64) -> Result<(), AllocError>
    ensures value { OnOk result (text.new.items ≡ text.old.items ++ millionths_text millionths) }
    ensures longer { OnOk result (length text.new.items ≤ length text.old.items + 27) }
    ensures word { OnOk result (IsWord (millionths_text millionths)) }
{
    let mut digits = Buffer::new();
    text.extend_from_slice(digits.format(millionths / 1_000_000).as_bytes())?;
    text.push(b'.')?;
    text.extend_from_slice(&six_digits(millionths))
}

/// The last six decimal digits of a number.
fn six_digits(number: u64) -> [u8; 6]
    ensures { result ≡ six_digits number }
{
    [
        digit(number / 100_000),
        digit(number / 10_000),
        digit(number / 1000),
        digit(number / 100),
        digit(number / 10),
        digit(number),
    ]
}

/// The last decimal digit of a number.
fn digit(number: u64) -> u8
    ensures { result ≡ 48 + number % 10 }
{
    b'0' + (number % 10) as u8
}

/// A timestamp in hexadecimal digits: the seconds, a point, and the fraction.
#[tactic(auto, unfolding(mode6_frame::specs::Stamps::stamp_text))]
pub(crate) fn stamp(alloc: Global, time: Ntp64) -> Result<Text, AllocError>
    ensures value { IfOk result (λ text. text ≡ stamp_text time.0) }
    ensures short { IfOk result (λ text. length text ≤ 19) }
    ensures plain { IfOk result IsPlainValue }
{
    let mut text = Vec::from_slice(alloc, b"0x")?;
    put_word(alloc, &mut text, (time.0 / (1 << 32)) as u32)?;
    text.push(b'.')?;
    put_word(alloc, &mut text, (time.0 % (1 << 32)) as u32)?;
    Ok(Text::of(text))
}

/// Appends eight hexadecimal digits.
fn put_word(alloc: Global, text: &mut Vec<u8>, word: u32) -> Result<(), AllocError>
    ensures value { OnOk result
        (text.new.items ≡ text.old.items ++ encode_lower (to_be_bytes w32 word)) }
    ensures longer { OnOk result (length text.new.items ≡ length text.old.items + 8) }
{
    text.extend_from_slice(hex::encode(alloc, word.to_be_bytes())?.as_bytes())
}

/// A reach register in three octal digits.
#[tactic(auto, unfolding(crate::specs::Texts::reach_text))]
pub(crate) fn reach(alloc: Global, reach: u8) -> Result<Text, AllocError>
    ensures value { IfOk result (λ text. text ≡ reach_text reach) }
    ensures short { IfOk result (λ text. length text ≡ 3) }
    ensures plain { IfOk result IsPlainValue }
{
    let digits = [
        b'0' + reach / 64 % 8,
        b'0' + reach / 8 % 8,
        b'0' + reach % 8,
    ];
    fixed(alloc, &digits)
}
