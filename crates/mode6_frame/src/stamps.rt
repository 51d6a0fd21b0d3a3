ghost use Rattle.std.specs.Prelude.{◌≡◌, ◌+◌, ◌≤◌, ◌<◌, ◌^◌, ◌++◌, Some, IfSome, IsTrue, OnOk, length};
ghost use Rattle.std.specs.Int.{to_be_bytes, w32};
ghost use Rattle.hex.specs.Hex.{encode_lower, hex_digit_value};
ghost use Rattle.mode6_frame.specs.Stamps.{hex_in, is_marked, stamp_digits, stamp_in, stamp_text};
ghost use Rattle.mode6_frame.specs.declared.stamps.TheConstants.{STAMP_LEN, MAX_DIGITS};

use std::alloc::{AllocError, Global};

/// How many octets the text of a timestamp has.
pub const STAMP_LEN: usize = 19;

/// The hexadecimal digits of 64 bits.
pub const MAX_DIGITS: usize = 16;

/// Appends the text of a timestamp of 32.32 seconds: the seconds, a point, and the fraction.
#[tactic(auto, unfolding(crate::specs::Stamps::stamp_text))]
pub fn put_stamp(alloc: Global, text: &mut Vec<u8>, time: u64) -> Result<(), AllocError>
    ensures value { OnOk result (text.new.items ≡ text.old.items ++ stamp_text time) }
    ensures longer { OnOk result (length text.new.items ≡ length text.old.items + STAMP_LEN) }
{
    text.extend_from_slice(b"0x")?;
    put_word(alloc, text, (time / (1 << 32)) as u32)?;
    text.push(b'.')?;
    put_word(alloc, text, (time % (1 << 32)) as u32)
}

/// Appends eight hexadecimal digits.
fn put_word(alloc: Global, text: &mut Vec<u8>, word: u32) -> Result<(), AllocError>
    ensures value { OnOk result
        (text.new.items ≡ text.old.items ++ encode_lower (to_be_bytes w32 word)) }
    ensures longer { OnOk result (length text.new.items ≡ length text.old.items + 8) }
{
    text.extend_from_slice(hex::encode(alloc, word.to_be_bytes())?.as_bytes())
}

/// The timestamp that a text tells, as `put_stamp` writes it, with digits of either case.
#[tactic(auto, unfolding(crate::specs::Stamps::stamp_in))]
pub fn read_stamp(text: &[u8]) -> Option<u64>
    ensures value { result ≡ stamp_in text.now }
    ensures fits { IfSome result (λ time. time < 2 ^ 64) }
{
    if !is_marked(text) {
        return None;
    }
    read_hexadecimal(&digits_of(text))
}

/// Whether a text has the length and the marks of a timestamp.
fn is_marked(text: &[u8]) -> bool
    ensures value { result ≡ is_marked text.now }
    ensures long { IsTrue result → length text.now ≡ STAMP_LEN }
{
    text.len() == STAMP_LEN && &text[..2] == b"0x".as_slice() && &text[10..11] == b".".as_slice()
}

/// The sixteen digits of a text that is as long as a timestamp.
fn digits_of(text: &[u8]) -> [u8; MAX_DIGITS]
    requires { length text.now ≡ STAMP_LEN }
    ensures value { result ≡ stamp_digits text.now }
{
    let mut digits = [0; MAX_DIGITS];
    digits[..8].copy_from_slice(&text[2..10]);
    digits[8..].copy_from_slice(&text[11..]);
    digits
}

/// The number of up to sixteen hexadecimal digits, of either case.
pub fn read_hexadecimal(digits: &[u8]) -> Option<u64>
    requires { length digits.now ≤ MAX_DIGITS }
    ensures value { result ≡ hex_in digits.now }
    ensures fits { IfSome result (λ number. number < 16 ^ length digits.now) }
{
    let mut number = 0;
    for digit in digits {
        number = number * 16 + u64::from(read_digit(*digit)?);
    }
    Some(number)
}

/// The number of a hexadecimal digit.
fn read_digit(digit: u8) -> Option<u8>
    ensures value { result ≡ hex_digit_value digit }
    ensures fits { IfSome result (λ number. number < 16) }
{
    match digit {
        b'A'..=b'F' => Some(digit - b'A' + 10),
        b'a'..=b'f' => Some(digit - b'a' + 10),
        b'0'..=b'9' => Some(digit - b'0'),
        _ => None,
    }
}

/// The timestamp that is written is the one that is read back.
pub fn written_stamps_are_read_back(time: u64)
    ensures { stamp_in (stamp_text time) ≡ Some time }
{}
