ghost use Rattle.std.specs.Prelude.{◌≡◌, ◌++◌, OnOk, decimal, replicate};
ghost use Rattle.ntpq_report.specs.Fields.{space, left_in, right_in, hex_word};

use itoa::Buffer;
use std::alloc::{AllocError, Global};

/// Appends a text at the left of a column, and the spaces that fill the column up.
pub(crate) fn put_left(text: &mut Vec<u8>, width: usize, field: &[u8]) -> Result<(), AllocError>
    ensures { OnOk result (text.new.items ≡ text.old.items ++ left_in width field.now) }
{
    text.extend_from_slice(field)?;
    put_spaces(text, width.saturating_sub(field.len()))
}

/// Appends a text at the right of a column, behind the spaces that fill the column up.
pub(crate) fn put_right(text: &mut Vec<u8>, width: usize, field: &[u8]) -> Result<(), AllocError>
    ensures { OnOk result (text.new.items ≡ text.old.items ++ right_in width field.now) }
{
    put_spaces(text, width.saturating_sub(field.len()))?;
    text.extend_from_slice(field)
}

/// Appends so many spaces.
fn put_spaces(text: &mut Vec<u8>, count: usize) -> Result<(), AllocError>
    ensures { OnOk result (text.new.items ≡ text.old.items ++ replicate count space) }
{
    for _place in 0..count {
        text.push(b' ')?;
    }
    Ok(())
}

/// Appends a number in decimal digits at the right of a column.
pub(crate) fn put_number(text: &mut Vec<u8>, width: usize, number: usize) -> Result<(), AllocError>
    ensures { OnOk result (text.new.items ≡ text.old.items ++ right_in width (decimal number)) }
{
    let mut digits = Buffer::new();
    put_right(text, width, digits.format(number).as_bytes())
}

/// Appends a word of 16 bits in four hexadecimal digits.
pub(crate) fn put_hex_word(alloc: Global, text: &mut Vec<u8>, word: u16) -> Result<(), AllocError>
    ensures { OnOk result (text.new.items ≡ text.old.items ++ hex_word word) }
{
    let octets = word.to_be_bytes();
    text.extend_from_slice(hex::encode(alloc, octets.as_slice())?.as_bytes())
}
