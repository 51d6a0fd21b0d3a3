ghost use Rattle.std.specs.Prelude.{◌≡◌, ◌≤◌, ◌<◌, ◌^◌, ◌++◌, ℕ, List, Some, true, codes, length, IfSome, IfNone};
ghost use Rattle.std.specs.List.{list_all};
ghost use Rattle.std.specs.Str.Parse.{digits_value};
ghost use Rattle.hex.specs.Hex.{hex_digit_value, is_hex_digit};
ghost use Rattle.mru_items.specs.Values.{SpellsMask};
ghost use Rattle.ntpq_tool.specs.declared.masks.TheConstants.{MAX_DIGITS};

/// The most digits of a mask.
const MAX_DIGITS: usize = 4;

/// The mask that a text spells: `0x`, and one to four hexadecimal digits of either case.
pub fn read_mask(text: &[u8]) -> Option<u16>
    ensures found { IfSome result (SpellsMask text.now) }
    ensures only { (mask : ℕ) → SpellsMask text.now mask → result ≡ Some mask }
{
    let digits = digits_of(text)?;
    if digits.is_empty() || digits.len() > MAX_DIGITS {
        return None;
    }
    number_of(digits)
}

/// What stands behind `0x`.
fn digits_of(text: &[u8]) -> Option<&[u8]>
    ensures found { IfSome result (λ digits. text.now ≡ codes "0x" ++ digits.now) }
    ensures none { IfNone result ((digits : List ℕ) → ¬ (text.now ≡ codes "0x" ++ digits)) }
{
    match text {
        [b'0', b'x', digits @ ..] => Some(digits),
        _ => None,
    }
}

/// The number of up to four hexadecimal digits.
fn number_of(digits: &[u8]) -> Option<u16>
    requires { length digits.now ≤ MAX_DIGITS }
    ensures found { IfSome result (λ number. (list_all is_hex_digit digits.now ≡ true)
        × (digits_value 16 digits.now ≡ number)) }
    ensures none { IfNone result (¬ (list_all is_hex_digit digits.now ≡ true)) }
{
    let mut number = 0u32;
    for digit in digits {
        number = number * 16 + u32::from(read_digit(*digit)?);
    }
    Some(number as u16)
}

/// The number of a hexadecimal digit.
fn read_digit(digit: u8) -> Option<u8>
    ensures value { result ≡ hex_digit_value digit }
    ensures fits { IfSome result (λ number. number < 16) }
{
    match digit {
        b'A'..=b'F' => Some(digit - b'A' + 10),
        b'a'..=b'f' => Some(digit - b'a' + 10),
        b'0'..=b'9' => Some(digit - b'0'),
        _ => None,
    }
}
