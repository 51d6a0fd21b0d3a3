ghost use Rattle.std.specs.Prelude.{◌≡◌, ◌^◌, ◌<◌, ℕ, Some, IfSome, decimal};
ghost use Rattle.text_words.specs.Numbers.{SpellsNumber};

use itoa::Buffer;
use std::str;

/// The number of 64 bits that a word spells in decimal, without leading zeros.
pub fn read_decimal_u64(word: &[u8]) -> Option<u64>
    ensures found { IfSome result (λ number. word.now ≡ decimal number) }
    ensures fits { IfSome result (λ number. number < 2 ^ 64) }
    ensures only { (number : ℕ) → number < 2 ^ 64 → word.now ≡ decimal number
        → result ≡ Some number }
{
    let Ok(text) = str::from_utf8(word) else {
        return None;
    };
    let Ok(number) = text.parse::<u64>() else {
        return None;
    };
    // std takes a sign and leading zeros, which no number here has.
    if Buffer::new().format(number).as_bytes() == word {
        Some(number)
    } else {
        None
    }
}

/// The number of 32 bits that a word spells in decimal, without leading zeros.
pub fn read_decimal(word: &[u8]) -> Option<u32>
    ensures found { IfSome result (λ number. word.now ≡ decimal number) }
    ensures fits { IfSome result (λ number. number < 2 ^ 32) }
    ensures only { (number : ℕ) → number < 2 ^ 32 → word.now ≡ decimal number
        → result ≡ Some number }
{
    let number = read_decimal_u64(word)?;
    u32::try_from(number).ok()
}

/// The number from `least` to `most` that a word spells in decimal, without leading zeros.
pub fn read_decimal_within(word: &[u8], least: u32, most: u32) -> Option<u32>
    ensures found { IfSome result (SpellsNumber least most word.now) }
    ensures only { (number : ℕ) → SpellsNumber least most word.now number
        → result ≡ Some number }
{
    let number = read_decimal(word)?;
    if number < least || number > most {
        return None;
    }
    Some(number)
}

#[cfg(test)]
mod tests {
    use super::*;

    #[test]
    fn a_number_is_spelled_in_one_way(rt: HostRuntime) {
        for (word, number) in [
            (b"0".as_slice(), Some(0)),
            (b"4294967295".as_slice(), Some(4_294_967_295)),
            (b"4294967296".as_slice(), None),
            (b"00".as_slice(), None),
            (b"+1".as_slice(), None),
            (b"".as_slice(), None),
        ] {
            assert_eq!(rt; read_decimal(word), number, "{word:?}");
        }
        for (word, number) in [
            (b"18446744073709551615".as_slice(), Some(u64::MAX)),
            (b"18446744073709551616".as_slice(), None),
            (b"007".as_slice(), None),
        ] {
            assert_eq!(rt; read_decimal_u64(word), number, "{word:?}");
        }
        for (number, is_within) in [(b"3".as_slice(), false), (b"4".as_slice(), true)] {
            assert_eq!(rt; read_decimal_within(number, 4, 17).is_some(), is_within);
        }
    }
}
