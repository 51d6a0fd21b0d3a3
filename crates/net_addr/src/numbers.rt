ghost use Rattle.std.specs.Prelude.{◌≡◌, ◌≢◌, ◌+◌, ◌^◌, ◌<◌, ◌≤◌, ℕ, List, [], ◌∷◌, ◌++◌, Some, IfSome, IfNone, All, length, drop, slice_index, decimal};
ghost use Rattle.std.specs.Char.{digit_value};
ghost use Rattle.net_addr.specs.Cuts.{cut_parts};

use text_words::read_decimal;

/// What stands before the last mark of a text, and the decimal number after it, where that has no
/// leading zeros.
pub(crate) fn cut_number(text: &[u8], mark: u8) -> Option<(&[u8], u16)>
    requires { 10 ≤ digit_value mark }
    ensures found { IfSome result (λ cut. text.now ≡ cut.0.now ++ mark ∷ [] ++ decimal cut.1) }
    ensures fits { IfSome result (λ cut. cut.1 < 2 ^ 16) }
    ensures only { (front : List ℕ) → (n : ℕ) → n < 2 ^ 16
        → text.now ≡ front ++ mark ∷ [] ++ decimal n
        → cut_parts result ≡ Some (front, n) }
{
    let Some(place) = last_place(text, mark) else {
        return None;
    };
    match read_number(&text[place + 1..]) {
        Some(n) => Some((&text[..place], n)),
        None => None,
    }
}

/// The place of the last mark of a text.
fn last_place(text: &[u8], mark: u8) -> Option<usize>
    ensures within { IfSome result (λ place. place < length text.now) }
    ensures marked { IfSome result (λ place. slice_index text.now place ≡ mark) }
    ensures last { IfSome result (λ place. All (λ octet. octet ≢ mark)
        (drop (place + 1) text.now)) }
    ensures none { IfNone result (All (λ octet. octet ≢ mark) text.now) }
{
    let mut rest = text.len();
    while rest > 0 {
        if text[rest - 1] == mark {
            return Some(rest - 1);
        }
        rest -= 1;
    }
    None
}

/// The number of 16 bits that the digits write in decimal, without leading zeros.
fn read_number(digits: &[u8]) -> Option<u16>
    ensures found { IfSome result (λ n. digits.now ≡ decimal n) }
    ensures fits { IfSome result (λ n. n < 2 ^ 16) }
    ensures only { (n : ℕ) → n < 2 ^ 16 → digits.now ≡ decimal n → result ≡ Some n }
{
    match read_decimal(digits) {
        Some(n) if n <= u32::from(u16::MAX) => Some(n as u16),
        _ => None,
    }
}
