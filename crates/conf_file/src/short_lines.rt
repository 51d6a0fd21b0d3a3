ghost use Rattle.std.specs.Prelude.{◌≡◌, ◌∷◌, ℕ, ℤ, List, Some, IfSome, IfNone, IfOk, IfErr, IsOkAnd};
ghost use Rattle.std.specs.List.{list_all};
ghost use Rattle.conf_file.specs.Options.{IsReadAs, IsRefusedFrom};
ghost use Rattle.conf_file.specs.ShortLines.{IsFrequencyWord, IsOnly, SpellsFrequency, SpellsKeys, SpellsLocal, is_name_octet};
ghost use Rattle.conf_file.specs.declared.lines.Line.{Line};
ghost use Rattle.conf_file.specs.declared.lines.Line.TheVariants.{Keys};

use crate::frequencies::Frequency;
use crate::lines::Line;
use discipline::MAX_FREQUENCY;
use text_words::{Words, read_decimal_within};

/// The greatest stratum at which a server may serve its own clock (RFC 5905, section 7.3: 16 is
/// unsynchronized).
pub const MAX_LOCAL_STRATUM: u32 = 15;

/// What the words after `local` mean: a stratum of 1 to 15.
pub fn local_line(words: &mut Words<'_>) -> Result<Line, u32>
    ensures { IsReadAs 2 (IsOnly SpellsLocal) words.old result }
{
    let Some(word) = words.next() else {
        return Err(2);
    };
    let Some(stratum) = read_decimal_within(word, 1, MAX_LOCAL_STRATUM) else {
        return Err(2);
    };
    match words.next() {
        Some(_) => Err(3),
        None => Ok(Line::Local(stratum as u8)),
    }
}

/// What the words after `frequency` mean: a frequency of at most 500 ppm either way.
pub fn frequency_line(words: &mut Words<'_>) -> Result<Line, u32>
    ensures { IsReadAs 2 (IsOnly SpellsFrequency) words.old result }
{
    let Some(word) = words.next() else {
        return Err(2);
    };
    let Some(frequency) = frequency_in(word) else {
        return Err(2);
    };
    match words.next() {
        Some(_) => Err(3),
        None => Ok(Line::Frequency(Frequency::of(frequency))),
    }
}

/// The frequency that a word spells, which may have a minus.
fn frequency_in(word: &[u8]) -> Option<i32>
    ensures found { IfSome result (IsFrequencyWord word.now) }
    ensures only { (frequency : ℤ) → IsFrequencyWord word.now frequency
        → result ≡ Some frequency }
{
    let most = MAX_FREQUENCY as u32;
    match digits_after_minus(word) {
        Some(digits) => {
            let number = read_decimal_within(digits, 1, most)?;
            Some(-(number as i32))
        }
        None => {
            let number = read_decimal_within(word, 0, most)?;
            Some(number as i32)
        }
    }
}

/// The octets of a word after its minus, if it begins with one.
fn digits_after_minus<'a>(word: &'a [u8]) -> Option<&'a [u8]>
    ensures minus { IfSome result (λ digits. word.now ≡ 45 ∷ digits.now) }
    ensures plain { IfNone result ((digits : List ℕ) → ¬ (word.now ≡ 45 ∷ digits)) }
{
    if word.is_empty() || word[0] != b'-' {
        return None;
    }
    Some(&word[1..])
}

/// The name that the words after `keys` are.
pub fn keys_word<'a>(words: &mut Words<'a>) -> Result<&'a [u8], u32>
    ensures found { IfOk result (λ word. IsOnly SpellsKeys words.old (Keys word.now)) }
    ensures only { (line : Line) → IsOnly SpellsKeys words.old line
        → IsOkAnd result (λ word. line ≡ Keys word.now) }
    ensures refused { IfErr result (IsRefusedFrom 2 (IsOnly SpellsKeys) words.old) }
{
    let Some(word) = words.next() else {
        return Err(2);
    };
    if !is_name(word) {
        return Err(2);
    }
    match words.next() {
        Some(_) => Err(3),
        None => Ok(word),
    }
}

/// Whether all octets are visible ASCII.
fn is_name(word: &[u8]) -> bool
    ensures { result ≡ list_all is_name_octet word.now }
{
    word.iter().all(|octet| (33..=126).contains(octet))
}
