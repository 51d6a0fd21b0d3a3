ghost use Rattle.std.specs.Prelude.{◌≡◌, ◌≤◌, ◌∷◌, [], ℕ, Option, Some, None, true, false, map, string_bytes, codes, length, drop, IfSome, IfNone, MatchOption};
ghost use Rattle.std.specs.List.{list_all};
ghost use Rattle.text_words.specs.Numbers.{SpellsNumber};
ghost use Rattle.mru_items.specs.declared.query.Query.{Query};
ghost use Rattle.mru_items.specs.Queries.{IsOptional, SpellsLimit};
ghost use Rattle.mru_items.specs.Values.{SpellsMask};
ghost use Rattle.ntpq_tool.specs.Options.{IsQueryOf, given, gives, is_option};

use crate::masks::read_mask;
use mru_items::{MAX_FRAGS, MAX_LIMIT, MruFilter, Query};
use text_words::read_decimal_within;

/// The datagrams of a page where no option tells their number (our own rule).
pub const DEFAULT_FRAGS: u32 = 32;

/// What the options of `mrulist` ask for.
pub fn read_query(words: &[String]) -> Option<Query>
    ensures found { IfSome result (IsQueryOf (map string_bytes words.now)) }
    ensures only { (query : Query) → IsQueryOf (map string_bytes words.now) query
        → result ≡ Some query }
{
    if !are_options(words) {
        return None;
    }
    let filter = MruFilter {
        mincount: number_of(words, b"mincount=", u32::MAX, 1)?,
        resall: mask_of(words, b"resall=")?,
        resany: mask_of(words, b"resany=")?,
    };
    Some(Query {
        filter,
        limit: limit_of(words)?,
        frags: number_of(words, b"frags=", MAX_FRAGS, DEFAULT_FRAGS)?,
    })
}

/// The number from 1 on that words give to the option of this name, or the plain one.
fn number_of(words: &[String], name: &[u8], most: u32, plain: u32) -> Option<u32>
    ensures found { IfSome result (IsOptional (SpellsNumber 1 most) plain
        (given name.now (map string_bytes words.now))) }
    ensures only { (number : ℕ) → IsOptional (SpellsNumber 1 most) plain
        (given name.now (map string_bytes words.now)) number → result ≡ Some number }
{
    match value_of(words, name)? {
        Some(value) => read_decimal_within(value, 1, most),
        None => Some(plain),
    }
}

/// The most rows of a page, where words limit them.
fn limit_of(words: &[String]) -> Option<Option<u32>>
    ensures found { IfSome result (IsOptional SpellsLimit None
        (given (codes "limit=") (map string_bytes words.now))) }
    ensures only { (limit : Option ℕ) → IsOptional SpellsLimit None
        (given (codes "limit=") (map string_bytes words.now)) limit → result ≡ Some limit }
{
    let Some(value) = value_of(words, b"limit=")? else {
        return Some(None);
    };
    let limit = read_decimal_within(value, 1, MAX_LIMIT)?;
    Some(Some(limit))
}

/// The mask that words give to the option of this name, or 0.
fn mask_of(words: &[String], name: &[u8]) -> Option<u16>
    ensures found { IfSome result (IsOptional SpellsMask 0
        (given name.now (map string_bytes words.now))) }
    ensures only { (mask : ℕ) → IsOptional SpellsMask 0
        (given name.now (map string_bytes words.now)) mask → result ≡ Some mask }
{
    match value_of(words, name)? {
        Some(value) => read_mask(value),
        None => Some(0),
    }
}

/// The value that words give to the option of this name, where one of them does; none where several
/// of them do.
fn value_of<'a>(words: &'a [String], name: &[u8]) -> Option<Option<&'a [u8]>>
    ensures found { IfSome result (λ found. MatchOption found
        (given name.now (map string_bytes words.now) ≡ [])
        (λ value. given name.now (map string_bytes words.now) ≡ Some value.now ∷ [])) }
    ensures several { IfNone result
        (2 ≤ length (given name.now (map string_bytes words.now))) }
{
    let Some((first, behind)) = words.split_first() else {
        return Some(None);
    };
    let later = value_of(behind, name)?;
    match (value_in(first.as_str().as_bytes(), name), later) {
        (None, _) => Some(later),
        (Some(value), None) => Some(Some(value)),
        (Some(_), Some(_)) => None,
    }
}

/// The value that a word gives to the option of this name.
fn value_in<'a>(word: &'a [u8], name: &[u8]) -> Option<&'a [u8]>
    ensures { MatchOption result (gives name.now word.now ≡ false) (λ value.
        (gives name.now word.now ≡ true) × (value.now ≡ drop (length name.now) word.now)) }
{
    word.strip_prefix(name)
}

/// Whether each word gives an option.
fn are_options(words: &[String]) -> bool
    ensures { result ≡ list_all is_option (map string_bytes words.now) }
{
    let Some((first, behind)) = words.split_first() else {
        return true;
    };
    is_option(first.as_str().as_bytes()) && are_options(behind)
}

/// Whether a word gives an option.
fn is_option(word: &[u8]) -> bool
    ensures { result ≡ is_option word.now }
{
    is_given(word, b"limit=")
        || is_given(word, b"frags=")
        || is_given(word, b"mincount=")
        || is_given(word, b"resall=")
        || is_given(word, b"resany=")
}

/// Whether a word gives the option of this name.
fn is_given(word: &[u8], name: &[u8]) -> bool
    ensures { result ≡ gives name.now word.now }
{
    value_in(word, name).is_some()
}
