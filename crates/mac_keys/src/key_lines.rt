ghost use Rattle.std.specs.Prelude.{◌≡◌, ◌≤◌, IfOk, IfErr};
ghost use Rattle.refusals.specs.Refusals.{IsRefusedAt};
ghost use Rattle.text_words.specs.Words.{words_of};
ghost use Rattle.mac_keys.specs.KeyLines.{IsKeyLine, hex_secret_of, is_plain, is_plain_octet, secret_of};

use crate::key_types::{KeyType, type_in};
use crate::keys::{
    Key, MAX_HEX_DIGITS, MAX_KEY_ID, MAX_PLAIN_SECRET, MAX_SECRET, MIN_HEX_DIGITS, MIN_KEY_ID,
    Secret,
};
use hex::decode_to_slice;
use text_words::{Words, read_decimal_within};

/// The key of a line of a key file, if it has one; else how many words stand before the first one
/// that is refused.
pub fn read_line(line: &[u8]) -> Result<Option<Key>, u32>
    ensures found { IfOk result (IsKeyLine (words_of line.now)) }
    ensures refused { IfErr result (IsRefusedAt IsKeyLine (words_of line.now)) }
    ensures within { IfErr result (λ place. place ≤ 3) }
{
    let mut words = Words::of(line);
    let Some(word) = words.next() else {
        return Ok(None);
    };
    let Some(id) = read_decimal_within(word, MIN_KEY_ID, MAX_KEY_ID) else {
        return Err(0);
    };
    let Some(word) = words.next() else {
        return Err(1);
    };
    let Some(key_type) = type_in(word) else {
        return Err(1);
    };
    let Some(word) = words.next() else {
        return Err(2);
    };
    let KeyType::Hashed(algorithm) = key_type else {
        return match words.next() {
            Some(_) => Err(3),
            None => Ok(None),
        };
    };
    let Some(secret) = secret_in(word) else {
        return Err(2);
    };
    match words.next() {
        Some(_) => Err(3),
        None => Ok(Some(Key {
            id,
            algorithm,
            secret,
        })),
    }
}

/// The secret that a word spells.
fn secret_in(word: &[u8]) -> Option<Secret>
    ensures { result ≡ secret_of word.now }
{
    if is_plain_secret(word) {
        return Some(Secret::of(word));
    }
    hex_secret_in(word)
}

/// Whether a word has 1 to 20 octets that are visible and no number sign.
fn is_plain_secret(word: &[u8]) -> bool
    ensures { result ≡ is_plain word.now }
{
    if word.is_empty() || word.len() > MAX_PLAIN_SECRET {
        return false;
    }
    for octet in word {
        if !is_octet_of_secret(*octet) {
            return false;
        }
    }
    true
}

fn is_octet_of_secret(octet: u8) -> bool
    ensures { result ≡ is_plain_octet octet }
{
    (33..=126).contains(&octet) && octet != b'#'
}

/// The secret that a word of 22 to 128 hexadecimal digits spells, two digits an octet.
fn hex_secret_in(word: &[u8]) -> Option<Secret>
    ensures { result ≡ hex_secret_of word.now }
{
    let len = word.len() / 2;
    if word.len() < MIN_HEX_DIGITS || word.len() > MAX_HEX_DIGITS {
        return None;
    }
    let mut octets = [0u8; MAX_SECRET];
    match decode_to_slice(word, &mut octets[..len]) {
        Ok(()) => Some(Secret::of(&octets[..len])),
        Err(_) => None,
    }
}
