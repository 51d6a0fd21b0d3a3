ghost use Rattle.std.specs.Prelude.{◌≡◌, ◌≤◌, codes, length};
ghost use Rattle.mac_keys.specs.KeyLines.{begins, spells, type_of};

use crate::keys::Algorithm;

/// The type of a key in a key file: a hash function, or a cipher whose keys are skipped.
#[derive(Clone, Copy, Debug, PartialEq, Eq)]
pub enum KeyType {
    Hashed(Algorithm),
    Skipped,
}

/// The type that a word spells, in either case.
pub fn type_in(word: &[u8]) -> Option<KeyType>
    ensures { result ≡ type_of word.now }
{
    if is_spelled(word, b"MD5") {
        return Some(KeyType::Hashed(Algorithm::Md5));
    }
    if is_spelled(word, b"SHA1") {
        return Some(KeyType::Hashed(Algorithm::Sha1));
    }
    if is_spelled(word, b"SHA256") {
        return Some(KeyType::Hashed(Algorithm::Sha256));
    }
    if is_begun(word, b"AES") {
        return Some(KeyType::Skipped);
    }
    None
}

/// Whether a word has these capitals and no more, in either case.
fn is_spelled(word: &[u8], name: &[u8]) -> bool
    ensures { result ≡ spells word.now name.now }
{
    if word.len() != name.len() {
        return false;
    }
    is_begun(word, name)
}

/// Whether a word begins with these capitals, in either case.
fn is_begun(word: &[u8], name: &[u8]) -> bool
    ensures { result ≡ begins word.now name.now }
{
    if word.len() < name.len() {
        return false;
    }
    for i in 0..name.len() {
        if word[i].to_ascii_uppercase() != name[i] {
            return false;
        }
    }
    true
}
