ghost use Rattle.std.specs.Prelude.{◌≡◌, ◌+◌, ◌↔◌, ℕ, List, Ok, Err, IfOk, IfErr, OnOk, IsTrue};
ghost use Rattle.refusals.specs.Lines.{IsTaken};
ghost use Rattle.refusals.specs.Told.{IsUnless};
ghost use Rattle.text_words.specs.Words.{words_of};
ghost use Rattle.mac_keys.specs.KeyTexts.{IsAdmitted, IsFault, IsKeyText, IsLineFault, IsRefusedText, key_grammar};
ghost use Rattle.mac_keys.specs.declared.key_files.KeysFault.TheVariants.{At, NoMemory};
ghost use Rattle.mac_keys.specs.declared.keys.Key.{Key};

use crate::key_lines::read_line;
use crate::keys::Key;
use crate::tables::{KeyTable, MAX_KEYS};
use std::alloc::{AllocError, Global};
use text_words::Lines;

/// Why a key file is refused: at the first refused word, line and word counted from 1, or for want of
/// memory.
#[derive(Clone, Copy, Debug, PartialEq, Eq)]
pub enum KeysFault {
    At { line: u32, word: u32 },
    NoMemory,
}

impl From<AllocError> for KeysFault {
    ghost use Rattle.std.specs.Prelude.{◌≡◌};
    ghost use Rattle.mac_keys.specs.declared.key_files.KeysFault.TheVariants.{NoMemory};

    ghost from_gives = { λ _ fault. fault ≡ NoMemory };

    fn from(_: AllocError) -> KeysFault {
        KeysFault::NoMemory
    }
}

/// The keys of a key file, one a line: an id of 1 to 65535 that stands there once, the type MD5, SHA1
/// or SHA256 in either case, and the secret, which has 1 to 20 octets, or 22 to 128 hexadecimal digits
/// (our own rule).
///
/// Lines and words are those of `text_words`. A line whose type begins with AES is skipped.
pub fn read_keys(alloc: Global, text: &[u8]) -> Result<KeyTable, KeysFault>
    ensures found { IfOk result (IsKeyText text.now) }
    ensures only { (keys : List Key) → IsKeyText text.now keys → IsUnless NoMemory result (Ok keys) }

    // The refusals: want of memory comes freely, and the place exactly.
    ensures refused { IfErr result (IsFault text.now) }
    ensures refused_only { (line word : ℕ) → IsRefusedText text.now line word
        → IsUnless NoMemory result (Err (At line word)) }
{
    let mut keys = KeyTable::new(alloc);
    let mut lines = Lines::of(text);
    let mut number = 0u32;
    'lines: while let Some(line) = lines.next() {
        number = number.saturating_add(1);
        take_line(&mut keys, number, line)?;
    }
    Ok(keys)
}

/// Adds the key of a line, if it has one.
fn take_line(keys: &mut KeyTable, number: u32, line: &[u8]) -> Result<(), KeysFault>
    ensures taken { OnOk result (IsTaken key_grammar keys.old (words_of line.now) keys.new) }
    ensures refused { IfErr result (IsLineFault keys.old (words_of line.now) number) }
{
    match read_line(line) {
        Ok(None) => Ok(()),
        Ok(Some(key)) if is_admitted(keys, &key) => {
            keys.add(key)?;
            Ok(())
        }
        Ok(Some(_)) => Err(KeysFault::At {
            line: number,
            word: 1,
        }),
        Err(place) => Err(KeysFault::At {
            line: number,
            word: place + 1,
        }),
    }
}

fn is_admitted(keys: &KeyTable, key: &Key) -> bool
    ensures { IsTrue result ↔ IsAdmitted keys.now key.now }
{
    if keys.len() == MAX_KEYS {
        return false;
    }
    keys.find(key.id).is_none()
}

#[cfg(test)]
mod tests {
    use super::*;
    use crate::keys::Algorithm;
    use std::test::Fail;

    #[test]
    fn keys_are_read_as_they_are_spelled(rt: HostRuntime) -> Result<(), Fail> {
        let text = b"# keys\r\n\n65535 md5 !a~ # more\r\n 7\tSha1 00112233445566778899aAbB\n\
            3 AES128CMAC x\n3 SHA256 12345678901234567890\n4 aes y";
        let keys = read_keys(rt.alloc(), text)?;
        let cases = [
            (0, 3, Algorithm::Sha256, b"12345678901234567890".as_slice()),
            (
                1,
                7,
                Algorithm::Sha1,
                b"\x00\x11\x22\x33\x44\x55\x66\x77\x88\x99\xaa\xbb".as_slice(),
            ),
            (2, 65535, Algorithm::Md5, b"!a~".as_slice()),
        ];
        assert_eq!(rt; keys.len(), 3);
        for (place, id, algorithm, secret) in cases {
            assert!(rt; place < keys.len());
            let key = keys.get(place);
            assert_eq!(rt; key.id, id);
            assert_eq!(rt; key.algorithm, algorithm);
            assert!(rt; key.secret.as_slice() == secret, "{id}");
        }
        Ok(())
    }

    #[test]
    fn the_first_refused_word_is_told(rt: HostRuntime) {
        let cases = [
            (b"0 MD5 a".as_slice(), 1, 1),
            (b"\n01 MD5 a".as_slice(), 2, 1),
            (b"65536 AES a".as_slice(), 1, 1),
            (b"+1 MD5 a".as_slice(), 1, 1),
            (b"1 MD5 a\n\n1 SHA1 b".as_slice(), 3, 1),
            (b"1 MD4 a".as_slice(), 1, 2),
            (b"1 MD55 a".as_slice(), 1, 2),
            (b"1".as_slice(), 1, 2),
            (b"1 MD5".as_slice(), 1, 3),
            (b"1 AES".as_slice(), 1, 3),
            (b"1 MD5 a b".as_slice(), 1, 4),
            (b"1 AES a b".as_slice(), 1, 4),
            (b"1 MD5 a b # c".as_slice(), 1, 4),
            (b"1 MD5 123456789012345678901".as_slice(), 1, 3),
            (b"1 MD5 12345678901234567890123".as_slice(), 1, 3),
            (b"1 MD5 123456789012345678901g".as_slice(), 1, 3),
            (b"1 MD5 a\x7f".as_slice(), 1, 3),
            (b"1 MD5 a\r".as_slice(), 1, 3),
        ];
        for (text, line, word) in cases {
            let fault = read_keys(rt.alloc(), text).err();
            assert_eq!(rt; fault, Some(KeysFault::At { line, word }), "{text:?}");
        }
    }
}
