ghost use Rattle.std.specs.Prelude.{◌≡◌, bytes_eq};

/// Whether a word has these octets.
pub fn is_word(word: &[u8], octets: &[u8]) -> bool
    ensures { result ≡ bytes_eq word.now octets.now }
{
    word == octets
}
