ghost use Rattle.std.specs.Prelude.{◌≡◌};
ghost use Rattle.conf_file.specs.Kinds.{is_ignored, kind_of};

use crate::words::is_word;

/// A kind of line of a configuration file.
#[derive(Clone, Copy, Debug, PartialEq, Eq)]
pub enum Kind {
    Listen,
    Server,
    Restrict,
    Limit,
    Mru,
    Keys,
    Local,
    Frequency,
    /// Known, and without effect.
    Ignored,
}

/// The kind of a line by its first word.
pub fn kind_in(word: &[u8]) -> Option<Kind>
    ensures { result ≡ kind_of word.now }
{
    if is_word(word, b"listen") {
        return Some(Kind::Listen);
    }
    if is_word(word, b"server") {
        return Some(Kind::Server);
    }
    if is_word(word, b"restrict") {
        return Some(Kind::Restrict);
    }
    if is_word(word, b"limit") {
        return Some(Kind::Limit);
    }
    if is_word(word, b"mru") {
        return Some(Kind::Mru);
    }
    if is_word(word, b"keys") {
        return Some(Kind::Keys);
    }
    if is_word(word, b"local") {
        return Some(Kind::Local);
    }
    if is_word(word, b"frequency") {
        return Some(Kind::Frequency);
    }
    if is_ignored_word(word) {
        return Some(Kind::Ignored);
    }
    None
}

/// Whether a line of this first word has no effect.
fn is_ignored_word(word: &[u8]) -> bool
    ensures { result ≡ is_ignored word.now }
{
    is_word(word, b"driftfile")
        || is_word(word, b"leapfile")
        || is_word(word, b"logfile")
        || is_word(word, b"logconfig")
        || is_word(word, b"statsdir")
        || is_word(word, b"statistics")
        || is_word(word, b"filegen")
        || is_word(word, b"tos")
        || is_word(word, b"tinker")
}
