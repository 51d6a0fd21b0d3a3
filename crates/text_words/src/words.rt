ghost use Rattle.std.specs.Prelude.{◌≡◌, ◌≤◌, ◌∷◌, [], IfSome, IfNone, length};
ghost use Rattle.std.specs.List.{prefix_len};
ghost use Rattle.text_words.specs.Words.{begins_with, words_of, is_blank, is_word_octet};

use std::marker::Model;

/// The words that are left of a line: what stands between spaces and tabs before the first `#`.
#[derive(Drop)]
pub struct Words<'a> {
    rest: &'a [u8],
}

impl<'a> Model for Words<'a> {
    ghost use Rattle.std.specs.Prelude.{List, ℕ};
    ghost use Rattle.text_words.specs.Words.{words_of};

    ghost Value = { List (List ℕ) };

    ghost view = { λ w. words_of w.rest.now };
}

impl<'a> Words<'a> {
    /// The words of a line, all of them left.
    pub fn of(line: &'a [u8]) -> Words<'a>
        ensures { result ≡ words_of line.now }
    {
        Words { rest: line }
    }

    /// The next word, none where no word is left.
    pub fn next(&mut self) -> Option<&'a [u8]>
        ensures word { IfSome result (λ word. self.old ≡ word.now ∷ self.new) }
        ensures ended { IfNone result (self.old ≡ []) }
        ensures stays { IfNone result (self.new ≡ []) }
    {
        let (_, text) = self.rest.split_at(past_blanks(self.rest));
        let (word, rest) = text.split_at(word_len(text));
        self.rest = rest;
        if word.is_empty() {
            return None;
        }
        Some(word)
    }
}

impl<'a> Words<'a> {
    /// Whether the next word has these octets; it stays.
    pub fn is_next(&self, octets: &[u8]) -> bool
        ensures { result ≡ begins_with self.now octets.now }
    {
        let mut words = Words { rest: self.rest };
        match words.next() {
            Some(word) => word == octets,
            None => false,
        }
    }
}

/// How many spaces and tabs a text begins with.
fn past_blanks(text: &[u8]) -> usize
    ensures blanks { result ≡ prefix_len is_blank text.now }
    ensures within { result ≤ length text.now }
{
    let mut end = 0;
    while end < text.len() && is_blank_octet(text[end]) {
        end += 1;
    }
    end
}

/// How many octets of a word a text begins with.
fn word_len(text: &[u8]) -> usize
    ensures octets { result ≡ prefix_len is_word_octet text.now }
    ensures within { result ≤ length text.now }
{
    let mut end = 0;
    while end < text.len() && is_octet_of_word(text[end]) {
        end += 1;
    }
    end
}

fn is_blank_octet(octet: u8) -> bool
    ensures { result ≡ is_blank octet }
{
    matches!(octet, b' ' | b'\t')
}

fn is_octet_of_word(octet: u8) -> bool
    ensures { result ≡ is_word_octet octet }
{
    !matches!(octet, b' ' | b'\t' | b'#')
}

#[cfg(test)]
mod tests {
    use super::*;

    #[test]
    fn words_stand_between_blanks_before_a_comment(rt: HostRuntime) {
        let mut words = Words::of(b" ab\tc#d e");
        assert!(rt; words.is_next(b"ab") && !words.is_next(b"a"));
        assert!(rt; words.next() == Some(b"ab".as_slice()));
        assert!(rt; words.next() == Some(b"c".as_slice()));
        assert!(rt; words.next().is_none());
        assert!(rt; words.next().is_none());
    }
}
