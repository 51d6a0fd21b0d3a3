ghost use Rattle.std.specs.Prelude.{◌≡◌, ◌≤◌, ◌∷◌, [], IfSome, IfNone, length};
ghost use Rattle.std.specs.List.{position_or_len};
ghost use Rattle.text_words.specs.Lines.{lines_of, is_line_feed, without_return};

use std::marker::Model;

/// The lines that are left of a text: each ends at a line feed, before which a carriage return is
/// dropped; what stands after the last line feed is a line too.
#[derive(Drop)]
pub struct Lines<'a> {
    rest: &'a [u8],
    is_over: bool,
}

impl<'a> Model for Lines<'a> {
    ghost use Rattle.std.specs.Prelude.{List, ℕ};
    ghost use Rattle.text_words.specs.Lines.{lines_left};

    ghost Value = { List (List ℕ) };

    ghost view = { λ l. lines_left l.is_over l.rest.now };
}

impl<'a> Lines<'a> {
    /// The lines of a text, all of them left.
    pub fn of(text: &'a [u8]) -> Lines<'a>
        ensures { result ≡ lines_of text.now }
    {
        Lines {
            rest: text,
            is_over: false,
        }
    }

    /// The next line, none where no line is left.
    pub fn next(&mut self) -> Option<&'a [u8]>
        ensures line { IfSome result (λ line. self.old ≡ line.now ∷ self.new) }
        ensures ended { IfNone result (self.old ≡ []) }
        ensures stays { IfNone result (self.new ≡ []) }
    {
        if self.is_over {
            return None;
        }
        let (line, rest) = self.rest.split_at(line_len(self.rest));
        match rest.split_first() {
            Some((_, behind)) => {
                self.rest = behind;
                Some(before_return(line))
            }
            None => {
                self.is_over = true;
                Some(line)
            }
        }
    }
}

/// How many octets stand before the first line feed, or all where there is none.
fn line_len(text: &[u8]) -> usize
    ensures octets { result ≡ position_or_len is_line_feed text.now }
    ensures within { result ≤ length text.now }
{
    let mut end = 0;
    while end < text.len() && text[end] != b'\n' {
        end += 1;
    }
    end
}

/// A line less the carriage return at its end.
fn before_return(line: &[u8]) -> &[u8]
    ensures { result.now ≡ without_return line.now }
{
    let len = line.len();
    if len > 0 && line[len - 1] == b'\r' {
        return &line[..len - 1];
    }
    line
}

#[cfg(test)]
mod tests {
    use super::*;

    #[test]
    fn lines_end_at_line_feeds_less_a_carriage_return(rt: HostRuntime) {
        let mut lines = Lines::of(b"a\r\n\nb\r");
        assert!(rt; lines.next() == Some(b"a".as_slice()));
        assert!(rt; lines.next() == Some(b"".as_slice()));
        assert!(rt; lines.next() == Some(b"b\r".as_slice()));
        assert!(rt; lines.next().is_none());
        assert!(rt; lines.next().is_none());
    }
}
