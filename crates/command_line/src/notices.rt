ghost use Rattle.std.specs.Prelude.{◌≡◌, ◌≢◌, ◌≤◌, ◌↔◌, ◌⊎◌, ◌∷◌, [], map, string_bytes, Some};
ghost use Rattle.edge_traits.specs.Told.{gained, GainedFront, Rose};
ghost use Rattle.command_line.specs.declared.notices.Notice.{Notice};
ghost use Rattle.command_line.specs.Notices.{word_of};

use edge_traits::{Sink, SinkFault, Status, write_whole};

/// What a program says of itself in place of a run.
#[derive(Clone, Copy, Debug, PartialEq, Eq)]
pub enum Notice {
    /// How to call it.
    Help,
    /// Its version.
    Version,
}

/// The notice that the words ask for: its word stands alone.
pub fn notice_of(words: &[String]) -> Option<Notice>
    ensures { (notice : Notice) → (result ≡ Some notice)
        ↔ (map string_bytes words.now ≡ word_of notice ∷ []) }
{
    match words {
        [word] => notice_in(word.as_str().as_bytes()),
        _ => None,
    }
}

fn notice_in(word: &[u8]) -> Option<Notice>
    ensures { (notice : Notice) → (result ≡ Some notice) ↔ (word.now ≡ word_of notice) }
{
    if word == b"--help".as_slice() {
        Some(Notice::Help)
    } else if word == b"--version".as_slice() {
        Some(Notice::Version)
    } else {
        None
    }
}

/// Prints a text, and answers the exit status: 0, or 8 where the sink failed, or 9 where it had no
/// memory.
pub fn print<S: Sink>(text: &[u8], out: &mut S) -> Status
    ensures status { (result.0 ≡ 0) ⊎ ((result.0 ≡ 8) ⊎ (result.0 ≡ 9)) }
    ensures whole { result.0 ≡ 0 → S.contents out.new ≡ gained (S.contents out.old) text.now }
    ensures front { result.0 ≢ 0
        → GainedFront (S.contents out.old) (S.contents out.new) text.now }
    ensures failed { result.0 ≡ 8 → Rose 1 (S.faults out.old) (S.faults out.new) }
    ensures faults_kept { S.faults out.old ≤ S.faults out.new }
{
    match write_whole(out, text) {
        Ok(()) => Status(0),
        Err(SinkFault::Failed) => Status(8),
        Err(SinkFault::NoMemory) => Status(9),
    }
}
