ghost use Rattle.std.specs.Prelude.{◌≡◌, ◌+◌, length, OnOk, IfErr};
ghost use Rattle.refusals.specs.Told.{told_number};
ghost use Rattle.text_words.specs.Words.{words_of};
ghost use Rattle.conf_file.specs.ConfLines.{IsConfLine, IsReadOr};
ghost use Rattle.refusals.specs.Lines.{IsTakenAlone};
ghost use Rattle.conf_file.specs.ConfTexts.{IsDue, conf_grammar, refusal_of};
ghost use Rattle.conf_file.specs.Drafts.{is_closed_to};

use crate::drafts::{Draft, Untaken};
use crate::kinds::kind_in;
use crate::lines::Line;
use crate::tails::{Refusal, read_tail};
use std::alloc::Global;
use text_words::Words;

/// Takes a line of a configuration file.
pub fn take_line(alloc: Global, draft: &mut Draft, line: &[u8]) -> Result<(), Refusal>
    ensures taken { OnOk result (IsTakenAlone conf_grammar draft.old (words_of line.now)
        draft.new) }
    ensures refused { IfErr result (IsDue draft.old (words_of line.now)) }
{
    if is_line_closed(draft, line) {
        return Err(Refusal::At(1));
    }
    let read = match read_line(alloc, line) {
        Ok(read) => read,
        Err(refusal) => return Err(refusal),
    };
    match draft.take(read) {
        Ok(()) => Ok(()),
        Err(untaken) => Err(refusal_at(untaken, line)),
    }
}

/// Where a line is refused that is not taken.
fn refusal_at(untaken: Untaken, line: &[u8]) -> Refusal
    ensures { result ≡ refusal_of untaken (words_of line.now) }
{
    match untaken {
        Untaken::Full => Refusal::At(1),
        Untaken::Unfit => Refusal::At(number_after(line)),
        Untaken::NoMemory => Refusal::NoMemory,
    }
}

/// What a line means.
pub fn read_line(alloc: Global, line: &[u8]) -> Result<Line, Refusal>
    ensures { IsReadOr 1 IsConfLine (words_of line.now) result }
{
    let mut words = Words::of(line);
    let Some(word) = words.next() else {
        return Ok(Line::Nothing);
    };
    match kind_in(word) {
        Some(kind) => read_tail(alloc, kind, &mut words),
        None => Err(Refusal::At(1)),
    }
}

/// Whether no more lines are taken of the kind that the first word of this one names.
fn is_line_closed(draft: &Draft, line: &[u8]) -> bool
    ensures { result ≡ is_closed_to draft.now (words_of line.now) }
{
    let mut words = Words::of(line);
    let Some(word) = words.next() else {
        return false;
    };
    match kind_in(word) {
        Some(kind) => draft.is_closed(kind),
        None => false,
    }
}

/// The number of the word after the last one of a line.
fn number_after(line: &[u8]) -> u32
    ensures { result ≡ told_number (length (words_of line.now) + 1) }
{
    let mut words = Words::of(line);
    let mut number = 1u32;
    'words: while let Some(_) = words.next() {
        number = number.saturating_add(1);
    }
    number
}
