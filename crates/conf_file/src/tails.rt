ghost use Rattle.std.specs.Prelude.{◌≡◌};
ghost use Rattle.conf_file.specs.ConfLines.{IsReadOr, IsTail, placed};
ghost use Rattle.conf_file.specs.Options.{IsReadAs};
ghost use Rattle.conf_file.specs.ShortLines.{IsOnly, SpellsKeys};

use crate::kinds::Kind;
use crate::lines::Line;
use crate::listen_lines::listen_line;
use crate::option_lines::{limit_line, mru_line, server_line};
use crate::restrict_lines::restrict_line;
use crate::short_lines::{frequency_line, keys_word, local_line};
use edge_traits::Name;
use std::alloc::Global;
use text_words::Words;

/// Why a line is refused: at the word of this number, counted from 1, or for want of memory.
#[derive(Clone, Copy, Debug, PartialEq, Eq)]
pub enum Refusal {
    At(u32),
    NoMemory,
}

/// What the words after the first mean in a line of this kind.
pub fn read_tail(alloc: Global, kind: Kind, words: &mut Words<'_>) -> Result<Line, Refusal>
    ensures { IsReadOr 2 (IsTail kind) words.old result }
{
    match kind {
        Kind::Listen => told(listen_line(words)),
        Kind::Server => told(server_line(words)),
        Kind::Restrict => told(restrict_line(words)),
        Kind::Limit => told(limit_line(words)),
        Kind::Mru => told(mru_line(words)),
        Kind::Keys => keys_line(alloc, words),
        Kind::Local => told(local_line(words)),
        Kind::Frequency => told(frequency_line(words)),
        Kind::Ignored => Ok(Line::Nothing),
    }
}

/// A reading that took no memory.
fn told(read: Result<Line, u32>) -> Result<Line, Refusal>
    ensures { result ≡ placed read }
{
    match read {
        Ok(line) => Ok(line),
        Err(word) => Err(Refusal::At(word)),
    }
}

/// What the words after `keys` mean: a file's name, of which a copy is kept.
fn keys_line(alloc: Global, words: &mut Words<'_>) -> Result<Line, Refusal>
    ensures { IsReadOr 2 (IsOnly SpellsKeys) words.old result }
{
    let word = match keys_word(words) {
        Ok(word) => word,
        Err(number) => return Err(Refusal::At(number)),
    };
    match Vec::from_slice(alloc, word) {
        Ok(octets) => Ok(Line::Keys(Name::of(octets))),
        Err(_) => Err(Refusal::NoMemory),
    }
}
