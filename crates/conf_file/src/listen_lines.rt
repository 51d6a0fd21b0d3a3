ghost use Rattle.conf_file.specs.Options.{IsReadAs};
ghost use Rattle.conf_file.specs.ShortLines.{IsOnly, SpellsListen};

use crate::lines::Line;
use net_addr::read_named;
use text_words::Words;

/// What the words after `listen` mean: an address with its port.
pub fn listen_line(words: &mut Words<'_>) -> Result<Line, u32>
    ensures { IsReadAs 2 (IsOnly SpellsListen) words.old result }
{
    let Some(word) = words.next() else {
        return Err(2);
    };
    let Some(addr) = read_named(word) else {
        return Err(2);
    };
    match words.next() {
        Some(_) => Err(3),
        None => Ok(Line::Listen(addr)),
    }
}
