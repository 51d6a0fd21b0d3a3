ghost use Rattle.std.specs.Prelude.{◌≡◌, ℕ, Ok, Err, IfOk, IfErr};
ghost use Rattle.refusals.specs.Told.{IsUnless};
ghost use Rattle.conf_file.specs.ConfTexts.{IsConfText, IsFault, IsRefusedText, fault_of};
ghost use Rattle.conf_file.specs.Drafts.{IsConfOf, listen_of};
ghost use Rattle.conf_file.specs.declared.conf.Conf.{Conf};
ghost use Rattle.conf_file.specs.declared.confs.ConfFault.TheVariants.{At, NoMemory};

use crate::conf::Conf;
use crate::drafts::{Draft, rate_with};
use crate::frequencies::number_of;
use crate::line_reader::take_line;
use crate::lists::Addrs;
use crate::option_lines::NTP_PORT;
use crate::rate_options::RateOptions;
use crate::tails::Refusal;
use net_addr::{Addr, Ip};
use recency::Limits;
use std::alloc::{AllocError, Global};
use text_words::Lines;

/// Why a configuration file is refused: at the first refused word, line and word counted from 1, or
/// for want of memory.
#[derive(Clone, Copy, Debug, PartialEq, Eq)]
pub enum ConfFault {
    At { line: u32, word: u32 },
    NoMemory,
}

impl From<AllocError> for ConfFault {
    ghost use Rattle.std.specs.Prelude.{◌≡◌};
    ghost use Rattle.conf_file.specs.declared.confs.ConfFault.TheVariants.{NoMemory};

    ghost from_gives = { λ _ fault. fault ≡ NoMemory };

    fn from(_: AllocError) -> ConfFault {
        ConfFault::NoMemory
    }
}

/// The configuration that a text means (our own rule, after the configuration of NTPsec).
///
/// Lines and words are those of `text_words`. A word is refused with which no line of the grammar
/// goes on; where a line ends too soon, it is the one past the last word. A line beyond a limit, and
/// a second line of a kind that stands once, is refused at its first word; an `mru` line whose limits
/// don't fit each other after its last word.
pub fn read_conf(alloc: Global, text: &[u8]) -> Result<Conf, ConfFault>
    ensures found { IfOk result (IsConfText text.now) }
    ensures only { (conf : Conf) → IsConfText text.now conf → IsUnless NoMemory result (Ok conf) }

    // The refusals: want of memory comes freely, and the place exactly.
    ensures refused { IfErr result (IsFault text.now) }
    ensures refused_only { (line word : ℕ) → IsRefusedText text.now line word
        → IsUnless NoMemory result (Err (At line word)) }
{
    let mut draft = Draft::new(alloc)?;
    let mut lines = Lines::of(text);
    let mut number = 0u32;
    'lines: while let Some(line) = lines.next() {
        number = number.saturating_add(1);
        match take_line(alloc, &mut draft, line) {
            Ok(()) => {}
            Err(refusal) => return Err(fault_at(number, refusal)),
        }
    }
    Ok(finished(alloc, draft)?)
}

/// The fault of a file whose line of this number is refused.
fn fault_at(line: u32, refusal: Refusal) -> ConfFault
    ensures { result ≡ fault_of line refusal }
{
    match refusal {
        Refusal::At(word) => ConfFault::At { line, word },
        Refusal::NoMemory => ConfFault::NoMemory,
    }
}

/// The configuration that the lines of a file made.
fn finished(alloc: Global, draft: Draft) -> Result<Conf, AllocError>
    ensures { IfOk result (IsConfOf draft) }
{
    let limits = match draft.limits {
        Some(limits) => limits,
        None => Limits::plain(),
    };
    Ok(Conf {
        listen: listening(alloc, draft.listen)?,
        servers: draft.servers,
        rules: draft.rules,
        rate: draft.rate.unwrap_or(rate_with(&RateOptions::none())),
        limits,
        keys: draft.keys,
        local: draft.local,
        freq: number_of(draft.freq),
    })
}

/// Where a server listens: at 0.0.0.0:123 where no line says it.
fn listening(alloc: Global, addrs: Addrs) -> Result<Addrs, AllocError>
    ensures { IfOk result (λ listen. listen ≡ listen_of addrs) }
{
    if addrs.len() > 0 {
        return Ok(addrs);
    }
    let mut any = Addrs::of(Vec::new(alloc));
    any.push(Addr {
        ip: Ip::V4([0; 4]),
        port: NTP_PORT,
    })?;
    Ok(any)
}
