ghost use Rattle.std.specs.Prelude.{◌≡◌, ◌++◌, IfOk, OnOk};
ghost use Rattle.ntpq_report.specs.Variables.{line_end, rv_heading, rv_text};

use crate::fields::put_hex_word;
use edge_traits::Text;
use itoa::Buffer;
use mode6_frame::{Items, put_item};
use std::alloc::{AllocError, Global};

/// The variables of an association, 0 for the system: its number and its status word, as
/// `associd=0 status=c011`, and each item on a line of its own, all but the last with a comma behind
/// it. A value stands in quotes where control messages have it so (RFC 9327, section 4).
pub fn rv_report(alloc: Global, assoc: u16, status: u16, items: &Items) -> Result<Text, AllocError>
    ensures { IfOk result (λ text. text ≡ rv_text assoc status items.now) }
{
    let mut text = Vec::new(alloc);
    put_heading(alloc, &mut text, assoc, status)?;
    for place in 0..items.len() {
        put_item(&mut text, items.get(place))?;
        text.extend_from_slice(line_end(place + 1 == items.len()))?;
    }
    Ok(Text::of(text))
}

/// Appends the line of the association.
fn put_heading(alloc: Global, text: &mut Vec<u8>, assoc: u16, status: u16) -> Result<(), AllocError>
    ensures { OnOk result (text.new.items ≡ text.old.items ++ rv_heading assoc status) }
{
    let mut digits = Buffer::new();
    text.extend_from_slice(b"associd=")?;
    text.extend_from_slice(digits.format(assoc).as_bytes())?;
    text.extend_from_slice(b" status=")?;
    put_hex_word(alloc, text, status)?;
    text.extend_from_slice(b"\n")
}

/// How the line of an item ends.
fn line_end(is_last: bool) -> &'static [u8]
    ensures { result.now ≡ line_end is_last }
{
    if is_last { b"\n" } else { b",\n" }
}
