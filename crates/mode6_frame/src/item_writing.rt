ghost use Rattle.std.specs.Prelude.{◌≡◌, ◌+◌, ◌≤◌, ◌++◌, length, OnOk};
ghost use Rattle.std.specs.List.{list_any};
ghost use Rattle.edge_traits.specs.declared.octets.TheConstants.{MAX_OCTETS};
ghost use Rattle.mode6_frame.specs.ItemTexts.{has_quotes, is_number_list, is_separator, item_text, value_part};

use crate::items::Item;
use edge_traits::{Octets, Text};
use std::alloc::AllocError;

/// Appends the text of an item: its name, and its value where it has one (RFC 9327, section 4).
///
/// A value with a space or a comma stands in quotes, but for the samples of a clock filter, which
/// are numbers with spaces between (our own rule).
pub fn put_item(text: &mut Vec<u8>, item: &Item) -> Result<(), AllocError>
    ensures written { OnOk result (text.new.items ≡ text.old.items ++ item_text item.now) }
    ensures longer { OnOk result
        (length text.new.items ≡ length text.old.items + length (item_text item.now)) }
{
    text.extend_from_slice(item.name.as_slice())?;
    match &item.value {
        None => Ok(()),
        Some(value) => put_value(text, item.name.as_slice(), value.as_slice()),
    }
}

fn put_value(text: &mut Vec<u8>, name: &[u8], value: &[u8]) -> Result<(), AllocError>
    ensures { OnOk result
        (text.new.items ≡ text.old.items ++ value_part name.now (Some value.now)) }
{
    if needs_quotes(name, value) {
        text.extend_from_slice(b"=\"")?;
        text.extend_from_slice(value)?;
        text.push(b'"')?;
        return Ok(());
    }
    text.push(b'=')?;
    text.extend_from_slice(value)?;
    Ok(())
}

/// Appends the text of an item to octets that have room for it.
pub(crate) fn add_item(octets: &mut Octets, item: &Item)
    requires { length octets.old + length (item_text item.now) ≤ MAX_OCTETS }
    ensures written { octets.new ≡ octets.old ++ item_text item.now }
    ensures longer { length octets.new ≡ length octets.old + length (item_text item.now) }
{
    octets.put(item.name.as_slice());
    match &item.value {
        None => {}
        Some(value) => add_value(octets, item.name.as_slice(), value.as_slice()),
    }
}

fn add_value(octets: &mut Octets, name: &[u8], value: &[u8])
    requires { length octets.old + length (value_part name.now (Some value.now)) ≤ MAX_OCTETS }
    ensures { octets.new ≡ octets.old ++ value_part name.now (Some value.now) }
{
    if needs_quotes(name, value) {
        octets.put(b"=\"");
        octets.put(value);
        octets.push(b'"');
    } else {
        octets.push(b'=');
        octets.put(value);
    }
}

/// How many octets the text of an item has.
pub(crate) fn text_len(item: &Item) -> usize
    requires { length (item_text item.now) ≤ MAX_OCTETS }
    ensures { result ≡ length (item_text item.now) }
{
    match &item.value {
        None => item.name.len(),
        Some(value) => item.name.len() + value_len(item.name.as_slice(), value.as_slice()),
    }
}

fn value_len(name: &[u8], value: &[u8]) -> usize
    requires { length (value_part name.now (Some value.now)) ≤ MAX_OCTETS }
    ensures { result ≡ length (value_part name.now (Some value.now)) }
{
    if needs_quotes(name, value) {
        value.len() + 3
    } else {
        value.len() + 1
    }
}

/// A value with a space or a comma stands in quotes, but for a list of numbers.
fn needs_quotes(name: &[u8], value: &[u8]) -> bool
    ensures { result ≡ has_quotes name.now value.now }
{
    has_separator(value) && !names_numbers(name)
}

/// Whether a value has a space or a comma.
fn has_separator(value: &[u8]) -> bool
    ensures { result ≡ list_any is_separator value.now }
{
    value.iter().any(|octet| *octet == b' ' || *octet == b',')
}

/// A variable whose value is numbers with spaces between.
fn names_numbers(name: &[u8]) -> bool
    ensures { result ≡ is_number_list name.now }
{
    name == b"filtdelay".as_slice()
        || name == b"filtoffset".as_slice()
        || name == b"filtdisp".as_slice()
}
