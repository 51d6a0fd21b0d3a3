ghost use Rattle.std.specs.Prelude.{◌≡◌, ◌↔◌, ◌+◌, ◌≤◌, ◌<◌, ◌∷◌, [], IsTrue, length, bytes_eq, drop, slice_index_or};
ghost use Rattle.std.specs.Option.{option_copied};
ghost use Rattle.mode6_frame.specs.declared.items.Item.{Item};
ghost use Rattle.mru_items.specs.Names.{value_of, values_of};

use mode6_frame::{Item, Items};

/// The value of the one item of a name: None where there is no such item, or it has no value, or
/// there are several.
pub(crate) fn only_value<'a>(items: &'a Items, name: &[u8]) -> Option<&'a [u8]>
    ensures { option_copied result ≡ value_of name.now items.now }
{
    let at = next_named(items, name, 0);
    if at == items.len() {
        return None;
    }
    if next_named(items, name, at + 1) < items.len() {
        return None;
    }
    value_at(items, at)
}

/// Whether there is no item of a name.
pub(crate) fn is_missing(items: &Items, name: &[u8]) -> bool
    ensures { IsTrue result ↔ (values_of name.now items.now ≡ []) }
{
    next_named(items, name, 0) == items.len()
}

/// The place of the first item of a name from a place on, or the number of items.
pub(crate) fn next_named(items: &Items, name: &[u8], from: usize) -> usize
    requires { from ≤ length items.now }
    ensures within { result ≤ length items.now }
    ensures skipped { values_of name.now (drop from items.now)
        ≡ values_of name.now (drop result items.now) }
    ensures none { result ≡ length items.now → values_of name.now (drop from items.now) ≡ [] }
    ensures named { (d : Item) → result < length items.now → values_of name.now (drop result items.now)
        ≡ (slice_index_or items.now result d).value ∷ values_of name.now (drop (result + 1) items.now) }
{
    let mut at = from;
    while at < items.len() && !has_name(items.get(at), name) {
        at += 1;
    }
    at
}

fn has_name(item: &Item, name: &[u8]) -> bool
    ensures { result ≡ bytes_eq item.now.name name.now }
{
    item.name.as_slice() == name
}

/// The value of the item at a place.
pub(crate) fn value_at(items: &Items, at: usize) -> Option<&[u8]>
    requires { at < length items.now }
    ensures { (d : Item) → option_copied result ≡ (slice_index_or items.now at d).value }
{
    match &items.get(at).value {
        None => None,
        Some(value) => Some(value.as_slice()),
    }
}
