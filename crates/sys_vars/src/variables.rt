ghost use Rattle.std.specs.Prelude.{◌≡◌, ◌⊎◌, ◌≤◌, ◌<◌, ◌+◌, ◌++◌, [], IfOk, IfErr, IfSome, OnOk, Ok, Err, Some, filter_map, length, slice_get, slice_index_or};
ghost use Rattle.std.specs.Option.{option_copied, option_to_list};
ghost use Rattle.std.specs.List.{AllByRecursion};
ghost use Rattle.mode6_frame.specs.Cuts.{IsCuttable};
ghost use Rattle.mode6_frame.specs.ItemTexts.{IsWritable};
ghost use Rattle.mode6_frame.specs.Told.{told_number};
ghost use Rattle.sys_vars.specs.declared.asked.TheConstants.{MAX_NAMES};
ghost use Rattle.sys_vars.specs.Names.{texts_of};
ghost use Rattle.sys_vars.specs.Variables.{asked_numbers, first_unknown, is_unknown, items_of, names_in, texts_in, variable_of, variables_of, IsPlainValue, IsShort};

use crate::names::{peer_names, system_names};
use crate::number_text::fixed;
use crate::peer_variables::peer_text;
use crate::published::Record;
use crate::subject::{Subject, subject_of};
use crate::system_variables::system_text;
use mode6_frame::{Item, Items, Text};
use std::alloc::{AllocError, Global};

/// Why variables are not given, in the order of the tests.
#[derive(Clone, Copy, Debug, PartialEq, Eq)]
pub enum VarsFault {
    /// There is no such association.
    UnknownAssociation,
    /// So many names stand before the first one that is no variable's.
    UnknownName { place: u32 },
    /// Memory was wanting.
    NoMemory,
}

/// The variables of an association in the order of their numbers' list, or all for an empty one
/// (RFC 9327, section 4).
///
/// Association 0 is the system, any other the peer that has this number. A name number is that of a
/// variable of the association; any other is that of an unknown name.
pub fn items(alloc: Global, rec: &Record, assoc: u16, names: &[u8]) -> Result<Items, VarsFault>
    ensures items { IfOk result (λ items. items_of rec.now assoc names.now ≡ Ok items) }

    // Each is read back from the text that is written of it.
    ensures writable { IfOk result (AllByRecursion IsWritable) }

    // The refusals come before memory is taken.
    ensures refused { (fault : VarsFault) → items_of rec.now assoc names.now ≡ Err fault
        → result ≡ Err fault }
    ensures due { IfErr result (λ fault. (fault ≡ VarsFault.NoMemory)
        ⊎ (items_of rec.now assoc names.now ≡ Err fault)) }
{
    let Some(subject) = subject_of(rec, assoc) else {
        return Err(VarsFault::UnknownAssociation);
    };
    match first_unknown(&subject, names) {
        Some(place) => Err(unknown_at(place)),
        None => Ok(variables(alloc, rec, &subject, names)?),
    }
}

/// The fault of an unknown name at a place.
fn unknown_at(place: usize) -> VarsFault
    ensures { result ≡ VarsFault.UnknownName (told_number place) }
{
    VarsFault::UnknownName {
        place: place.min(u32::MAX as usize) as u32,
    }
}

/// The place of the first number that is no variable's.
pub(crate) fn first_unknown(subject: &Subject, names: &[u8]) -> Option<usize>
    ensures { result ≡ first_unknown subject.now names.now }
{
    names.iter().position(|&number| is_unknown(subject, number))
}

/// Whether no variable has this number.
fn is_unknown(subject: &Subject, number: u8) -> bool
    ensures { result ≡ is_unknown subject.now number }
{
    name_in(subject, number).is_none()
}

/// The variables that are asked for: those of these numbers, or all where there are none.
pub(crate) fn variables(
    alloc: Global,
    rec: &Record,
    subject: &Subject,
    names: &[u8],
) -> Result<Items, AllocError>
    ensures value { IfOk result (λ items. items ≡ variables_of rec.now subject.now names.now) }
    ensures cuttable { length names.now ≤ MAX_NAMES → IfOk result (IsCuttable rec.now.epoch) }
    ensures writable { IfOk result (AllByRecursion IsWritable) }
{
    Ok(Items::of(listed(alloc, rec, subject, asked(subject, names))?))
}

/// The numbers that are asked for: all, where none is named.
fn asked<'a>(subject: &Subject, names: &'a [u8]) -> &'a [u8]
    ensures numbers { result.now ≡ asked_numbers subject.now names.now }
    ensures few { length names.now ≤ MAX_NAMES → length result.now ≤ MAX_NAMES }
{
    if names.is_empty() {
        all_numbers(subject)
    } else {
        names
    }
}

/// The numbers of all variables.
#[tactic(auto, unfolding(crate::specs::Names::system_names, crate::specs::Names::peer_names))]
fn all_numbers(subject: &Subject) -> &'static [u8]
    ensures numbers { result.now ≡ asked_numbers subject.now [] }
    ensures few { length result.now ≤ 23 }
{
    match subject {
        Subject::System => &[0, 1, 2, 3, 4, 5, 6, 7, 8, 9, 10, 11, 12, 13, 14, 15],
        Subject::Peer(_) => &[
            0, 1, 2, 3, 4, 5, 6, 7, 8, 9, 10, 11, 12, 13, 14, 15, 16, 17, 18, 19, 20, 21, 22,
        ],
    }
}

/// The variables of these numbers.
fn listed(
    alloc: Global,
    rec: &Record,
    subject: &Subject,
    numbers: &[u8],
) -> Result<Vec<Item>, AllocError>
    ensures value { IfOk result (λ items.
        items.items ≡ filter_map (variable_of rec.now subject.now) numbers.now) }
    ensures short { IfOk result (λ items. AllByRecursion IsShort items.items) }
    ensures few { IfOk result (λ items. length items.items ≤ length numbers.now) }
    ensures writable { IfOk result (λ items. AllByRecursion IsWritable items.items) }
{
    let mut items = Vec::new(alloc);
    for &number in numbers {
        keep(&mut items, variable(alloc, rec, subject, number)?)?;
    }
    Ok(items)
}

/// Appends an item, if there is one.
fn keep(items: &mut Vec<Item>, item: Option<Item>) -> Result<(), AllocError>
    ensures { OnOk result (items.new.items ≡ items.old.items ++ option_to_list item) }
{
    if let Some(item) = item {
        items.push(item)?;
    }
    Ok(())
}

/// The variable of a number, if there is one.
#[tactic(auto, unfolding(crate::specs::Variables::variable_of))]
fn variable(
    alloc: Global,
    rec: &Record,
    subject: &Subject,
    number: u8,
) -> Result<Option<Item>, AllocError>
    ensures value { IfOk result (λ item. item ≡ variable_of rec.now subject.now number) }
    ensures short { IfOk result (λ item. IfSome item IsShort) }
    ensures writable { IfOk result (λ item. IfSome item IsWritable) }
{
    match name_in(subject, number) {
        Some(name) => Ok(Some(Item {
            name: fixed(alloc, name.as_bytes())?,
            value: Some(text(alloc, rec, subject, number)?),
        })),
        None => Ok(None),
    }
}

/// The name of the variable of a number, if there is one.
fn name_in(subject: &Subject, number: u8) -> Option<&'static str>
    ensures { option_copied result ≡ slice_get (names_in subject.now) number }
{
    names_in(subject).get(usize::from(number)).copied()
}

/// The names of the variables of a system or a peer; each stands at its number.
fn names_in(subject: &Subject) -> &'static [&'static str]
    ensures names { texts_of result.now ≡ names_in subject.now }
{
    match subject {
        Subject::System => system_names(),
        Subject::Peer(_) => peer_names(),
    }
}

/// The text of the variable of a number.
fn text(alloc: Global, rec: &Record, subject: &Subject, number: u8) -> Result<Text, AllocError>
    requires { number < length (names_in subject.now) }
    ensures value { IfOk result (λ text.
        text ≡ slice_index_or (texts_in rec.now subject.now) number []) }
    ensures short { IfOk result (λ text. length text ≤ 237) }
    ensures plain { IfOk result IsPlainValue }
{
    match subject {
        Subject::System => system_text(alloc, rec, number),
        Subject::Peer(peer) => peer_text(alloc, peer, number),
    }
}

impl From<AllocError> for VarsFault {
    ghost use Rattle.std.specs.Prelude.{◌≡◌};
    ghost use Rattle.sys_vars.specs.declared.variables.VarsFault.TheVariants.{NoMemory};

    ghost from_gives = { λ _ fault. fault ≡ NoMemory };

    fn from(_: AllocError) -> VarsFault {
        VarsFault::NoMemory
    }
}
