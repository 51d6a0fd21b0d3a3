ghost use Rattle.std.specs.Prelude.{◌≡◌, ◌≢◌, ◌↔◌, ◌%◌, ◌++◌, List, Ok, IfOk, OnOk, length};
ghost use Rattle.std.specs.Result.{IsErrOf};
ghost use Rattle.mode6_frame.specs.Told.{IsUnless};
ghost use Rattle.ntpq_report.specs.declared.associations.AssociationStatus.{AssociationStatus};
ghost use Rattle.ntpq_report.specs.declared.associations.TheConstants.{ASSOCIATION_LEN};
ghost use Rattle.ntpq_report.specs.declared.faults.ReportFault.TheVariants.{BadReply, NoMemory};
ghost use Rattle.ntpq_report.specs.Associations.{IsStatusBody, association_line, as_text};

use crate::associations::{AssociationStatus, Associations, read_associations};
use crate::faults::ReportFault;
use crate::fields::{put_hex_word, put_number};
use edge_traits::Text;
use std::alloc::{AllocError, Global};

/// The width of the column of ordinals.
pub const ORDINAL_WIDTH: usize = 3;

/// The width of the column of the associations' numbers.
pub const ASSOCIATION_WIDTH: usize = 5;

/// The associations that the body of an answer to read status names, a line for each with its
/// ordinal from 1 on, its number and its status word in hexadecimal digits, under a heading; or
/// `no associations` alone.
pub fn as_report(alloc: Global, body: &[u8]) -> Result<Text, ReportFault>
    ensures printed { IfOk result (λ text. (associations : List AssociationStatus)
        × IsStatusBody body.now associations × (text ≡ as_text associations)) }
    ensures only { (associations : List AssociationStatus) → IsStatusBody body.now associations
        → IsUnless NoMemory result (Ok (as_text associations)) }

    // The refusals: want of memory comes freely.
    ensures refused { IsErrOf result BadReply ↔ (length body.now % ASSOCIATION_LEN ≢ 0) }
{
    let associations = read_associations(alloc, body)?;
    Ok(text_of(alloc, &associations)?)
}

/// The report of associations.
fn text_of(alloc: Global, associations: &Associations) -> Result<Text, AllocError>
    ensures { IfOk result (λ text. text ≡ as_text associations.now) }
{
    if associations.len() == 0 {
        return Ok(Text::of(Vec::from_slice(alloc, b"no associations\n")?));
    }
    let mut text = Vec::from_slice(alloc, b"ind assid status\n")?;
    for place in 0..associations.len() {
        put_association(alloc, &mut text, place + 1, associations.get(place))?;
    }
    Ok(Text::of(text))
}

/// Appends the line of an association.
fn put_association(
    alloc: Global,
    text: &mut Vec<u8>,
    ordinal: usize,
    association: AssociationStatus,
) -> Result<(), AllocError>
    ensures { OnOk result
        (text.new.items ≡ text.old.items ++ association_line ordinal association) }
{
    put_number(text, ORDINAL_WIDTH, ordinal)?;
    text.push(b' ')?;
    put_number(text, ASSOCIATION_WIDTH, usize::from(association.assoc))?;
    text.push(b' ')?;
    put_hex_word(alloc, text, association.status)?;
    text.push(b'\n')?;
    Ok(())
}
