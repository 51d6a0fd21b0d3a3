ghost use Rattle.std.specs.Prelude.{◌≡◌, List, IfOk};
ghost use Rattle.mode6_frame.specs.declared.items.Item.{Item};
ghost use Rattle.mode6_frame.specs.Items.{IsItemText};
ghost use Rattle.ntpq_report.specs.Associations.{IsStatusBody};
ghost use Rattle.ntpq_tool.specs.Answers.{IsPeerLine, IsStatusReport, IsVariablesReport, Judges};

use crate::ending::Failure;
use edge_traits::Text;
use mode6_frame::{ItemFault, Items, read_items, read_peer_status};
use ntpq_report::{
    AssociationStatus, Associations, ReportFault, as_report, peer_line, read_associations,
    rv_report,
};
use std::alloc::Global;

/// A whole answer.
#[derive(Drop)]
pub struct Answer {
    /// The status word.
    pub status: u16,
    /// The octets, those of all its datagrams put together.
    pub text: Text,
}

/// The report of an answer that has the variables of an association, 0 for the system.
pub fn variables_report(alloc: Global, assoc: u16, answer: &Answer) -> Result<Text, Failure>
    ensures { Judges (IsVariablesReport assoc answer.now) result }
{
    match items_of(alloc, &answer.text) {
        Ok(items) => Ok(rv_report(alloc, assoc, answer.status, &items)?),
        Err(why) => Err(why),
    }
}

/// The report of an answer that names associations.
pub fn status_report(alloc: Global, answer: &Answer) -> Result<Text, Failure>
    ensures { Judges (IsStatusReport answer.now) result }
{
    match as_report(alloc, answer.text.as_slice()) {
        Ok(report) => Ok(report),
        Err(ReportFault::BadReply) => Err(Failure::BadReply),
        Err(ReportFault::NoMemory) => Err(Failure::NoMemory),
    }
}

/// The associations that an answer names.
pub fn associations_of(alloc: Global, answer: &Answer) -> Result<Associations, Failure>
    ensures { Judges (IsStatusBody answer.now.text) result }
{
    match read_associations(alloc, answer.text.as_slice()) {
        Ok(associations) => Ok(associations),
        Err(ReportFault::BadReply) => Err(Failure::BadReply),
        Err(ReportFault::NoMemory) => Err(Failure::NoMemory),
    }
}

/// The line of an association, by the answer that has its variables.
pub fn line_of_peer(
    alloc: Global,
    association: AssociationStatus,
    answer: &Answer,
) -> Result<Text, Failure>
    ensures { Judges (IsPeerLine association answer.now) result }
{
    let items = match items_of(alloc, &answer.text) {
        Ok(items) => items,
        Err(why) => return Err(why),
    };
    let peer = read_peer_status(association.status);
    match peer_line(alloc, peer.selection, &items) {
        Ok(line) => Ok(line),
        Err(ReportFault::BadReply) => Err(Failure::BadReply),
        Err(ReportFault::NoMemory) => Err(Failure::NoMemory),
    }
}

/// The items of an answer.
fn items_of(alloc: Global, text: &Text) -> Result<Items, Failure>
    ensures items { Judges (IsItemText text.now) result }
    ensures only { (items : List Item) → IsItemText text.now items
        → IfOk result (λ made. made ≡ items) }
{
    match read_items(alloc, text.as_slice()) {
        Ok(items) => Ok(items),
        Err(ItemFault::At { .. }) => Err(Failure::BadReply),
        Err(ItemFault::NoMemory) => Err(Failure::NoMemory),
    }
}
