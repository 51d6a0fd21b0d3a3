ghost use Rattle.std.specs.Prelude.{◌≡◌, ◌↔◌, ◌≤◌, ◌++◌, Ok, IfOk, codes};
ghost use Rattle.std.specs.Result.{IsErrOf};
ghost use Rattle.mode6_frame.specs.Told.{IsUnless};
ghost use Rattle.ntpq_report.specs.declared.faults.ReportFault.TheVariants.{BadReply, NoMemory};
ghost use Rattle.ntpq_report.specs.Columns.{row_text, texts_of};
ghost use Rattle.ntpq_report.specs.Peers.{ArePeerValues, PeerValues, peer_line_of, peers_header, tally_of, values_of};

use crate::columns::{Row, put_row, titles};
use crate::faults::ReportFault;
use crate::peer_variables::{MAX_HPOLL, PeerVariables, peer_variables};
use edge_traits::Text;
use itoa::Buffer;
use mode6_frame::{FALSETICKER, Items, OUTLIER, SURVIVOR, SYSTEM_PEER};
use std::alloc::{AllocError, Global};

/// The header of the report of the peers.
pub fn peers_header(alloc: Global) -> Result<Text, AllocError>
    ensures { IfOk result (λ text. text ≡ peers_header) }
{
    line_of(alloc, b" ", &titles())
}

/// The line of a peer, of its selection code (RFC 9327, section 3.2) and its variables: the tally,
/// then the values as they came, but for the poll exponent, which is shown as the interval in
/// seconds. Items of other names are passed over.
pub fn peer_line(alloc: Global, selection: u8, items: &Items) -> Result<Text, ReportFault>
    requires { selection ≤ 7 }
    ensures printed { IfOk result (λ line. (values : PeerValues)
        × ArePeerValues items.now values × (line ≡ peer_line_of selection values)) }
    ensures only { (values : PeerValues) → ArePeerValues items.now values
        → IsUnless NoMemory result (Ok (peer_line_of selection values)) }

    // The refusals: want of memory comes freely.
    ensures refused { IsErrOf result BadReply
        ↔ ((values : PeerValues) → ¬ (ArePeerValues items.now values)) }
{
    match peer_variables(items) {
        Some(variables) => Ok(line_of_peer(alloc, selection, &variables)?),
        None => Err(ReportFault::BadReply),
    }
}

/// The line of a peer with these variables.
fn line_of_peer(
    alloc: Global,
    selection: u8,
    variables: &PeerVariables<'_>,
) -> Result<Text, AllocError>
    requires { variables.now.hpoll ≤ MAX_HPOLL }
    ensures { IfOk result (λ line. line ≡ peer_line_of selection (values_of variables.now)) }
{
    let mut digits = Buffer::new();
    let shown = Row {
        remote: variables.srcadr,
        refid: variables.refid,
        stratum: variables.stratum,
        poll: digits.format(2u32.pow(variables.hpoll)).as_bytes(),
        reach: variables.reach,
        delay: variables.delay,
        offset: variables.offset,
        jitter: variables.jitter,
    };
    line_of(alloc, tally(selection), &shown)
}

/// The line of a row, with a tally before it.
fn line_of(alloc: Global, tally: &[u8], row: &Row<'_>) -> Result<Text, AllocError>
    ensures { IfOk result (λ line. line ≡ tally.now ++ row_text (texts_of row.now) ++ codes "\n") }
{
    let mut text = Vec::from_slice(alloc, tally)?;
    put_row(&mut text, row)?;
    text.push(b'\n')?;
    Ok(Text::of(text))
}

/// The tally of a selection code.
fn tally(selection: u8) -> &'static [u8]
    ensures { result.now ≡ tally_of selection }
{
    match selection {
        FALSETICKER => b"x",
        OUTLIER => b"-",
        SURVIVOR => b"+",
        SYSTEM_PEER => b"*",
        _ => b" ",
    }
}
