ghost use Rattle.std.specs.Prelude.{◌≡◌, ◌+◌, ◌-◌, ◌≤◌, Err, [], ◌∷◌, ◌++◌, None, IfOk};
ghost use Rattle.edge_traits.specs.Ports.{IsPortKept};
ghost use Rattle.edge_traits.specs.Told.{Rose};
ghost use Rattle.mode6_frame.specs.declared.message.TheConstants.{HEAD_LEN, MAX_BODY};
ghost use Rattle.ntpq_client.specs.Talks.{stuck};
ghost use Rattle.ntpq_client.specs.declared.client.TheConstants.{MAX_QUIETS};
ghost use Rattle.ntpq_client.specs.declared.fault.AskFault.{AskFault};
ghost use Rattle.ntpq_report.specs.Peers.{peers_header};
ghost use Rattle.ntpq_tool.specs.declared.words.Wanted.{Wanted};
ghost use Rattle.ntpq_tool.specs.Runs.{Behind, LinesRun, Runs};
ghost use Rattle.ntpq_tool.specs.declared.answers.Answer.{Answer};
ghost use Rattle.ntpq_tool.specs.declared.ending.Failure.{Failure};

use crate::answers::{Answer, associations_of};
use crate::ending::Failure;
use crate::inquiries::ask_peer;
use crate::requests::status_request;
use edge_traits::{Port, Text};
use ntpq_client::Client;
use ntpq_report::{Associations, peers_header};
use std::alloc::{AllocError, Global};

/// Asks for the associations, and then for what a line shows of each, in their order, and makes the
/// report of the peers.
pub fn ask_peers<P: Port>(alloc: Global, client: &mut Client, port: &mut P) -> Result<Text, Failure>
    requires most { HEAD_LEN + MAX_BODY ≤ P.most port.old }
    ensures ran { Runs Wanted.Peers client.old [] result (P.trace port.old) (P.trace port.new) }
    ensures causes { Behind result (P.faults port.old) (P.faults port.new)
        (P.is_closed port.new) }
    ensures quiets { Rose (client.new.quiets - client.old.quiets)
        (P.quiets port.old) (P.quiets port.new) }
    ensures given_up { result ≡ Err (Failure.Ask AskFault.NoReply)
        → MAX_QUIETS ≤ client.new.quiets }
    ensures kept { IsPortKept P.faults P.quiets P.address P.most port.old port.new }
{
    let request = status_request(alloc);
    match client.ask(alloc, &request, port) {
        Ok((status, text)) => ask_named(alloc, client, &Answer { status, text }, port),
        Err(fault) => Err(Failure::Ask(fault)),
    }
}

/// Asks for what a line shows of each association that an answer names, and makes the report of the
/// peers.
fn ask_named<P: Port>(
    alloc: Global,
    client: &mut Client,
    first: &Answer,
    port: &mut P,
) -> Result<Text, Failure>
    requires most { HEAD_LEN + MAX_BODY ≤ P.most port.old }
    requires unstuck { stuck client.old ≡ None }
    ensures ran { Runs Wanted.Peers client.old (first.now ∷ [])
        result (P.trace port.old) (P.trace port.new) }
    ensures causes { Behind result (P.faults port.old) (P.faults port.new)
        (P.is_closed port.new) }
    ensures quiets { Rose (client.new.quiets - client.old.quiets)
        (P.quiets port.old) (P.quiets port.new) }
    ensures given_up { result ≡ Err (Failure.Ask AskFault.NoReply)
        → MAX_QUIETS ≤ client.new.quiets }
    ensures kept { IsPortKept P.faults P.quiets P.address P.most port.old port.new }
{
    let associations = match associations_of(alloc, first) {
        Ok(associations) => associations,
        Err(why) => return Err(why),
    };
    match ask_lines(alloc, client, &associations, port) {
        Ok(lines) => match under_header(alloc, lines.as_slice()) {
            Ok(report) => Ok(report),
            Err(_) => Err(Failure::NoMemory),
        },
        Err(why) => Err(why),
    }
}

/// The report of the peers with these lines.
fn under_header(alloc: Global, lines: &[u8]) -> Result<Text, AllocError>
    ensures { IfOk result (λ report. report ≡ peers_header ++ lines.now) }
{
    let mut report = Vec::from_slice(alloc, peers_header(alloc)?.as_slice())?;
    report.extend_from_slice(lines)?;
    Ok(Text::of(report))
}

/// Asks for what a line shows of each association, in their order, and makes the lines.
fn ask_lines<P: Port>(
    alloc: Global,
    client: &mut Client,
    associations: &Associations,
    port: &mut P,
) -> Result<Text, Failure>
    requires most { HEAD_LEN + MAX_BODY ≤ P.most port.old }
    requires unstuck { stuck client.old ≡ None }
    ensures ran { (first : Answer) → LinesRun first associations.now client.old result
        (P.trace port.old) (P.trace port.new) }
    ensures causes { Behind result (P.faults port.old) (P.faults port.new)
        (P.is_closed port.new) }
    ensures quiets { Rose (client.new.quiets - client.old.quiets)
        (P.quiets port.old) (P.quiets port.new) }
    ensures given_up { result ≡ Err (Failure.Ask AskFault.NoReply)
        → MAX_QUIETS ≤ client.new.quiets }
    ensures kept { IsPortKept P.faults P.quiets P.address P.most port.old port.new }
{
    let mut lines = Vec::new(alloc);
    for place in 0..associations.len() {
        let line = match ask_peer(alloc, client, associations.get(place), port) {
            Ok(line) => line,
            Err(why) => return Err(why),
        };
        if lines.extend_from_slice(line.as_slice()).is_err() {
            return Err(Failure::NoMemory);
        }
    }
    Ok(Text::of(lines))
}
