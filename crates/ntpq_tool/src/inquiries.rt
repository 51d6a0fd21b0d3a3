ghost use Rattle.std.specs.Prelude.{◌≡◌, ◌+◌, ◌-◌, ◌≤◌, Err, length};
ghost use Rattle.edge_traits.specs.Ports.{IsPortKept};
ghost use Rattle.edge_traits.specs.Told.{Rose};
ghost use Rattle.mode6_frame.specs.declared.message.TheConstants.{HEAD_LEN, MAX_BODY};
ghost use Rattle.ntpq_client.specs.declared.client.TheConstants.{MAX_QUIETS};
ghost use Rattle.ntpq_client.specs.declared.fault.AskFault.{AskFault};
ghost use Rattle.ntpq_tool.specs.Answers.{IsPeerLine, IsStatusReport, IsVariablesReport};
ghost use Rattle.ntpq_tool.specs.Runs.{Behind, Inquired};
ghost use Rattle.ntpq_tool.specs.Scripts.{peer_request, status_request, variables_request};
ghost use Rattle.ntpq_tool.specs.declared.ending.Failure.{Failure};

use crate::answers::{Answer, line_of_peer, status_report, variables_report};
use crate::ending::Failure;
use crate::requests::{peer_request, status_request, variables_request};
use edge_traits::{Port, Text};
use mode6_frame::MAX_BODY;
use ntpq_client::Client;
use ntpq_report::AssociationStatus;
use std::alloc::Global;

/// Asks for variables of an association by these names, and makes their report.
pub fn ask_variables<P: Port>(
    alloc: Global,
    client: &mut Client,
    assoc: u16,
    names: Text,
    port: &mut P,
) -> Result<Text, Failure>
    requires most { HEAD_LEN + MAX_BODY ≤ P.most port.old }
    requires names { length names ≤ MAX_BODY }
    ensures inquired { Inquired (IsVariablesReport assoc) (variables_request assoc names)
        client.old client.new result (P.trace port.old) (P.trace port.new) }
    ensures causes { Behind result (P.faults port.old) (P.faults port.new)
        (P.is_closed port.new) }
    ensures quiets { Rose (client.new.quiets - client.old.quiets)
        (P.quiets port.old) (P.quiets port.new) }
    ensures given_up { result ≡ Err (Failure.Ask AskFault.NoReply)
        → MAX_QUIETS ≤ client.new.quiets }
    ensures kept { IsPortKept P.faults P.quiets P.address P.most port.old port.new }
{
    let request = variables_request(assoc, names);
    match client.ask(alloc, &request, port) {
        Ok((status, text)) => variables_report(alloc, assoc, &Answer { status, text }),
        Err(fault) => Err(Failure::Ask(fault)),
    }
}

/// Asks for the associations, and makes their report.
pub fn ask_associations<P: Port>(
    alloc: Global,
    client: &mut Client,
    port: &mut P,
) -> Result<Text, Failure>
    requires most { HEAD_LEN + MAX_BODY ≤ P.most port.old }
    ensures inquired { Inquired IsStatusReport status_request
        client.old client.new result (P.trace port.old) (P.trace port.new) }
    ensures causes { Behind result (P.faults port.old) (P.faults port.new)
        (P.is_closed port.new) }
    ensures quiets { Rose (client.new.quiets - client.old.quiets)
        (P.quiets port.old) (P.quiets port.new) }
    ensures given_up { result ≡ Err (Failure.Ask AskFault.NoReply)
        → MAX_QUIETS ≤ client.new.quiets }
    ensures kept { IsPortKept P.faults P.quiets P.address P.most port.old port.new }
{
    let request = status_request(alloc);
    match client.ask(alloc, &request, port) {
        Ok((status, text)) => status_report(alloc, &Answer { status, text }),
        Err(fault) => Err(Failure::Ask(fault)),
    }
}

/// Asks for what a line shows of an association, and makes the line.
pub fn ask_peer<P: Port>(
    alloc: Global,
    client: &mut Client,
    association: AssociationStatus,
    port: &mut P,
) -> Result<Text, Failure>
    requires most { HEAD_LEN + MAX_BODY ≤ P.most port.old }
    ensures inquired { Inquired (IsPeerLine association) (peer_request association.assoc)
        client.old client.new result (P.trace port.old) (P.trace port.new) }
    ensures causes { Behind result (P.faults port.old) (P.faults port.new)
        (P.is_closed port.new) }
    ensures quiets { Rose (client.new.quiets - client.old.quiets)
        (P.quiets port.old) (P.quiets port.new) }
    ensures given_up { result ≡ Err (Failure.Ask AskFault.NoReply)
        → MAX_QUIETS ≤ client.new.quiets }
    ensures kept { IsPortKept P.faults P.quiets P.address P.most port.old port.new }
{
    let Ok(request) = peer_request(alloc, association.assoc) else {
        return Err(Failure::NoMemory);
    };
    match client.ask(alloc, &request, port) {
        Ok((status, text)) => line_of_peer(alloc, association, &Answer { status, text }),
        Err(fault) => Err(Failure::Ask(fault)),
    }
}
