ghost use Rattle.std.specs.Prelude.{◌≡◌, ◌+◌, ◌-◌, ◌≤◌, Err};
ghost use Rattle.edge_traits.specs.Ports.{IsPortKept};
ghost use Rattle.edge_traits.specs.Told.{Rose};
ghost use Rattle.mode6_frame.specs.declared.message.TheConstants.{HEAD_LEN, MAX_BODY};
ghost use Rattle.mru_items.specs.Queries.{IsQuery};
ghost use Rattle.ntpq_client.specs.Talks.{new_talk};
ghost use Rattle.ntpq_client.specs.declared.client.TheConstants.{MAX_QUIETS};
ghost use Rattle.ntpq_client.specs.declared.fault.AskFault.{AskFault};
ghost use Rattle.ntpq_tool.specs.Listings.{RanListing};
ghost use Rattle.ntpq_tool.specs.Runs.{Behind};
ghost use Rattle.ntpq_tool.specs.declared.ending.Failure.{Failure};

use crate::ending::Failure;
use edge_traits::{Port, Text};
use mru_items::Query;
use mrulist_run::{RunFault, run};
use ntpq_client::Client;
use ntpq_report::mru_report;
use std::alloc::Global;

/// Lists the clients of a new client's server, and makes the report of the listing.
pub fn list_clients<P: Port>(
    alloc: Global,
    client: &mut Client,
    query: &Query,
    port: &mut P,
) -> Result<Text, Failure>
    requires most { HEAD_LEN + MAX_BODY ≤ P.most port.old }
    requires is_new { client.old ≡ new_talk client.old.server }
    requires query { IsQuery query.now }
    ensures ran { RanListing query.now client.old.server result
        (P.trace port.old) (P.trace port.new) }
    ensures causes { Behind result (P.faults port.old) (P.faults port.new)
        (P.is_closed port.new) }
    ensures quiets { Rose (client.new.quiets - client.old.quiets)
        (P.quiets port.old) (P.quiets port.new) }
    ensures given_up { result ≡ Err (Failure.Ask AskFault.NoReply)
        → MAX_QUIETS ≤ client.new.quiets }
    ensures kept { IsPortKept P.faults P.quiets P.address P.most port.old port.new }
{
    match run(alloc, client, query, port) {
        Ok(listing) => match mru_report(alloc, &listing) {
            Ok(report) => Ok(report),
            Err(_) => Err(Failure::NoMemory),
        },
        Err(RunFault::Ask(fault)) => Err(Failure::Ask(fault)),
        Err(RunFault::BadReply { .. }) => Err(Failure::BadReply),
        Err(RunFault::NoMemory) => Err(Failure::NoMemory),
    }
}
