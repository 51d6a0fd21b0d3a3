ghost use Rattle.std.specs.Prelude.{◌≡◌, ◌+◌, ◌-◌, ◌≤◌, Some, Err, IsSome};
ghost use Rattle.edge_traits.specs.Ports.{IsPortKept};
ghost use Rattle.edge_traits.specs.Told.{Rose};
ghost use Rattle.mode6_frame.specs.declared.message.TheConstants.{HEAD_LEN, MAX_BODY};
ghost use Rattle.mru_items.specs.Queries.{IsQuery};
ghost use Rattle.mrulist_run.specs.Runs.{CameTo, Caused, Run, run_fault_of};
ghost use Rattle.mrulist_run.specs.declared.fault.RunFault.{RunFault};
ghost use Rattle.ntpq_client.specs.declared.client.TheConstants.{MAX_QUIETS};
ghost use Rattle.ntpq_client.specs.declared.fault.AskFault.{AskFault};
ghost use Rattle.ntpq_client.specs.Talks.{new_talk};

use crate::fault::RunFault;
use edge_traits::Port;
use mru_items::Query;
use mrulist_reader::{End, Listing, Reader};
use ntpq_client::{AskFault, Client, converse};
use std::alloc::Global;

/// Lists the clients of a client's server, page after page, until a page ends the client list.
///
/// It asks for a nonce and then for pages, each behind the newest clients that it was told. Where
/// none of these stands any more it goes back to older ones, and where a take found nothing it asks
/// for a new nonce. It keeps the row of each client that it was told last.
pub fn run<P: Port>(
    alloc: Global,
    client: &mut Client,
    query: &Query,
    port: &mut P,
) -> Result<Listing, RunFault>
    requires most { HEAD_LEN + MAX_BODY ≤ P.most port.old }
    requires is_new { client.old ≡ new_talk client.old.server }
    requires query { IsQuery query.now }
    ensures run { Run query.now client.old client.new result (P.trace port.old) (P.trace port.new) }
    ensures causes { Caused result (P.faults port.old) (P.faults port.new) (P.is_closed port.new) }
    ensures quiets { Rose (client.new.quiets - client.old.quiets)
        (P.quiets port.old) (P.quiets port.new) }
    ensures no_reply { result ≡ Err (RunFault.Ask AskFault.NoReply)
        → MAX_QUIETS ≤ client.new.quiets }
    ensures kept { IsPortKept P.faults P.quiets P.address P.most port.old port.new }
{
    let mut reader = Reader::new(alloc, query);
    match converse(alloc, client, &mut reader, port) {
        Ok(()) => came_to(alloc, reader),
        Err(fault) => Err(fault_of(fault)),
    }
}

/// What a listing that is over came to.
fn came_to(alloc: Global, reader: Reader) -> Result<Listing, RunFault>
    requires { IsSome reader.end }
    ensures { CameTo reader result }
{
    match reader.end() {
        Some(End::Listed(now)) => match reader.into_listing(alloc, now) {
            Ok(listing) => Ok(listing),
            Err(_) => Err(RunFault::NoMemory),
        },
        Some(End::BadReply) => Err(RunFault::BadReply {
            place: reader.whole_answers(),
        }),
        Some(End::Refused(code)) => Err(RunFault::Ask(AskFault::Refused(code))),
        None => unreachable!(),
    }
}

/// Why a listing did not complete whose client has no whole answer.
fn fault_of(fault: AskFault) -> RunFault
    ensures { result ≡ run_fault_of fault }
{
    match fault {
        AskFault::NoMemory => RunFault::NoMemory,
        fault => RunFault::Ask(fault),
    }
}
