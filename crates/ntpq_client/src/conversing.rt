ghost use Rattle.std.specs.Prelude.{◌≡◌, ◌+◌, ◌-◌, ◌<◌, ◌≤◌, Some, None, Ok, Err, true, OnOk, OnErr};
ghost use Rattle.edge_traits.specs.Ports.{IsPortKept};
ghost use Rattle.edge_traits.specs.Told.{Rose};
ghost use Rattle.ntpq_client.specs.Dialogues.{dialogue_by};
ghost use Rattle.ntpq_client.specs.Ends.{Causes, Conversed};
ghost use Rattle.ntpq_client.specs.Exchanges.{Exchanged, ToldTo};
ghost use Rattle.ntpq_client.specs.declared.client.TheConstants.{MAX_REQUESTS};
ghost use Rattle.ntpq_client.specs.Talks.{stuck};

use crate::client::{Client, MAX_REQUESTS};
use crate::fault::AskFault;
use crate::plan::Plan;
use crate::polling::Got;
use edge_traits::Port;
use mode6_frame::{HEAD_LEN, MAX_BODY};
use std::alloc::{AllocError, Global};

/// Posts what is due and polls for its answer until the plan is over. After a fault the plan may not
/// have been told the last news.
pub fn converse<D: Plan, P: Port>(
    alloc: Global,
    client: &mut Client,
    plan: &mut D,
    port: &mut P,
) -> Result<(), AskFault>
    requires most { HEAD_LEN + MAX_BODY ≤ P.most port.old }
    ensures conversed { Conversed (dialogue_by D.due D.whole D.refused D.silent) client.old plan.old
        client.new plan.new result (P.trace port.old) (P.trace port.new) }
    ensures causes { Causes result (P.faults port.old) (P.faults port.new)
        (P.is_closed port.new) }
    ensures kept { IsPortKept P.faults P.quiets P.address P.most port.old port.new }
    ensures quiets { Rose (client.new.quiets - client.old.quiets)
        (P.quiets port.old) (P.quiets port.new) }

    // A client that has given up stays so, and calls its port no more.
    ensures stuck { (fault : AskFault) → stuck client.old ≡ Some fault → result ≡ Err fault }
    ensures port_kept { (fault : AskFault) → stuck client.old ≡ Some fault
        → port.new ≡ port.old }
{
    if let Some(fault) = client.stuck() {
        return Err(fault);
    }
    converse_on(alloc, client, plan, port)
}

/// Posts what is due and polls for its answer until the plan is over, for a client that has not
/// given up.
fn converse_on<D: Plan, P: Port>(
    alloc: Global,
    client: &mut Client,
    plan: &mut D,
    port: &mut P,
) -> Result<(), AskFault>
    requires most { HEAD_LEN + MAX_BODY ≤ P.most port.old }
    requires unstuck { stuck client.old ≡ None }
    ensures conversed { Conversed (dialogue_by D.due D.whole D.refused D.silent) client.old plan.old
        client.new plan.new result (P.trace port.old) (P.trace port.new) }
    ensures causes { Causes result (P.faults port.old) (P.faults port.new)
        (P.is_closed port.new) }
    ensures kept { IsPortKept P.faults P.quiets P.address P.most port.old port.new }
    ensures quiets { Rose (client.new.quiets - client.old.quiets)
        (P.quiets port.old) (P.quiets port.new) }
{
    'exchanges: loop {
        let goes_on = exchange(alloc, client, plan, port)?;
        if !goes_on {
            return Ok(());
        }
    }
}

/// Posts what is due and polls for its answer: whether anything was due.
fn exchange<D: Plan, P: Port>(
    alloc: Global,
    client: &mut Client,
    plan: &mut D,
    port: &mut P,
) -> Result<bool, AskFault>
    requires most { HEAD_LEN + MAX_BODY ≤ P.most port.old }
    requires unstuck { stuck client.old ≡ None }
    ensures exchanged { Exchanged (dialogue_by D.due D.whole D.refused D.silent) client.old plan.old
        client.new plan.new result (P.trace port.old) (P.trace port.new) }
    ensures posted { result ≡ Ok true → (client.old.posted < MAX_REQUESTS)
        × (client.new.posted ≡ client.old.posted + 1) }
    ensures causes { Causes result (P.faults port.old) (P.faults port.new)
        (P.is_closed port.new) }
    ensures kept { IsPortKept P.faults P.quiets P.address P.most port.old port.new }
    ensures quiets { Rose (client.new.quiets - client.old.quiets)
        (P.quiets port.old) (P.quiets port.new) }
{
    match plan.due() {
        None => return Ok(false),
        Some(request) => client.post(alloc, request, port)?,
    }
    let got = client.poll(alloc, port);
    tell(alloc, plan, got)
}

/// Tells a plan what came.
fn tell<D: Plan>(alloc: Global, plan: &mut D, got: Result<Got, AskFault>) -> Result<bool, AskFault>
    ensures { ToldTo (dialogue_by D.due D.whole D.refused D.silent) got plan.old plan.new result }
{
    match got {
        Ok(Got::Whole { status, text }) => gone_on(plan.whole(alloc, status, text)),
        Ok(Got::Quiet) => gone_on(plan.silent(alloc)),
        Err(AskFault::Refused(code)) => gone_on(plan.refused(alloc, code)),
        Err(fault) => Err(fault),
    }
}

/// Whether a plan went on.
fn gone_on(done: Result<(), AllocError>) -> Result<bool, AskFault>
    ensures on { OnOk done (result ≡ Ok true) }
    ensures no_memory { OnErr done (result ≡ Err AskFault.NoMemory) }
{
    match done {
        Ok(()) => Ok(true),
        Err(_) => Err(AskFault::NoMemory),
    }
}
