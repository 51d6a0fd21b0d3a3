ghost use Rattle.std.specs.Prelude.{◌≡◌, ◌≤◌, ◌∷◌, [], length, OnOk, IfOk, IfErr};
ghost use Rattle.std.specs.List.{AllByRecursion};
ghost use Rattle.edge_traits.specs.Told.{gained};
ghost use Rattle.setup.specs.Causes.{IsHostCause};
ghost use Rattle.setup.specs.Setups.{AreNewWorkers, IsNew};

use crate::files::SetupFault;
use conf_file::Addrs;
use edge_traits::{Host, HostFault};
use net_addr::{Addr, Ip};
use responders::Workers;
use std::alloc::Global;
use worker::Worker;

/// Where the pilot's port is bound: any address and port of both families; the system chooses.
pub const UPSTREAM: Addr = Addr {
    ip: Ip::V4([0; 4]),
    port: 0,
};

/// A new port at this address, and a new clock.
pub(crate) fn open_at<H: Host>(host: &mut H, at: &Addr) -> Result<(H::P, H::C), SetupFault<H::S>>
    ensures new { IfOk result (λ opened. IsNew at.now (H.P.trace opened.0)
        (H.P.faults opened.0) (H.P.quiets opened.0) (H.P.address opened.0)
        (H.C.readings opened.1)) }
    ensures most { IfOk result (λ opened. 1024 ≤ H.P.most opened.0) }
    ensures bound { OnOk result (H.binds host.new ≡ gained (H.binds host.old) (at.now ∷ [])) }
    ensures cause { IfErr result (IsHostCause (H.faults host.old) (H.faults host.new)) }

    // What stays.
    ensures faults_kept { H.faults host.old ≤ H.faults host.new }
    ensures files_kept { H.files host.new ≡ H.files host.old }
    ensures origin_kept { H.origin host.new ≡ H.origin host.old }
    ensures salt_kept { H.salt host.new ≡ H.salt host.old }
{
    match host.bind(at) {
        Ok(port) => Ok((port, host.clock())),
        Err(HostFault::Failed) => Err(SetupFault::Host),
        Err(HostFault::NoMemory) => Err(SetupFault::NoMemory),
    }
}

/// The workers of these addresses, each at a new port with a new clock, in their order.
pub(crate) fn open_workers<H: Host>(
    alloc: Global,
    host: &mut H,
    listen: &Addrs,
) -> Result<Workers<H::P, H::C>, SetupFault<H::S>>
    requires some { 1 ≤ length listen.now }
    ensures new { IfOk result (AreNewWorkers H.P.trace H.P.faults H.P.quiets H.P.address
        H.C.readings listen.now) }
    ensures most { IfOk result (AllByRecursion (λ worker. 1024 ≤ H.P.most worker.port)) }
    ensures bound { OnOk result (H.binds host.new ≡ gained (H.binds host.old) listen.now) }
    ensures cause { IfErr result (IsHostCause (H.faults host.old) (H.faults host.new)) }

    // What stays.
    ensures faults_kept { H.faults host.old ≤ H.faults host.new }
    ensures files_kept { H.files host.new ≡ H.files host.old }
    ensures origin_kept { H.origin host.new ≡ H.origin host.old }
    ensures salt_kept { H.salt host.new ≡ H.salt host.old }
{
    let mut workers = Vec::with_capacity(alloc, listen.len())?;
    for place in 0..listen.len() {
        let (port, clock) = open_at(host, &listen.get(place))?;
        workers.push_reserved(Worker::new(alloc, place as u32, port, clock));
    }
    Ok(Workers::of(workers))
}
