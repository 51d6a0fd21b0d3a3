use crate::shared::{CLIENT, SECOND, common, datagram, opened};
use edge_traits::{Event, Incoming, MemoryClock, MemoryPort, OpenGate};
use server_core::{Op, Stop, Unheard, Why};
use shared_book::stop;
use std::alloc::{AllocError, Global};
use std::test::Fail;
use worker::{ActKind, VerdictKind, WorkEnd, Worker};

/// A client's request of version 4.
const TIME: [u8; 48] = *b"\x23\x00\x06\xe9\
    \x00\x00\x00\x00\x00\x00\x00\x00\x00\x00\x00\x00\x00\x00\x00\x00\x00\x00\x00\x00\x00\x00\
    \x00\x00\x00\x00\x00\x00\x00\x00\x00\x00\x00\x00\x00\x00\x83\xaa\x7e\x80\x00\x00\x00\x00";

/// The time of a server that was not set, one second after its origin.
const REPLY: [u8; 48] = *b"\xe4\x00\x06\xec\
    \x00\x00\x00\x00\x00\x10\x00\x00INIT\x00\x00\x00\x00\x00\x00\x00\x00\
    \x83\xaa\x7e\x80\x00\x00\x00\x00\x83\xaa\x7e\x81\x00\x00\x00\x00\x83\xaa\x7e\x81\x00\x00\x00\x00";

/// What comes: the request, 47 octets of it, nothing for a while, the request again, and then nothing
/// any more.
fn coming(alloc: Global) -> Result<Vec<Incoming>, AllocError> {
    let mut incoming = Vec::new(alloc);
    incoming.push(datagram(&CLIENT, &TIME))?;
    incoming.push(datagram(&CLIENT, &TIME[..47]))?;
    incoming.push(Incoming::Quiet)?;
    incoming.push(datagram(&CLIENT, &TIME))?;
    Ok(incoming)
}

/// How many datagrams were given that are the reply.
fn replies(port: &MemoryPort) -> u64 {
    let mut count = 0u64;
    for event in port.events() {
        if let Event::Sent(to, octets) = event {
            if *to == CLIENT && octets.as_slice() == REPLY.as_slice() {
                count = count.saturating_add(1);
            }
        }
    }
    count
}

#[test]
fn a_worker_answers_what_comes(rt: HostRuntime) -> Result<(), Fail> {
    let alloc = rt.alloc();
    let Some((door, mut seat)) = opened(alloc) else {
        panic!(rt; "no memory")
    };
    let mut failing = Vec::new(alloc);
    failing.push(1)?;
    let port = MemoryPort::of(alloc, coming(alloc)?, failing);
    let clock = MemoryClock::of(vec![in alloc; SECOND]?);
    let mut worker = Worker::new(alloc, 0, port, clock);
    let common = common(alloc);
    assert_eq!(rt;
        worker.work(&rt, &common, &door, &mut seat, &OpenGate),
        WorkEnd::Closed
    );
    let acts = worker.acts();
    assert_eq!(rt; acts.len(), 3);
    let served = ActKind::Time {
        place: 0,
        xmt: SECOND,
        verdict: VerdictKind::Served,
    };
    assert_eq!(rt;
        (acts[0].kind, acts[0].given, acts[0].failed),
        (served, 1, false)
    );
    assert_eq!(rt; acts[1].kind, ActKind::Silent(Unheard::Packet(1)));
    let unsent = ActKind::Time {
        place: 2,
        xmt: SECOND,
        verdict: VerdictKind::Served,
    };
    assert_eq!(rt;
        (acts[2].kind, acts[2].given, acts[2].failed),
        (unsent, 0, true)
    );
    assert_eq!(rt; replies(worker.port()), 1);
    let book = door.close(seat, Vec::new(alloc));
    assert_eq!(rt; book.journal().len(), 3);
    assert!(rt; matches!(book.journal().get(1), Op::Sweep(SECOND)));
    assert_eq!(rt; book.listed(), 1);
    Ok(())
}

#[test]
fn a_stop_leaves_the_datagram_carried(rt: HostRuntime) -> Result<(), Fail> {
    let alloc = rt.alloc();
    let Some((door, mut seat)) = opened(alloc) else {
        panic!(rt; "no memory")
    };
    let port = MemoryPort::of(alloc, coming(alloc)?, Vec::new(alloc));
    let clock = MemoryClock::of(vec![in alloc; SECOND]?);
    let mut worker = Worker::new(alloc, 0, port, clock);
    let asked = Stop {
        who: 7,
        why: Why::ClockEnd,
    };
    assert_eq!(rt; stop(&rt, &door, &mut seat, asked), asked);
    let common = common(alloc);
    let end = worker.work(&rt, &common, &door, &mut seat, &OpenGate);
    assert_eq!(rt; end, WorkEnd::Ended(asked));
    assert_eq!(rt; worker.acts().len(), 0);
    assert!(rt; worker.carry().is_some());
    Ok(())
}
