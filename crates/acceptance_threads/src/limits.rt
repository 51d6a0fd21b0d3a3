//! The limits of a server's history, met by a worker.
ghost use Rattle.std.specs.Prelude.{◌≡◌, ◌≤◌, IfOk};

use crate::shared::{CLIENT, SECOND, common, datagram, opened};
use edge_traits::{Incoming, MemoryClock, MemoryPort, OpenGate, Port};
use server_core::{Book, MAX_ENTRIES, Op, Stop, Why};
use std::alloc::{AllocError, Global};
use std::sync::Wait;
use std::test::Fail;
use turnstile::{Seat, Turnstile};
use worker::{Turn, Worker};

/// A client's request of version 4.
const TIME: [u8; 48] = *b"\x23\x00\x06\xe9\
    \x00\x00\x00\x00\x00\x00\x00\x00\x00\x00\x00\x00\x00\x00\x00\x00\x00\x00\x00\x00\x00\x00\
    \x00\x00\x00\x00\x00\x00\x00\x00\x00\x00\x00\x00\x00\x00\x83\xaa\x7e\x80\x00\x00\x00\x00";

/// A worker to which the request comes twice, by a clock that stands.
fn worker(alloc: Global, reading: u64) -> Result<Worker<MemoryPort, MemoryClock>, AllocError>
    ensures { IfOk result (λ worker. 1024 ≤ ⟦<MemoryPort as Port>⟧.most worker.port) }
{
    let mut incoming = Vec::new(alloc);
    incoming.push(datagram(&CLIENT, &TIME))?;
    incoming.push(datagram(&CLIENT, &TIME))?;
    let port = MemoryPort::of(alloc, incoming, Vec::new(alloc));
    let clock = MemoryClock::of(vec![in alloc; reading]?);
    Ok(Worker::new(alloc, 0, port, clock))
}

/// Has the server take as many sweeps as there may be operations: the seat, and whether each was taken.
fn fill<R: Wait>(rt: &R, door: &Turnstile<Book>, mut seat: Seat<Book>) -> (Seat<Book>, bool)
    requires { seat.door ≡ door.now }
    ensures door { result.0.door ≡ seat.door }
    ensures share { result.0.share ≡ seat.share }
    ensures opening { result.0.opening ≡ seat.opening }
{
    let mut are_taken = true;
    for _ in 0..MAX_ENTRIES {
        match door.call(rt, &mut seat, Op::Sweep(0)) {
            Ok(_) => {}
            Err(_) => are_taken = false,
        }
    }
    (seat, are_taken)
}

#[test]
fn a_full_history_stops_the_server(rt: HostRuntime) -> Result<(), Fail> {
    let alloc = rt.alloc();
    let Some((door, seat)) = opened(alloc) else {
        panic!(rt; "no memory")
    };
    let (mut seat, are_taken) = fill(&rt, &door, seat);
    assert!(rt; are_taken);
    let mut worker = worker(alloc, SECOND)?;
    let full = Stop {
        who: 0,
        why: Why::Entries,
    };
    let common = common(alloc);
    let turn = worker.turn(&rt, &common, &door, &mut seat, &OpenGate);
    assert_eq!(rt; turn, Turn::Ended(full));
    assert!(rt; worker.carry().is_some());
    let book = door.close(seat, Vec::new(alloc));
    assert_eq!(rt; book.journal().len(), MAX_ENTRIES + 1);
    assert_eq!(rt; book.stop(), Some(full));
    Ok(())
}

#[test]
fn the_last_stamp_stops_the_server(rt: HostRuntime) -> Result<(), Fail> {
    let alloc = rt.alloc();
    let Some((door, mut seat)) = opened(alloc) else {
        panic!(rt; "no memory")
    };
    let mut worker = worker(alloc, u64::MAX)?;
    let ended = Stop {
        who: 0,
        why: Why::ClockEnd,
    };
    let common = common(alloc);
    let turn = worker.turn(&rt, &common, &door, &mut seat, &OpenGate);
    assert_eq!(rt; turn, Turn::Answered);
    let turn = worker.turn(&rt, &common, &door, &mut seat, &OpenGate);
    assert_eq!(rt; turn, Turn::Ended(ended));
    assert!(rt; worker.carry().is_some());
    Ok(())
}
