use crate::rehearsing::{Rehearsed, rehearse};
use edge_traits::{MemorySink, OpenGate, Status};
use responders::Outcome;
use std::alloc::Global;
use std::sync::Wait;
use std::test::Fail;
use std::thread::Threads;

/// A rehearsal that ended: its status, what it leaves, and what was printed.
#[derive(Drop)]
struct Run {
    status: Status,
    rehearsed: Option<Rehearsed>,
    out: MemorySink,
}

/// A rehearsal of this number, whose sink fails at these writes.
fn run_of<R: Threads + Wait + Sync>(rt: &R, alloc: Global, number: u64, failing: Vec<u64>) -> Run {
    let mut out = MemorySink::of(alloc, failing);
    let (status, rehearsed) = rehearse(rt, alloc, number, &OpenGate, &mut out);
    Run {
        status,
        rehearsed,
        out,
    }
}

/// Whether a session ended since nothing would come any more.
fn is_whole(rehearsed: &Option<Rehearsed>) -> bool {
    match rehearsed {
        Some(rehearsed) => rehearsed.session.outcome == Outcome::AllClosed,
        None => false,
    }
}

/// Whether these rehearsals both ended well, with the same text.
fn are_alike(one: &Run, other: &Run) -> bool {
    one.status == Status(0)
        && other.status == Status(0)
        && is_whole(&one.rehearsed)
        && is_whole(&other.rehearsed)
        && one.out.contents() == other.out.contents()
}

#[test]
fn a_number_prints_the_same_lines_again(rt: HostRuntime) {
    let alloc = rt.alloc();
    for number in [0, 1, 2, 3, 5, 7, 677, 988, 4_294_967_296, u64::MAX] {
        let first = run_of(&rt, alloc, number, Vec::new(alloc));
        let again = run_of(&rt, alloc, number, Vec::new(alloc));
        assert!(rt; are_alike(&first, &again), "{number}");
    }
}

// The texts are those of the model in `tools/check_rehearsals.py`, which was written from the description alone.
#[test]
fn lines_are_those_of_the_model(rt: HostRuntime) {
    let alloc = rt.alloc();
    for (number, text) in [
        (
            7,
            "rehearsal 7\nthreads times 3564 variables 286 silent 246 clients 596\nlink requests 60 pages 21 refused 0 rows 534\n",
        ),
        (
            677,
            "rehearsal 677\nthreads times 3574 variables 257 silent 265 clients 600\nlink ended 4\n",
        ),
        (
            u64::MAX,
            "rehearsal 18446744073709551615\nthreads times 3589 variables 248 silent 259 clients 594\nlink requests 43 pages 20 refused 0 rows 530\n",
        ),
    ] {
        let run = run_of(&rt, alloc, number, Vec::new(alloc));
        assert!(rt; run.out.contents() == text.as_bytes(), "{number}");
    }
}

#[test]
fn a_sink_that_fails_at_once_is_status_8(rt: HostRuntime) -> Result<(), Fail> {
    let alloc = rt.alloc();
    let run = run_of(&rt, alloc, 7, vec![in alloc; 0]?);
    assert!(rt; run.status == Status(8) && is_whole(&run.rehearsed));
    assert!(rt; run.out.contents().is_empty());
    Ok(())
}
