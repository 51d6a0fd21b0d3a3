use access_rules::{IGNORE, KOD, LIMITED, NOQUERY, NOSERVE, Rate};
use edge_traits::Salt;
use fixed_time::Ntp64;
use mac_keys::Auth;
use mode6_frame::{Head, OP_READ_STATUS};
use net_addr::{Addr, Ip, prefix_of};
use recency::Limits;
use server_core::{
    Ask, Book, MAX_ENTRIES, MAX_PUBLICATIONS, Op, Reply, StepFault, Stop, Verdict, Why, perform,
    rate_reply,
};
use std::alloc::{AllocError, Global};
use std::process::Abort;
use std::test::Fail;
use sys_vars::{Answer, Asked, Context, Record, What};

/// The origin of Unix time.
const UNIX: Ntp64 = Ntp64(0x83aa_7e80_0000_0000);

/// A second, in 32.32.
const SECOND: u64 = 1 << 32;

/// A request of version 4 without a MAC that left its client at the origin of Unix time.
fn ask(ip: [u8; 4]) -> Ask {
    Ask {
        from: Addr {
            ip: Ip::V4(ip),
            port: 123,
        },
        version: 4,
        poll: 6,
        transmit: UNIX,
        auth: Auth::Absent,
    }
}

/// An opening record in which these flags stand at the prefix of this length.
fn restricted(alloc: Global, ip: Ip, length: u8, flags: u16) -> Result<Record, Fail> {
    let mut rec = Record::opening(alloc, UNIX)?;
    let length = length.min(32);
    rec.rules.add(&prefix_of(&ip, length), flags)?;
    Ok(rec)
}

/// A server that publishes this record.
fn book_of(alloc: Global, rec: Record) -> Result<Book, AllocError> {
    Book::begin(alloc, rec, Limits::plain(), UNIX)
}

/// The letter of a verdict.
fn letter_of(verdict: &Verdict) -> u8 {
    match verdict {
        Verdict::Ignored => b'I',
        Verdict::Limited => b'L',
        Verdict::Rate => b'K',
        Verdict::Served(_) => b'T',
    }
}

/// What becomes of a request from this client at this moment: the verdict's letter, or `-` where it
/// is refused.
fn asked(book: &mut Book, ip: [u8; 4], moment: u64) -> u8 {
    match book.step(Op::Arrive(ask(ip), moment)) {
        Ok(Reply::Time(verdict)) => letter_of(&verdict),
        _ => b'-',
    }
}

// `restrict default noserve`, `restrict 10.0.0.0/8`.
#[test]
fn a_client_that_is_refused_the_time_is_listed(rt: HostRuntime) -> Result<(), Fail> {
    let mut rec = restricted(rt.alloc(), Ip::V4([0; 4]), 0, NOSERVE)?;
    rec.rules.add(&prefix_of(&Ip::V4([10, 0, 0, 0]), 8), 0)?;
    let mut book = book_of(rt.alloc(), rec)?;
    assert!(rt; asked(&mut book, [10, 1, 2, 3], SECOND) == b'T');
    assert!(rt; asked(&mut book, [11, 1, 2, 3], SECOND) == b'I');
    let row = book
        .row(&Ip::V4([11, 1, 2, 3]))
        .ok_or("the client is listed")?;
    assert!(rt; row.flags == 0x0002 && row.count == 1 && row.mv == 35);
    assert!(rt; book.listed() == 2);
    Ok(())
}

// `restrict 10.0.0.9 ignore`.
#[test]
fn a_client_that_is_ignored_leaves_an_entry_alone(rt: HostRuntime) -> Result<(), Fail> {
    let rec = restricted(rt.alloc(), Ip::V4([10, 0, 0, 9]), 32, IGNORE)?;
    let mut book = book_of(rt.alloc(), rec)?;
    assert!(rt; asked(&mut book, [10, 0, 0, 1], 7) == b'T');
    assert!(rt; asked(&mut book, [10, 0, 0, 9], SECOND) == b'I');
    assert!(rt; book.listed() == 1 && book.stamp() == 7 && book.journal().len() == 2);
    assert!(rt; book.row(&Ip::V4([10, 0, 0, 9])).is_none());
    Ok(())
}

/// The score of a listed client, 0 where it is not listed.
fn score_of(book: &Book, ip: [u8; 4]) -> u32 {
    match book.row(&Ip::V4(ip)) {
        Some(row) => row.score,
        None => 0,
    }
}

/// A client under these flags asks six times in one moment and once three seconds later, of a
/// server that allows 60 a minute, 4 at once, and 2 seconds between two kiss codes.
fn check_rate(rt: &impl Abort, alloc: Global, flags: u16, over: u8) -> Result<(), Fail> {
    let mut rec = restricted(alloc, Ip::V4([0; 4]), 0, flags)?;
    rec.rate = Rate {
        average: 60,
        burst: 4,
        spacing: 2 * SECOND,
    };
    let mut book = book_of(alloc, rec)?;
    let client = [10, 0, 0, 1];
    for _ in 0..4 {
        assert!(rt; asked(&mut book, client, SECOND) == b'T');
    }
    assert!(rt; score_of(&book, client) == 240_000);
    assert!(rt; asked(&mut book, client, SECOND) == over);
    assert!(rt; asked(&mut book, client, SECOND) == b'L');
    // The sixth has the stamp 2^32 + 5; in the 3 seconds less 5 units up to the seventh 179,999
    // leak out of 360,000.
    assert!(rt; score_of(&book, client) == 360_000);
    assert!(rt; asked(&mut book, client, 4 * SECOND) == over);
    assert!(rt; score_of(&book, client) == 240_001);
    Ok(())
}

#[test]
fn a_client_over_its_rate_is_limited_and_told(rt: HostRuntime) -> Result<(), Fail> {
    check_rate(&rt, rt.alloc(), LIMITED, b'L')?;
    check_rate(&rt, rt.alloc(), LIMITED | KOD, b'K')
}

#[test]
fn the_kiss_code_gives_the_transmit_time_back(rt: HostRuntime) {
    let octets = *b"\xe4\x00\x06\xec\x00\x00\x00\x00\x00\x00\x00\x00RATE\
        \x00\x00\x00\x00\x00\x00\x00\x00\x83\xaa\x7e\x80\x00\x00\x00\x00\
        \x83\xaa\x7e\x80\x00\x00\x00\x00\x83\xaa\x7e\x80\x00\x00\x00\x00";
    assert!(rt; rate_reply(&ask([10, 0, 0, 1])).as_slice() == octets.as_slice());
}

/// A request for the status of the system.
fn status(ip: [u8; 4]) -> Op {
    let asked = Asked {
        from: Addr {
            ip: Ip::V4(ip),
            port: 123,
        },
        head: Head {
            version: 2,
            opcode: OP_READ_STATUS,
            sequence: 1,
            status: 0,
            assoc: 0,
        },
        what: What::Status,
    };
    let context = Context {
        salt: Salt([0; 16]),
        origin: UNIX,
        moment: 0,
    };
    Op::Look(asked, context)
}

/// The epoch of the answer to a control request of this client, None where there is none.
fn epoch_told(book: &mut Book, ip: [u8; 4]) -> Option<u64> {
    match book.step(status(ip)) {
        Ok(Reply::Looked(Answer::Given { epoch, .. })) => Some(epoch),
        _ => None,
    }
}

/// Publishes this record.
fn publish(alloc: Global, book: &mut Book, rec: Record) -> Result<Option<StepFault>, AllocError> {
    Ok(book.step(Op::Publish(Box::new(alloc, rec)?)).err())
}

#[test]
fn what_is_published_is_answered_from_there_on(rt: HostRuntime) -> Result<(), Fail> {
    let mut book = book_of(rt.alloc(), Record::opening(rt.alloc(), UNIX)?)?;
    assert!(rt; epoch_told(&mut book, [10, 0, 0, 1]) == Some(0));
    let mut next = restricted(rt.alloc(), Ip::V4([10, 0, 0, 2]), 32, NOQUERY)?;
    next.epoch = 5;
    assert!(rt; publish(rt.alloc(), &mut book, next)?.is_none());
    assert!(rt; book.epoch() == 5);
    assert!(rt; epoch_told(&mut book, [10, 0, 0, 1]) == Some(5));
    assert!(rt; epoch_told(&mut book, [10, 0, 0, 2]).is_none());
    let book = book.reopen();
    assert!(rt; book.epoch() == 5 && book.journal().len() == 0);
    assert!(rt; book.origin() == UNIX);
    Ok(())
}

#[test]
fn a_full_journal_takes_a_stop_and_nothing_after_it(rt: HostRuntime) -> Result<(), Fail> {
    let mut book = book_of(rt.alloc(), Record::opening(rt.alloc(), UNIX)?)?;
    for moment in 0..MAX_ENTRIES as u64 {
        assert!(rt; book.step(Op::Sweep(moment)).is_ok());
    }
    let full = book.step(Op::Arrive(ask([10, 0, 0, 1]), 0)).err();
    assert!(rt; full == Some(StepFault::Full(Why::Entries)));
    assert!(rt; book.listed() == 0 && book.stamp() == 0);
    let stop = Stop {
        who: 0,
        why: Why::Entries,
    };
    assert!(rt; book.step(Op::Stop(stop)).is_ok());
    assert!(rt; book.step(Op::Sweep(0)).err() == Some(StepFault::Ended(stop)));
    assert!(rt; book.journal().len() == MAX_ENTRIES + 1);
    Ok(())
}

#[test]
fn the_last_stamp_is_refused_once_reached(rt: HostRuntime) -> Result<(), Fail> {
    let mut book = book_of(rt.alloc(), Record::opening(rt.alloc(), UNIX)?)?;
    assert!(rt; asked(&mut book, [10, 0, 0, 1], u64::MAX) == b'T');
    let late = book.step(Op::Arrive(ask([10, 0, 0, 1]), 0)).err();
    assert!(rt; late == Some(StepFault::ClockEnd));
    assert!(rt; book.step(Op::Sweep(0)).is_ok());
    Ok(())
}

#[test]
fn the_last_publication_is_refused_once_reached(rt: HostRuntime) -> Result<(), Fail> {
    let mut book = book_of(rt.alloc(), Record::opening(rt.alloc(), UNIX)?)?;
    for _ in 0..MAX_PUBLICATIONS {
        let next = Record::opening(rt.alloc(), UNIX)?;
        assert!(rt; publish(rt.alloc(), &mut book, next)?.is_none());
    }
    let one_more = publish(rt.alloc(), &mut book, Record::opening(rt.alloc(), UNIX)?)?;
    assert!(rt; one_more == Some(StepFault::Full(Why::Publications)));
    assert!(rt; book.journal().len() == MAX_PUBLICATIONS);
    Ok(())
}

// By hand: the second request comes 120 seconds after the first, and its score has leaked away;
// what comes after a stop is refused.
#[test]
fn a_list_of_operations_is_answered_one_after_another(rt: HostRuntime) -> Result<(), Fail> {
    let mut book = book_of(rt.alloc(), Record::opening(rt.alloc(), UNIX)?)?;
    let stop = Stop {
        who: 3,
        why: Why::Acts,
    };
    let mut ops = Vec::new(rt.alloc());
    ops.push(Op::Arrive(ask([10, 0, 0, 1]), SECOND))?;
    ops.push(Op::Arrive(ask([10, 0, 0, 1]), 121 * SECOND))?;
    ops.push(Op::Stop(stop))?;
    ops.push(Op::Sweep(123 * SECOND))?;
    let answers = perform(rt.alloc(), &mut book, ops)?;
    assert!(rt; answers.len() == 4 && book.journal().len() == 3);
    assert!(rt; answers.get(2).is_ok() && answers.get(3).is_err());
    assert!(rt; book.listed() == 1 && book.stamp() == 121 * SECOND);
    assert!(rt; score_of(&book, [10, 0, 0, 1]) == 60_000);
    Ok(())
}
