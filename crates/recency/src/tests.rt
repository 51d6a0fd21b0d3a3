ghost use Rattle.std.specs.Prelude.{◌≡◌, ◌<◌, ◌≤◌, IsSome};
ghost use Rattle.std.proofs.Props.{props};
ghost use Rattle.recency.specs.Rows.{AreUpTo, find_row};

use crate::limits::{Limits, MAX_DEPTH};
use crate::list::Recency;
use crate::plain_list::PlainList;
use crate::row::Row;
use crate::steps::Steps;
use crate::visit::{Touched, Visit};
use access_rules::Rate;
use net_addr::Ip;
use std::alloc::{AllocError, Global};
use std::marker::Brand;
use std::process::Abort;
use std::sync::ledger::{Blank, Ledger};
use std::test::Fail;

/// A second, in 32.32.
const SECOND: u64 = 1 << 32;

/// A client list with the stamp of its last arrival.
#[derive(Drop)]
struct Stamped<R: Recency> {
    list: R,
    stamp: u64,
    ghost up_to: { AreUpTo stamp (R.rows list) } by { Prim.hlevel props },
}

impl<R: Recency> Stamped<R> {
    fn begin(alloc: Global, limits: Limits) -> Result<Stamped<R>, AllocError> {
        let list = R::begin(alloc, limits)?;
        Ok(Stamped { list, stamp: 0 })
    }

    /// Takes an arrival in at a moment, or just after the last one.
    fn arrive<L: Ledger>(
        &mut self,
        visit: &Visit,
        moment: u64,
        steps: &mut Steps<L>,
    ) -> Result<Touched, AllocError> {
        let stamp = moment.max(self.stamp.saturating_add(1));
        if stamp == self.stamp {
            return Ok(Touched::Untracked);
        }
        let answer = self.list.touch(visit, stamp, steps)?;
        self.stamp = stamp;
        Ok(answer)
    }

    /// Tells a listed client at the stamp of the last arrival.
    fn tell(&mut self, ip: &Ip)
        requires { IsSome (find_row (R.rows self.old.list) ip.now) }
    {
        self.list.tell(ip, self.stamp);
    }

    fn sweep<L: Ledger>(&mut self, moment: u64, steps: &mut Steps<L>) -> u32 {
        self.list.sweep(moment, steps)
    }
}

fn host(last: u8) -> Ip {
    Ip::V4([10, 0, 0, last])
}

fn visit(last: u8) -> Visit {
    Visit {
        ip: host(last),
        port: 123,
        mv: 35,
        flags: 0,
        rate: Rate {
            average: 60,
            burst: 4,
            spacing: 2 * SECOND,
        },
    }
}

fn limits(mindepth: u32, maxdepth: u32) -> Limits
    requires some { 1 ≤ maxdepth }
    requires most { maxdepth ≤ MAX_DEPTH }
    requires depths { mindepth ≤ maxdepth }
{
    Limits {
        mindepth,
        maxdepth,
        minage: 64 * SECOND,
        maxage: 3600 * SECOND,
    }
}

/// The clients of a list, oldest first, each found after the one before it.
fn walk<R: Recency, L: Ledger>(
    alloc: Global,
    list: &R,
    steps: &mut Steps<L>,
) -> Result<Vec<Ip>, AllocError> {
    let mut ips = Vec::new(alloc);
    let mut next = list.newer_than(None, steps);
    for _ in 0..list.len() {
        let Some(row) = next else {
            break;
        };
        ips.push(row.ip)?;
        if list.find(&row.ip, steps).is_none() {
            break;
        }
        next = list.newer_than(Some(&row.ip), steps);
    }
    Ok(ips)
}

/// Three clients at a list of two rows.
fn replaces<R: Recency, L: Ledger>(rt: &impl Abort, alloc: Global, blank: Blank) -> Result<(), Fail>
    requires name { blank.name ≡ L.name }
    requires parts { blank.parts ≡ L.parts }
    requires some { 0 < blank.parts }
{
    let mut steps: Steps<L> = Steps::begin(blank);
    let mut stamped: Stamped<R> = Stamped::begin(alloc, limits(0, 2))?;
    for (moment, last, answer, stamp) in [
        (SECOND, 1, Touched::Added, SECOND),
        (SECOND, 1, Touched::Known, SECOND + 1),
        (2 * SECOND, 2, Touched::Added, 2 * SECOND),
        (0, 1, Touched::Known, 2 * SECOND + 1),
        (66 * SECOND - 1, 3, Touched::Untracked, 66 * SECOND - 1),
        (0, 3, Touched::Replaced(host(2)), 66 * SECOND),
    ] {
        let got = stamped.arrive(&visit(last), moment, &mut steps)?;
        assert_eq!(rt; got, answer, "at {stamp}");
        assert_eq!(rt; stamped.stamp, stamp);
    }
    let ips = walk(alloc, &stamped.list, &mut steps)?;
    assert_eq!(rt; ips.as_slice(), [host(1), host(3)].as_slice());
    assert_eq!(rt; stamped.list.newest().map(|row| row.ip), Some(host(3)));
    Ok(())
}

/// Arrivals of one client, told to slow down at the fifth.
fn scores<R: Recency, L: Ledger>(rt: &impl Abort, alloc: Global, blank: Blank) -> Result<(), Fail>
    requires name { blank.name ≡ L.name }
    requires parts { blank.parts ≡ L.parts }
    requires some { 0 < blank.parts }
{
    let mut steps: Steps<L> = Steps::begin(blank);
    let mut stamped: Stamped<R> = Stamped::begin(alloc, Limits::plain())?;
    let client = host(1);
    for (moment, count, score, told) in [
        (SECOND, 1, 60_000, None),
        (SECOND, 2, 120_000, None),
        (SECOND, 3, 180_000, None),
        (SECOND, 4, 240_000, None),
        (SECOND, 5, 300_000, None),
        (SECOND, 6, 360_000, Some(SECOND + 4)),
        (4 * SECOND, 7, 240_001, Some(SECOND + 4)),
    ] {
        stamped.arrive(&visit(1), moment, &mut steps)?;
        let found = stamped.list.find(&client, &mut steps);
        let stamp = stamped.stamp;
        let row = Row {
            ip: client,
            port: 123,
            first: SECOND,
            last: stamp,
            count,
            mv: 35,
            flags: 0,
            score,
            told,
        };
        assert_eq!(rt; found, Some(row), "at {count}");
        assert_eq!(rt; stamped.list.newest(), found, "the newest at {count}");
        if count == 5 && found.is_some() {
            stamped.tell(&client);
        }
    }
    assert!(rt; stamped.list.find(&host(2), &mut steps).is_none());
    Ok(())
}

/// Sweeps of three clients.
fn sweeps<R: Recency, L: Ledger>(rt: &impl Abort, alloc: Global, blank: Blank) -> Result<(), Fail>
    requires name { blank.name ≡ L.name }
    requires parts { blank.parts ≡ L.parts }
    requires some { 0 < blank.parts }
{
    let mut steps: Steps<L> = Steps::begin(blank);
    let mut stamped: Stamped<R> = Stamped::begin(alloc, limits(1, 3))?;
    for last in [1, 2, 3] {
        stamped.arrive(&visit(last), u64::from(last) * SECOND, &mut steps)?;
    }
    for (moment, gone, left) in [
        (0, 0, 3),
        (3601 * SECOND - 1, 0, 3),
        (3601 * SECOND, 1, 2),
        (9999 * SECOND, 1, 1),
    ] {
        assert_eq!(rt; stamped.sweep(moment, &mut steps), gone, "at {moment}");
        assert_eq!(rt; stamped.list.len(), left, "at {moment}");
    }
    let ips = walk(alloc, &stamped.list, &mut steps)?;
    assert_eq!(rt; ips.as_slice(), [host(3)].as_slice());
    Ok(())
}

/// Empty lists with room for one row, and for as many as any list may have.
fn begins<R: Recency>(rt: &impl Abort, alloc: Global) -> Result<(), Fail> {
    for (mindepth, maxdepth, ages) in [(0, 1, 0), (MAX_DEPTH, MAX_DEPTH, u64::MAX)] {
        let limits = Limits::of(mindepth, maxdepth, ages, ages);
        assert!(rt; limits.is_some());
        if let Some(limits) = limits {
            let list = R::begin(alloc, limits)?;
            assert_eq!(rt; list.limits(), limits);
            assert_eq!(rt; list.len(), 0);
            assert!(rt; list.newest().is_none());
        }
    }
    Ok(())
}

#[test]
fn a_new_client_takes_the_place_of_the_oldest(rt: HostRuntime) -> Result<(), Fail> {
    replaces::<PlainList, Brand>(&rt, rt.alloc(), Blank::new(1))
}

#[test]
fn scores_rise_and_leak(rt: HostRuntime) -> Result<(), Fail> {
    scores::<PlainList, Brand>(&rt, rt.alloc(), Blank::new(1))
}

#[test]
fn a_sweep_drops_aged_rows_down_to_mindepth(rt: HostRuntime) -> Result<(), Fail> {
    sweeps::<PlainList, Brand>(&rt, rt.alloc(), Blank::new(1))
}

#[test]
fn lists_begin_empty_at_the_least_and_the_greatest_limits(rt: HostRuntime) -> Result<(), Fail> {
    begins::<PlainList>(&rt, rt.alloc())
}

#[test]
fn limits_fit_together(rt: HostRuntime) {
    for (mindepth, maxdepth, minage, maxage, fit) in [
        (0, 1, 0, 0, true),
        (16_384, 16_384, 5, 5, true),
        (0, 0, 0, 0, false),
        (0, 16_385, 0, 0, false),
        (2, 1, 0, 0, false),
        (0, 1, 6, 5, false),
    ] {
        let limits = Limits::of(mindepth, maxdepth, minage, maxage);
        assert_eq!(rt;
            limits.is_some(),
            fit,
            "at {mindepth} {maxdepth} {minage} {maxage}"
        );
    }
    let plain = Limits::of(600, 1024, 64 * SECOND, 3600 * SECOND);
    assert_eq!(rt; plain, Some(Limits::plain()));
}
