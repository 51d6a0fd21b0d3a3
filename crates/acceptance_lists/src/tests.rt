ghost use Rattle.std.specs.Prelude.{◌≡◌, ◌<◌, ◌≤◌, ◌+◌, IsSome};
ghost use Rattle.std.proofs.Props.{props};
ghost use Rattle.recency.specs.Rows.{AreUpTo, find_row};

use access_rules::Rate;
use net_addr::Ip;
use recency::{Limits, MAX_DEPTH, PlainList, Recency, Row, Steps, Touched, Visit};
use recency_links::LinkedList;
use std::alloc::{AllocError, Global};
use std::marker::Brand;
use std::process::Abort;
use std::sync::ledger::{Blank, Ledger};
use std::test::Fail;

/// A second, in 32.32.
const SECOND: u64 = 1 << 32;

/// How many operations are drawn.
const DRAWN: u32 = 10_000;

/// How many touches a long list takes: one that went over its rows would need minutes.
const TOUCHES: u32 = 2_000_000;

/// A client list with the stamp of its last arrival.
#[derive(Drop)]
struct Stamped<R: Recency> {
    list: R,
    stamp: u64,
    ghost up_to: { AreUpTo stamp (R.rows list) } by { Prim.hlevel props },
}

impl<R: Recency> Stamped<R> {
    fn begin(alloc: Global, limits: Limits) -> Result<Stamped<R>, AllocError> {
        let list = R::begin(alloc, limits)?;
        Ok(Stamped { list, stamp: 0 })
    }

    /// Takes an arrival in at a moment, or just after the last one.
    fn arrive<L: Ledger>(
        &mut self,
        visit: &Visit,
        moment: u64,
        steps: &mut Steps<L>,
    ) -> Result<Touched, AllocError>
        ensures cost { steps.new ≤ steps.old + R.touch_steps self.old.list }
    {
        let stamp = moment.max(self.stamp.saturating_add(1));
        if stamp == self.stamp {
            return Ok(Touched::Untracked);
        }
        let answer = self.list.touch(visit, stamp, steps)?;
        self.stamp = stamp;
        Ok(answer)
    }

    /// Tells a listed client at the stamp of the last arrival.
    fn tell(&mut self, ip: &Ip)
        requires { IsSome (find_row (R.rows self.old.list) ip.now) }
    {
        self.list.tell(ip, self.stamp);
    }

    fn sweep<L: Ledger>(&mut self, steps: &mut Steps<L>) -> u32 {
        self.list.sweep(self.stamp, steps)
    }
}

/// Draws, one after another.
#[derive(Drop)]
struct Draws {
    x: u64,
}

impl Draws {
    fn next(&mut self) -> u64 {
        self.x = self
            .x
            .wrapping_mul(6_364_136_223_846_793_005)
            .wrapping_add(1_442_695_040_888_963_407);
        self.x >> 33
    }

    /// One below this number.
    fn below(&mut self, bound: u64) -> u64
        requires { 0 < bound }
        ensures { result < bound }
    {
        self.next() % bound
    }
}

/// What an operation was answered.
#[derive(Clone, Copy, Debug, PartialEq, Eq)]
enum Answer {
    Arrived(Touched),
    Swept(u32),
    Found(Option<Row>),
    Newer(Option<Row>),
    Listed(u32, Option<Row>),
}

/// A client, of either family.
fn client(number: u64) -> Ip {
    let [_, _, _, _, _, _, high, low] = number.to_be_bytes();
    if number % 2 == 0 {
        return Ip::V4([10, 0, high, low]);
    }
    Ip::V6([
        0x20, 0x01, 0x0d, 0xb8, 0, 0, 0, 0, 0, 0, 0, 0, 0, 0, high, low,
    ])
}

fn visit(number: u64) -> Visit {
    Visit {
        ip: client(number),
        port: 123,
        mv: 35,
        flags: 0,
        rate: Rate {
            average: 60,
            burst: 4,
            spacing: 2 * SECOND,
        },
    }
}

/// One drawn operation over a list of few clients.
fn operate<R: Recency, L: Ledger>(
    stamped: &mut Stamped<R>,
    draws: &mut Draws,
    steps: &mut Steps<L>,
) -> Result<Answer, AllocError> {
    let what = draws.below(8);
    let number = draws.below(40);
    let ip = client(number);
    match what {
        0 => Ok(Answer::Swept(stamped.sweep(steps))),
        1 => {
            let found = stamped.list.find(&ip, steps);
            if found.is_some() {
                stamped.tell(&ip);
            }
            Ok(Answer::Found(found))
        }
        2 => match stamped.list.find(&ip, steps) {
            None => Ok(Answer::Newer(stamped.list.newer_than(None, steps))),
            Some(_) => Ok(Answer::Newer(stamped.list.newer_than(Some(&ip), steps))),
        },
        3 => Ok(Answer::Listed(stamped.list.len(), stamped.list.newest())),
        _ => {
            let after = draws.below(4) * SECOND;
            let moment = stamped.stamp.saturating_add(after);
            let touched = stamped.arrive(&visit(number), moment, steps)?;
            Ok(Answer::Arrived(touched))
        }
    }
}

/// What so many operations are answered, which are drawn from this number.
fn drawn<R: Recency, L: Ledger>(
    alloc: Global,
    from: u64,
    steps: &mut Steps<L>,
) -> Result<Vec<Answer>, AllocError> {
    let mut answers = Vec::new(alloc);
    let Some(limits) = Limits::of(8, 24, 4 * SECOND, 60 * SECOND) else {
        return Ok(answers);
    };
    let mut stamped: Stamped<R> = Stamped::begin(alloc, limits)?;
    let mut draws = Draws { x: from };
    for _ in 0..DRAWN {
        let answer = operate(&mut stamped, &mut draws, steps)?;
        answers.push(answer)?;
    }
    Ok(answers)
}

/// Drawn operations over both lists.
fn alike<L: Ledger>(rt: &impl Abort, alloc: Global, blank: Blank) -> Result<(), Fail>
    requires name { blank.name ≡ L.name }
    requires parts { blank.parts ≡ L.parts }
    requires some { 0 < blank.parts }
{
    let mut steps: Steps<L> = Steps::begin(blank);
    for from in [7, 11] {
        let plain = drawn::<PlainList, L>(alloc, from, &mut steps)?;
        let linked = drawn::<LinkedList, L>(alloc, from, &mut steps)?;
        assert_eq!(rt; plain.len(), 10_000);
        assert_eq!(rt; plain.as_slice(), linked.as_slice(), "from {from}");
    }
    Ok(())
}

#[test]
fn drawn_operations_have_the_answers_of_a_plain_list(rt: HostRuntime) -> Result<(), Fail> {
    alike::<Brand>(&rt, rt.alloc(), Blank::new(1))
}

/// An arrival at a linked list, which takes six steps at most.
fn touch_in_six<L: Ledger>(
    stamped: &mut Stamped<LinkedList>,
    number: u64,
    steps: &mut Steps<L>,
) -> Result<Touched, AllocError>
    ensures { steps.new ≤ steps.old + 6 }
{
    stamped.arrive(&visit(number), 0, steps)
}

/// Touches of a list of as many rows as there may be: of the oldest client, one after another, and then
/// of one in the middle, which is the newest afterwards, and of it again.
fn long<L: Ledger>(rt: &impl Abort, alloc: Global, blank: Blank) -> Result<(), Fail>
    requires name { blank.name ≡ L.name }
    requires parts { blank.parts ≡ L.parts }
    requires some { 0 < blank.parts }
{
    let mut steps: Steps<L> = Steps::begin(blank);
    let depth = u64::from(MAX_DEPTH);
    let limits = Limits::of(MAX_DEPTH, MAX_DEPTH, 0, u64::MAX);
    assert!(rt; limits.is_some());
    let Some(limits) = limits else {
        return Ok(());
    };
    let mut stamped: Stamped<LinkedList> = Stamped::begin(alloc, limits)?;
    for number in 0..depth {
        let touched = stamped.arrive(&visit(number), 0, &mut steps)?;
        assert_eq!(rt; touched, Touched::Added);
    }
    for round in 0..TOUCHES {
        let oldest = u64::from(round) % depth;
        let touched = touch_in_six(&mut stamped, oldest, &mut steps)?;
        assert_eq!(rt; touched, Touched::Known);
    }
    for number in [depth / 2, depth / 2, 0] {
        let touched = touch_in_six(&mut stamped, number, &mut steps)?;
        assert_eq!(rt; touched, Touched::Known, "client {number}");
        assert_eq!(rt;
            stamped.list.newest().map(|row| row.ip),
            Some(client(number))
        );
    }
    assert_eq!(rt; stamped.list.len(), MAX_DEPTH);
    Ok(())
}

#[test]
fn a_long_list_is_touched_as_a_short_one(rt: HostRuntime) -> Result<(), Fail> {
    long::<Brand>(&rt, rt.alloc(), Blank::new(1))
}
