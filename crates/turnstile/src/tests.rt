// A sum that refuses 0, called by one thread and by two.
ghost use Rattle.std.specs.Prelude.{◌≡◌, []};

use crate::{Object, Seat, Turnstile};
use std::alloc::Global;
use std::sync::Wait;
use std::thread::{Threads, join};

#[derive(Drop)]
struct Tally {
    sum: u64,
    taken: Vec<u64>,
}

#[derive(Clone, Copy, PartialEq, Eq, Debug)]
enum TallyFault {
    Zero,
    NoMemory,
}

impl Object for Tally {
    ghost use Rattle.std.specs.Prelude.{◌+◌, ◌%◌, ◌^◌, ◌<◌, ◌==◌, if◌then◌else◌, Some, None};
    ghost use Rattle.turnstile.specs.declared.tests.TallyFault.{TallyFault};
    ghost use Rattle.turnstile.specs.declared.tests.TallyFault.TheVariants.{Zero, NoMemory};

    type Op = u64;

    type Reply = u64;

    type Fault = TallyFault;

    type State = u64;

    ghost state = { λ t. t.sum };

    ghost journal = { λ t. t.taken.items };

    ghost reply_to = { λ s op. (s + op) % 2 ^ 64 };

    ghost next = { λ s op. (s + op) % 2 ^ 64 };

    ghost refusal = { λ _ _ op. if op == 0 then Some Zero else None };

    ghost lacks = { λ _ _. Unit {0} };

    ghost no_memory = { NoMemory };

    ghost fits = { λ reply. reply < 2 ^ 64 };

    fn step(&mut self, op: u64) -> Result<u64, TallyFault> {
        if op == 0 {
            return Err(TallyFault::Zero);
        }
        if self.taken.reserve(1).is_err() {
            return Err(TallyFault::NoMemory);
        }
        self.taken.push_reserved(op);
        self.sum = self.sum.wrapping_add(op);
        Ok(self.sum)
    }
}

fn nothing_taken(alloc: Global) -> Tally
    ensures { result.taken.items ≡ [] }
{
    Tally {
        sum: 0,
        taken: Vec::new(alloc),
    }
}

#[test]
fn one_thread_by_two_seats(rt: HostRuntime) {
    let Ok((door, mut first)) = Turnstile::begin(rt.alloc(), nothing_taken(rt.alloc())) else {
        panic!(rt; "no memory")
    };
    assert_eq!(rt; door.call(&rt, &mut first, 5), Ok((0, 5)));
    let mut second = door.split(&mut first);
    assert_eq!(rt; second.share(), 1 << 31);
    assert_eq!(rt; door.call(&rt, &mut second, 0), Err((1, TallyFault::Zero)));
    assert_eq!(rt; door.call(&rt, &mut second, 7), Ok((1, 12)));
    assert_eq!(rt; door.call(&rt, &mut first, 1), Ok((2, 13)));
    let mut rest = Vec::new(rt.alloc());
    rest.push(second).expect(&rt, "memory");
    let end = door.close(first, rest);
    assert_eq!(rt; end.taken.as_slice(), [5, 7, 1].as_slice());
    assert_eq!(rt; end.sum, 13);
}

/// Takes this number a hundred times. True if each was taken, at places that climb.
fn add_often<R: Wait>(
    rt: &R,
    door: &Turnstile<Tally>,
    mut seat: Seat<Tally>,
    op: u64,
) -> (Seat<Tally>, bool)
    requires { seat.door ≡ door.now }
    ensures { (result.0.door ≡ seat.door) × (result.0.share ≡ seat.share) }
{
    let mut climbs = true;
    let mut least = 0;
    for _ in 0..100 {
        match door.call(rt, &mut seat, op) {
            Ok((place, _)) => {
                climbs = climbs && least <= place;
                least = place.wrapping_add(1);
            }
            Err(_) => climbs = false,
        }
    }
    (seat, climbs)
}

/// The same by two threads.
fn add_beside<R: Threads + Wait + Sync>(
    rt: &R,
    door: &Turnstile<Tally>,
    left: Seat<Tally>,
    right: Seat<Tally>,
) -> ((Seat<Tally>, bool), (Seat<Tally>, bool))
    requires { (left.door ≡ door.now) × (right.door ≡ door.now) }
    ensures left { (result.0.0.door ≡ door.now) × (result.0.0.share ≡ left.share) }
    ensures right { (result.1.0.door ≡ door.now) × (result.1.0.share ≡ right.share) }
{
    join(
        rt,
        move ||
            requires { left.door ≡ door.now }
            ensures { (result.0.door ≡ left.door) × (result.0.share ≡ left.share) }
        { add_often(rt, door, left, 1) },
        move ||
            requires { right.door ≡ door.now }
            ensures { (result.0.door ≡ right.door) × (result.0.share ≡ right.share) }
        { add_often(rt, door, right, 2) },
    )
}

#[test]
fn two_threads_by_two_seats(rt: HostRuntime) {
    let Ok((door, mut first)) = Turnstile::begin(rt.alloc(), nothing_taken(rt.alloc())) else {
        panic!(rt; "no memory")
    };
    let second = door.split(&mut first);
    let ((first, left), (second, right)) = add_beside(&rt, &door, first, second);
    assert!(rt; left && right, "places climb");
    let mut rest = Vec::new(rt.alloc());
    rest.push(second).expect(&rt, "memory");
    let end = door.close(first, rest);
    assert_eq!(rt; end.taken.len(), 200);
    assert_eq!(rt; end.sum, 300);
}
