ghost use Rattle.std.specs.Prelude.{◌≡◌, ◌+◌, ◌^◌, ◌≤◌, [], length, IfOk, IfErr, OnErr, OnOk};
ghost use Rattle.std.specs.Vec.{vec_capacity};
ghost use Rattle.turnstile.specs.Histories.{shares_of};
ghost use Rattle.pilot.specs.Flights.{IsReady, readied_for};
ghost use Rattle.responders.specs.Jobs.{AreSeated, seats_of};
ghost use Rattle.responders.specs.Prepared.{IsPrepared};
ghost use Rattle.responders.specs.Workers.{reopened};

use crate::jobs::Job;
use edge_traits::{Clock, Port};
use pilot::Pilot;
use server_core::Book;
use std::alloc::{AllocError, Global};
use turnstile::{Returned, Seat, Turnstile};
use worker::Worker;

/// The room for what a session makes of its workers.
#[derive(Drop)]
pub(crate) struct Room<P, C> {
    pub(crate) jobs: Vec<Job<P, C>>,
    pub(crate) workers: Vec<Worker<P, C>>,
    pub(crate) seats: Vec<Seat<Book>>,
}

impl<P: Drop, C: Drop> Room<P, C> {
    /// Room for so many workers.
    fn of(alloc: Global, count: usize) -> Result<Room<P, C>, AllocError>
        ensures jobs { IfOk result (λ room. (room.jobs.items ≡ []) × (count ≤ vec_capacity room.jobs)) }
        ensures workers { IfOk result (λ room. (room.workers.items ≡ [])
            × (count ≤ vec_capacity room.workers)) }
        ensures seats { IfOk result (λ room. (room.seats.items ≡ [])
            × (count ≤ vec_capacity room.seats)) }
    {
        Ok(Room {
            jobs: Vec::with_capacity(alloc, count)?,
            workers: Vec::with_capacity(alloc, count)?,
            seats: Vec::with_capacity(alloc, count)?,
        })
    }
}

/// What a session needs before it begins: its turnstile, the first seat, and the room.
#[derive(Drop)]
pub(crate) struct Prepared<P, C> {
    pub(crate) door: Turnstile<Book>,
    pub(crate) first: Seat<Book>,
    pub(crate) room: Room<P, C>,
}

/// Takes all the memory that a session of so many workers takes, and makes the pilot ready. Where
/// memory is wanting, the book comes back, and all is as it was.
pub(crate) fn prepare<P: Port + Drop, C: Clock + Drop>(
    alloc: Global,
    book: Book,
    pilot: &mut Pilot<P, C>,
    count: usize,
) -> Result<Prepared<P, C>, Returned<Book>>
    requires { book.journal ≡ [] }
    ensures prepared { IfOk result (λ prepared. IsPrepared book count prepared) }
    ensures ready { OnOk result (IsReady pilot.new) }
    ensures readied { OnOk result (pilot.new ≡ readied_for book.state.published pilot.old) }
    ensures returned { IfErr result (λ back. back.object ≡ book) }
    ensures kept { OnErr result (pilot.new ≡ pilot.old) }
{
    let Ok(room) = Room::of(alloc, count) else {
        return Err(Returned { object: book });
    };
    let Ok(latest) = book.latest().copy() else {
        return Err(Returned { object: book });
    };
    let (door, first) = Turnstile::begin(alloc, book)?;
    match pilot.ready(&latest) {
        Ok(()) => Ok(Prepared { door, first, room }),
        Err(_) => Err(Returned {
            object: door.close(first, Vec::new(alloc)),
        }),
    }
}

/// Seats each worker, which begins the session without acts.
pub(crate) fn board<P: Drop, C: Drop>(
    door: &Turnstile<Book>,
    first: &mut Seat<Book>,
    workers: Vec<Worker<P, C>>,
    mut jobs: Vec<Job<P, C>>,
) -> Vec<Job<P, C>>
    requires own { first.old.door ≡ door.now }
    requires shares { 2 ^ (length workers.items + 1) ≤ first.old.share }
    requires empty { jobs.items ≡ [] }
    requires room { length workers.items ≤ vec_capacity jobs }
    ensures seated { AreSeated first.old workers.items result.items }
    ensures first { first.new ≡ record first.old { share = first.new.share } }
    ensures shares { shares_of (seats_of result.items) + first.new.share ≡ first.old.share }
{
    for worker in workers {
        let seat = door.split(first);
        jobs.push_reserved(job_at(worker, seat));
    }
    jobs
}

/// The job of a worker at this seat, before it is done.
fn job_at<P, C>(mut worker: Worker<P, C>, seat: Seat<Book>) -> Job<P, C>
    ensures worker { result.worker ≡ reopened worker }
    ensures seat { result.seat ≡ seat }
{
    worker.reopen();
    Job {
        worker,
        seat,
        end: None,
    }
}
