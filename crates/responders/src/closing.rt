ghost use Rattle.std.specs.Prelude.{◌≡◌, ◌≤◌, [], length};
ghost use Rattle.std.specs.Vec.{vec_capacity};
ghost use Rattle.responders.specs.Jobs.{seats_of, workers_of};
ghost use Rattle.responders.specs.Outcomes.{outcome_of};

use crate::jobs::Job;
use crate::session::Outcome;
use server_core::{Book, Stop};
use turnstile::Seat;
use worker::Worker;

/// The workers and the seats of jobs that are done, in the room for them.
pub(crate) fn part<P: Drop, C: Drop>(
    jobs: Vec<Job<P, C>>,
    mut workers: Vec<Worker<P, C>>,
    mut seats: Vec<Seat<Book>>,
) -> (Vec<Worker<P, C>>, Vec<Seat<Book>>)
    requires no_workers { workers.items ≡ [] }
    requires no_seats { seats.items ≡ [] }
    requires room_for_workers { length jobs.items ≤ vec_capacity workers }
    requires room_for_seats { length jobs.items ≤ vec_capacity seats }
    ensures workers { result.0.items ≡ workers_of jobs.items }
    ensures seats { result.1.items ≡ seats_of jobs.items }
{
    for job in jobs {
        workers.push_reserved(job.worker);
        seats.push_reserved(job.seat);
    }
    (workers, seats)
}

/// How a session ends in whose history this stop stands, or none.
pub(crate) fn outcome_of(stop: Option<Stop>) -> Outcome
    ensures { result ≡ outcome_of stop }
{
    match stop {
        None => Outcome::AllClosed,
        Some(stop) => Outcome::Stopped(stop),
    }
}
