ghost use Rattle.std.specs.Prelude.{◌≡◌, ◌≤◌, ℕ, Some, IsTrue, length};
ghost use Rattle.std.specs.List.{AllByRecursion};
ghost use Rattle.associations.specs.declared.asking.TheConstants.{MAX_REQUEST_LEN};
ghost use Rattle.server_core.specs.declared.op.Stop.{Stop};
ghost use Rattle.server_core.specs.States.{ServerState, stop_in};
ghost use Rattle.shared_book.specs.Entries.{IsSameSeat};
ghost use Rattle.worker.specs.Doings.{doing_of};
ghost use Rattle.pilot.specs.Flights.{IsReady};
ghost use Rattle.responders.specs.Jobs.{EachBecame, HasFlownHere, IsReadyFlight, IsReadyJob, IsWorked};

use edge_traits::{Clock, Gate, Port};
use pilot::{FlightEnd, Pilot};
use server_core::Book;
use shared_book::Common;
use std::sync::Wait;
use std::thread::{Threads, for_each_mut, join};
use turnstile::{Seat, Turnstile};
use worker::{WorkEnd, Worker};

/// A worker at its seat, and how its work ended, once it did.
#[derive(Drop)]
pub(crate) struct Job<P, C> {
    pub(crate) worker: Worker<P, C>,
    pub(crate) seat: Seat<Book>,
    pub(crate) end: Option<WorkEnd>,
}

/// The pilot at its seat, its number, and how its flight ended, once it did.
#[derive(Drop)]
pub(crate) struct Flight<P: Port, C: Clock> {
    pub(crate) pilot: Pilot<P, C>,
    pub(crate) seat: Seat<Book>,
    pub(crate) who: u32,
    pub(crate) end: Option<FlightEnd>,
}

impl<P: Port, C: Clock> Job<P, C> {
    /// Works up to the end.
    fn work<R: Wait, G: Gate>(&mut self, rt: &R, common: &Common, door: &Turnstile<Book>, gate: &G)
        requires ready { (opening : ServerState) × IsReadyJob P.most door.now opening self.old }
        ensures { (opening : ServerState) → self.old.seat.opening ≡ Some opening
            → IsWorked (doing_of P.trace P.faults P.quiets P.address P.most C.readings)
            P.is_closed common.now opening self.old self.new }
    {
        self.end = Some(self.worker.work(rt, common, door, &mut self.seat, gate));
    }
}

impl<P: Port, C: Clock> Flight<P, C> {
    /// Flies up to the end.
    fn fly<R: Wait>(&mut self, rt: &R, common: &Common, door: &Turnstile<Book>)
        requires ready { (opening : ServerState) × IsReadyFlight door.now opening self.old }
        ensures { (opening : ServerState) → self.old.seat.opening ≡ Some opening
            → HasFlownHere common.now opening self.old self.new }
    {
        let end = self
            .pilot
            .fly(rt, &common.keys, door, &mut self.seat, self.who);
        self.end = Some(end);
    }
}

/// Has each worker work up to its end, in a thread of its own where one can be had.
fn work_all<R: Threads + Wait + Sync, P: Port + Send, C: Clock + Send, G: Gate + Sync>(
    rt: &R,
    common: &Common,
    door: &Turnstile<Book>,
    gate: &G,
    mut jobs: Vec<Job<P, C>>,
) -> Vec<Job<P, C>>
    requires ready { (opening : ServerState)
        × AllByRecursion (IsReadyJob P.most door.now opening) jobs.items }
    ensures { (opening : ServerState)
        → AllByRecursion (IsReadyJob P.most door.now opening) jobs.items
        → EachBecame (IsWorked (doing_of P.trace P.faults P.quiets P.address P.most C.readings)
        P.is_closed common.now opening) jobs.items result.items }
{
    let threads = jobs.len().max(1);
    for_each_mut(
        rt,
        jobs.as_mut_slice(),
        threads,
        &|_, job: &mut Job<P, C>|
            requires { (opening : ServerState) × IsReadyJob P.most door.now opening job.now }
            ensures { (opening : ServerState) → job.entry.now.seat.opening ≡ Some opening
                → IsWorked (doing_of P.trace P.faults P.quiets P.address P.most C.readings)
                P.is_closed common.entry.now opening job.entry.now job.exit.now }
        { job.work(rt, common, door, gate) },
    );
    jobs
}

/// Has the workers and the pilot do their parts beside each other.
pub(crate) fn run_beside<
    R: Threads + Wait + Sync,
    P: Port + Drop + Send,
    C: Clock + Drop + Send,
    G: Gate + Sync,
>(
    rt: &R,
    common: &Common,
    door: &Turnstile<Book>,
    gate: &G,
    jobs: Vec<Job<P, C>>,
    flight: Flight<P, C>,
) -> (Vec<Job<P, C>>, Flight<P, C>)
    requires ready { (opening : ServerState)
        × AllByRecursion (IsReadyJob P.most door.now opening) jobs.items
        × IsReadyFlight door.now opening flight }
    ensures worked { (opening : ServerState) → flight.seat.opening ≡ Some opening
        → AllByRecursion (IsReadyJob P.most door.now opening) jobs.items
        → EachBecame (IsWorked (doing_of P.trace P.faults P.quiets P.address P.most C.readings)
        P.is_closed common.now opening) jobs.items result.0.items }
    ensures flown { (opening : ServerState) → flight.seat.opening ≡ Some opening
        → HasFlownHere common.now opening flight result.1 }
{
    join(
        rt,
        move ||
            requires { (opening : ServerState)
                × AllByRecursion (IsReadyJob P.most door.now opening) jobs.items }
            ensures { (opening : ServerState)
                → AllByRecursion (IsReadyJob P.most door.entry.now opening) jobs.items
                → EachBecame (IsWorked
                (doing_of P.trace P.faults P.quiets P.address P.most C.readings)
                P.is_closed common.entry.now opening) jobs.items result.items }
        { work_all(rt, common, door, gate, jobs) },
        move ||
            requires { (opening : ServerState) × IsReadyFlight door.now opening flight }
            ensures { (opening : ServerState) → flight.seat.opening ≡ Some opening
                → HasFlownHere common.entry.now opening flight result }
        {
            let mut flight = flight;
            flight.fly(rt, common, door);
            flight
        },
    )
}
