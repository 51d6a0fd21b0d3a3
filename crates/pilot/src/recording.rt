ghost use Rattle.std.specs.Prelude.{◌≡◌, Some, IfOk, IfSome, IsSome};
ghost use Rattle.server_core.specs.States.{ServerState, stop_in};
ghost use Rattle.pilot.specs.Gains.{IsCounted};
ghost use Rattle.pilot.specs.Steps.{GivesAt};
ghost use Rattle.pilot.specs.Turns.{IsRecordOf};
ghost use Rattle.pilot.specs.Views.{Stays};

use crate::calling::call;
use crate::helm::Helm;
use crate::steering::{Basis, Steering};
use edge_traits::{Clock, Port};
use server_core::{Book, Op, Stop};
use std::alloc::{AllocError, Global};
use std::sync::Wait;
use sys_vars::Record;
use turnstile::{Seat, Turnstile};

/// The record of what is steered by.
fn make_record(alloc: Global, steering: &Steering, basis: &Basis) -> Result<Box<Record>, AllocError>
    ensures { IfOk result (λ boxed. IsRecordOf basis.now steering.now boxed.value) }
{
    let peers = steering.peers.views()?;
    let rules = basis.rules.copy()?;
    let record = Record {
        epoch: steering.epoch,
        system: steering.system,
        peers,
        rules,
        rate: basis.rate,
        clock: steering.engine.clock(),
    };
    Ok(Box::new(alloc, record)?)
}

impl<P: Port, C: Clock> Helm<P, C> {
    /// Counts one more that was left out.
    pub(crate) fn count_left(&mut self)
        ensures left { IsCounted 1 self.old.left self.new.left }
        ensures outside_kept { self.new.outside ≡ self.old.outside }
        ensures steering_kept { self.new.steering ≡ self.old.steering }
    {
        self.left = self.left.saturating_add(1);
    }

    /// Gives a record of the next number, if there is one: it is published, or left out where memory
    /// is wanting, or refused, and then the stop that stands is answered.
    pub(crate) fn give_record<R: Wait>(
        &mut self,
        rt: &R,
        basis: &Basis,
        door: &Turnstile<Book>,
        seat: &mut Seat<Book>,
        who: u32,
    ) -> Option<Stop>
        requires own { seat.old.door ≡ door.now }
        ensures gives { (opening : ServerState) → seat.old.opening ≡ Some opening
            → GivesAt opening basis.now who self.old.steering result
            self.old seat.old self.new seat.new }
        ensures stood { IsSome seat.old.opening
            → IfSome result (λ stop. stop_in seat.new.front ≡ Some stop) }
        ensures stays { Stays self.old seat.old self.new seat.new }
    {
        if self.steering.epoch == u64::MAX {
            return None;
        }
        self.steering.epoch += 1;
        match make_record(self.alloc, &self.steering, basis) {
            Err(_) => {
                self.count_left();
                None
            }
            Ok(record) => call(rt, door, seat, who, Op::Publish(record)),
        }
    }
}
