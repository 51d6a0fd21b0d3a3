ghost use Rattle.std.specs.Prelude.{◌≡◌, ◌<◌, ◌≤◌, ◌-◌, ◌/◌, ◌^◌, [], ◌∷◌, ℕ, Some, length, All, IfOk, IfErr};
ghost use Rattle.turnstile.specs.Histories.{IsHistory, IsTaken, IsRefused, state_after, shares_of, times_of_all, once_below};
ghost use mathlib.Core.List.{IsPrefix};
ghost use Rattle.turnstile.specs.Seats.{SeatView};

use crate::object::Object;
use crate::rule::{Halves, OneHistory};
use crate::seat::Seat;
use crate::seen::Seen;
use crate::was::Was;
use atomic_table::{Refused, Table};
use std::alloc::Global;
use std::marker::Model;
use std::sync::Wait;

/// An object that callers share, each by a seat of its own.
#[derive(Drop)]
pub struct Turnstile<O: Object> {
    pub(crate) table: Table<O, Seen<O::Op, O::State>, Was<O>, OneHistory, Global>,
}

impl<O: Object> Model for Turnstile<O> {
    ghost use Rattle.std.specs.Prelude.{◌≡◌};
    ghost use Rattle.atomic_table.specs.Seated.{TableId};

    ghost Value = { TableId };

    ghost view = { λ t. t.table.shared.table_id };

    ghost invariant = { λ t. (t.table.shared.table_id.words ≡ 3) × (t.table.shared.table_id.slots ≡ 1) };
}

/// The object, where memory was wanting for its turnstile.
#[derive(Drop)]
pub struct Returned<O> {
    pub object: O,
}

impl<O: Object> Turnstile<O> {
    /// A turnstile of this object, and its first seat. What the object is now is its opening state.
    pub fn begin(alloc: Global, object: O) -> Result<(Turnstile<O>, Seat<O>), Returned<O>>
        requires { O.journal object ≡ [] }
        ensures seat { IfOk result (λ begun. begun.1 ≡ record {
          door = begun.0;
          share = 2 ^ 32;
          opening = Some (O.state object);
          front = [];
          own = [];
        }) }
        ensures returned { IfErr result (λ back. back.object ≡ object) }
    {
        let was = Was::of(&object);
        let mut slots = Vec::new(alloc);
        if slots.reserve(1).is_err() {
            slots.destroy_empty();
            return Err(Returned { object });
        }
        slots.push_reserved(object);
        match Table::new(alloc, &[0, 0, 0], slots, &was) {
            Ok((table, inner)) => Ok((
                Turnstile { table },
                Seat {
                    share: 1 << 32,
                    inner,
                },
            )),
            Err(Refused { slots }) => Err(Returned {
                object: only_of(slots),
            }),
        }
    }

    /// Waits for its turn, and has the object take this operation. It answers the place of the
    /// operation in the history, which is the length of the history before it, and what the object
    /// answers there. What is refused has no entry.
    pub fn call<R: Wait>(
        &self,
        rt: &R,
        seat: &mut Seat<O>,
        op: O::Op,
    ) -> Result<(u64, O::Reply), (u64, O::Fault)>
        requires own { seat.old.door ≡ self.now }
        ensures taken { (opening : O.State) → seat.old.opening ≡ Some opening
            → IfOk result (λ answer. IsTaken O.next O.reply_to O.refusal O.fits
            opening seat.old op answer.0 answer.1 seat.new) }
        ensures refused { (opening : O.State) → seat.old.opening ≡ Some opening
            → IfErr result (λ answer. IsRefused O.next O.refusal O.lacks O.no_memory
            opening seat.old op answer.0 answer.1 seat.new) }
        ensures door_kept { seat.new.door ≡ seat.old.door }
        ensures share_kept { seat.new.share ≡ seat.old.share }
        ensures opening_kept { seat.new.opening ≡ seat.old.opening }
    {
        let ticket = self.draw(&mut seat.inner);
        self.await_turn(rt, &mut seat.inner, ticket);
        let answer = self.serve(&mut seat.inner, op);
        self.pass_on(&mut seat.inner);
        answer
    }

    /// A seat that has seen what the old one has, and made no calls. It gets half of the old one's
    /// share, rounded down.
    pub fn split(&self, seat: &mut Seat<O>) -> Seat<O>
        requires own { seat.old.door ≡ self.now }
        requires enough { 2 ≤ seat.old.share }
        ensures given { result ≡ record {
          door = seat.old.door;
          share = seat.old.share / 2;
          opening = seat.old.opening;
          front = seat.old.front;
          own = [];
        } }
        ensures left { seat.new ≡ record {
          door = seat.old.door;
          share = seat.old.share - seat.old.share / 2;
          opening = seat.old.opening;
          front = seat.old.front;
          own = seat.old.own;
        } }
    {
        let half = seat.share / 2;
        seat.share -= half;
        let inner = self.table.shared.split_seat::<Halves>(&mut seat.inner);
        Seat { share: half, inner }
    }

    /// The object, from all its seats: they are all where their shares are those of the first seat of
    /// the turnstile. Its journal is the one history, of which each seat has seen a front, and each
    /// place of it is exactly one call of one seat.
    pub fn close(self, first: Seat<O>, rest: Vec<Seat<O>>) -> O
        requires own { All (λ seat. seat.door ≡ self) (first ∷ rest.items) }
        requires whole { shares_of (first ∷ rest.items) ≡ 2 ^ 32 }
        ensures state { (opening : O.State) → first.opening ≡ Some opening
            → O.state result ≡ state_after O.next opening (O.journal result) }
        ensures history { (opening : O.State) → first.opening ≡ Some opening
            → IsHistory O.next O.refusal opening (O.journal result) }
        ensures fronts { All (λ seat. IsPrefix seat.front (O.journal result)) (first ∷ rest.items) }
        ensures once { (place : ℕ) → times_of_all place (first ∷ rest.items)
            ≡ once_below place (length (O.journal result)) }
        ensures short { length (O.journal result) < 2 ^ 63 }
    {
        let Seat {
            share: _,
            mut inner,
        } = first;
        self.gather(&mut inner, rest);
        self.end(inner)
    }
}

// The only one of these.
fn only_of<O>(mut slots: Vec<O>) -> O
    requires { (object : O) × (slots.items ≡ object ∷ []) }
    ensures { slots.items ≡ result ∷ [] }
{
    let object = slots.pop();
    slots.destroy_empty();
    match object {
        Some(object) => object,
        None => unreachable!(),
    }
}
