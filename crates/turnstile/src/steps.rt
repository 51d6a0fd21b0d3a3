// The steps of a call, one word at a time, and the object's own step between them.
ghost use Rattle.std.specs.Prelude.{◌≡◌, ◌≤◌, ◌^◌, ◌+◌, ◌++◌, [], ◌∷◌, ℕ, Some, List, length, IfOk, IfErr};
ghost use Rattle.std.specs.List.{All};
ghost use mathlib.Core.List.{IsPrefix};
ghost use Rattle.turnstile.specs.Histories.{IsTaken, IsRefused, times, times_of_all, shares_of};
ghost use Rattle.turnstile.specs.Turns.{IsReady, IsWaiting, IsServed, HasTaken, HasArrived, AreFronts, Steps, Closes, at_stage, view_of};
ghost use Rattle.turnstile.specs.declared.seen.Stage.TheVariants.{Out, Waits, Has};

use crate::door::Turnstile;
use crate::object::Object;
use crate::rule::{Both, Counts, Draws, Looks, Passes, Reads, SERVED, TAKEN, TICKET};
use crate::seat;
use crate::seen::Seen;
use atomic_table::Seat;
use crossbeam_utils::Backoff;
use std::sync::Wait;

impl<O: Object> Turnstile<O> {
    // Draws a ticket.
    pub(crate) fn draw(&self, inner: &mut Seat<O, Seen<O::Op, O::State>>) -> u64
        requires own { inner.old.table_id ≡ self.now }
        requires ready { IsReady inner.old.me }
        ensures own { inner.new.table_id ≡ inner.old.table_id }
        ensures drawn { (n : ℕ) × (inner.new.me ≡ (at_stage (Waits n) inner.old.me.0, [])) }
        ensures waits { IsWaiting result inner.new.me }
    {
        self.table.shared.fetch_add::<Draws>(inner, TICKET, 1)
    }

    // Waits until the ticket is served.
    pub(crate) fn await_turn<R: Wait>(
        &self,
        rt: &R,
        inner: &mut Seat<O, Seen<O::Op, O::State>>,
        ticket: u64,
    )
        requires own { inner.old.table_id ≡ self.now }
        requires waits { IsWaiting ticket inner.old.me }
        ensures own { inner.new.table_id ≡ inner.old.table_id }
        ensures arrived { HasArrived O.journal O.state O.next inner.old.me inner.new.me }
    {
        let backoff = Backoff::new();
        for _ in rt.forever() {
            if self.table.shared.load::<Looks>(inner, SERVED) == ticket {
                return;
            }
            backoff.snooze();
        }
        unreachable!()
    }

    // The object's own step.
    pub(crate) fn step(
        &self,
        inner: &mut Seat<O, Seen<O::Op, O::State>>,
        op: O::Op,
    ) -> Result<O::Reply, O::Fault>
        requires own { inner.old.table_id ≡ self.now }
        requires has { (object : O) × (inner.old.me.1 ≡ (0, object) ∷ []) }
        ensures own { inner.new.table_id ≡ inner.old.table_id }
        ensures view_kept { inner.new.me.0 ≡ inner.old.me.0 }
        ensures stepped { (object : O) → inner.old.me.1 ≡ (0, object) ∷ []
            → (after : O) × (inner.new.me.1 ≡ (0, after) ∷ [])
            × Steps O.journal O.state O.next O.reply_to O.refusal O.fits O.lacks O.no_memory object op after result }
    {
        let object = inner.slot_mut(&self.table.shared, 0);
        object.step(op)
    }

    // Counts what the object took, and answers its place.
    pub(crate) fn count(&self, inner: &mut Seat<O, Seen<O::Op, O::State>>) -> u64
        requires own { inner.old.table_id ≡ self.now }
        requires took { HasTaken O.journal O.next O.refusal inner.old.me }
        ensures own { inner.new.table_id ≡ inner.old.table_id }
        ensures placed { result ≡ length inner.old.me.0.front }
        ensures counted { (object : O) → inner.old.me.1 ≡ (0, object) ∷ []
            → inner.new.me ≡ (record inner.old.me.0 { front = O.journal object; own = inner.old.me.0.own ++ result ∷ [] }, inner.old.me.1) }
    {
        self.table.shared.fetch_add::<Counts>(inner, TAKEN, 1)
    }

    // Reads how many operations the object took.
    pub(crate) fn look(&self, inner: &mut Seat<O, Seen<O::Op, O::State>>) -> u64
        requires own { inner.old.table_id ≡ self.now }
        requires has { (n : ℕ) × (inner.old.me.0.stage ≡ Has n) × (1 ≤ inner.old.me.0.share) }
        ensures own { inner.new.table_id ≡ inner.old.table_id }
        ensures placed { result ≡ length inner.old.me.0.front }
        ensures kept { inner.new.me ≡ inner.old.me }
    {
        self.table.shared.load::<Reads>(inner, TAKEN)
    }

    // Gives the object back, and passes the turn on.
    pub(crate) fn pass_on(&self, inner: &mut Seat<O, Seen<O::Op, O::State>>)
        requires own { inner.old.table_id ≡ self.now }
        requires served { IsServed O.journal O.state O.next inner.old.me }
        ensures own { inner.new.table_id ≡ inner.old.table_id }
        ensures passed { inner.new.me ≡ (at_stage Out inner.old.me.0, []) }
    {
        self.table.shared.fetch_add::<Passes>(inner, SERVED, 1);
    }

    // Has the object take the operation, in its turn.
    pub(crate) fn serve(
        &self,
        inner: &mut Seat<O, Seen<O::Op, O::State>>,
        op: O::Op,
    ) -> Result<(u64, O::Reply), (u64, O::Fault)>
        requires own { inner.old.table_id ≡ self.now }
        requires served { IsServed O.journal O.state O.next inner.old.me }
        ensures own { inner.new.table_id ≡ inner.old.table_id }
        ensures served { IsServed O.journal O.state O.next inner.new.me }
        ensures taken { (opening : O.State) → inner.old.me.0.opening ≡ Some opening
            → IfOk result (λ answer. IsTaken O.next O.reply_to O.refusal O.fits opening
            (view_of self.now inner.old.me) op answer.0 answer.1 (view_of self.now inner.new.me)) }
        ensures refused { (opening : O.State) → inner.old.me.0.opening ≡ Some opening
            → IfErr result (λ answer. IsRefused O.next O.refusal O.lacks O.no_memory opening
            (view_of self.now inner.old.me) op answer.0 answer.1 (view_of self.now inner.new.me)) }
        ensures share_kept { inner.new.me.0.share ≡ inner.old.me.0.share }
        ensures opening_kept { inner.new.me.0.opening ≡ inner.old.me.0.opening }
    {
        match self.step(inner, op) {
            Ok(reply) => {
                let place = self.count(inner);
                return Ok((place, reply));
            }
            Err(fault) => {
                let place = self.look(inner);
                return Err((place, fault));
            }
        }
    }

    // Joins these seats to the first.
    pub(crate) fn gather(
        &self,
        inner: &mut Seat<O, Seen<O::Op, O::State>>,
        mut rest: Vec<seat::Seat<O>>,
    )
        requires own { inner.old.table_id ≡ self.now }
        requires ready { IsReady inner.old.me }
        requires all_own { All (λ seat. seat.door ≡ self.now) rest.items }
        ensures own { inner.new.table_id ≡ inner.old.table_id }
        ensures ready { IsReady inner.new.me }
        ensures share { inner.new.me.0.share ≡ inner.old.me.0.share + shares_of rest.items }
        ensures opening { inner.new.me.0.opening ≡ inner.old.me.0.opening }
        ensures front { inner.new.me.0.front ≡ inner.old.me.0.front }
        ensures fronts { (history : List O.Op) → AreFronts history inner.new.me.0.heard
            → All (λ seat. IsPrefix seat.front history) rest.items }
        ensures calls { (place : ℕ) → times place inner.new.me.0.own
            ≡ times place inner.old.me.0.own + times_of_all place rest.items }
    {
        while let Some(seat) = rest.pop() {
            let seat::Seat {
                share: _,
                inner: other,
            } = seat;
            self.table.shared.join_seat::<Both>(inner, other);
        }
        rest.destroy_empty();
    }

    // The object, from the seat that has all shares.
    pub(crate) fn end(self, inner: Seat<O, Seen<O::Op, O::State>>) -> O
        requires own { inner.table_id ≡ self }
        requires ready { IsReady inner.me }
        requires all_shares { inner.me.0.share ≡ 2 ^ 32 }
        ensures { Closes O.journal O.state O.next O.refusal inner.me.0 result }
    {
        let Turnstile { table } = self;
        let mut closed = table.close_with(inner);
        let object = closed.take(0);
        closed.free();
        object
    }
}
