ghost use Rattle.std.specs.Prelude.{◌≡◌};

use crate::object::Object;
use crate::seen::Seen;
use std::marker::Model;

/// A caller's place at a turnstile. Contracts see what it knows.
#[derive(Drop)]
pub struct Seat<O: Object> {
    pub(crate) share: u64,
    pub(crate) inner: atomic_table::Seat<O, Seen<O::Op, O::State>>,
}

impl<O: Object> Model for Seat<O> {
    ghost use Rattle.turnstile.specs.Seats.{SeatView};

    ghost Value = { SeatView O.Op O.State };

    ghost use Rattle.std.specs.Prelude.{◌≡◌};
    ghost use Rattle.turnstile.specs.Turns.{IsReady};

    ghost view = { λ s. record {
      door = s.inner.table_id;
      share = s.share;
      opening = s.inner.me.0.opening;
      front = s.inner.me.0.front;
      own = s.inner.me.0.own;
    } };

    ghost invariant = { λ s. (s.share ≡ s.inner.me.0.share) × IsReady s.inner.me };
}

impl<O: Object> Seat<O> {
    /// Its share of all the seats that there may be: 2^32 for the first seat.
    pub fn share(&self) -> u64
        ensures { result ≡ self.now.share }
    {
        self.share
    }
}
