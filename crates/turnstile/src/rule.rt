// The rule of the words, the slot and the callers, and what each step tells.
use crate::object::Object;
use crate::seen::Seen;
use crate::was::Was;
use atomic_table::{Join, Play, Split, TableRule};

/// The word that has the next ticket.
pub(crate) const TICKET: usize = 0;

/// The word that has the ticket that is served.
pub(crate) const SERVED: usize = 1;

/// The word that has how many operations were taken.
pub(crate) const TAKEN: usize = 2;

/// The history is in the object's journal, or in the view of the caller that has the turn.
pub struct OneHistory;

impl<O: Object> TableRule<O, Seen<O::Op, O::State>, Was<O>> for OneHistory {
    ghost use Rattle.turnstile.specs.Turns.{InOneHistory, first_seen};

    ghost holds = { λ _. InOneHistory O.journal O.state O.next O.refusal };

    ghost first = { λ was. first_seen (O.state was.object) };
}

// A ticket is drawn.
pub(crate) struct Draws;

impl<O, P, S> Play<O, Seen<P, S>> for Draws {
    ghost use Rattle.turnstile.specs.Turns.{drawn};

    ghost then = { drawn };
}

// One who waits sees which ticket is served, and takes the object where it is its own.
pub(crate) struct Looks;

impl<O: Object> Play<O, Seen<O::Op, O::State>> for Looks {
    ghost use Rattle.turnstile.specs.Turns.{looked};

    ghost then = { looked O.journal O.state O.next };
}

// One who has the turn reads how many operations were taken.
pub(crate) struct Reads;

impl<O, P, S> Play<O, Seen<P, S>> for Reads {
    ghost use Rattle.turnstile.specs.Turns.{read};

    ghost then = { read };
}

// One who has the turn counts one operation more: here it enters the history.
pub(crate) struct Counts;

impl<O: Object> Play<O, Seen<O::Op, O::State>> for Counts {
    ghost use Rattle.turnstile.specs.Turns.{counted};

    ghost then = { counted O.journal };
}

// One who has the turn gives the object back.
pub(crate) struct Passes;

impl<O, P, S> Play<O, Seen<P, S>> for Passes {
    ghost use Rattle.turnstile.specs.Turns.{passed};

    ghost then = { passed };
}

// The new seat gets half of the share, and no calls.
pub(crate) struct Halves;

impl<P, S> Split<Seen<P, S>> for Halves {
    ghost use Rattle.turnstile.specs.Turns.{left_of, right_of};

    ghost left = { left_of };

    ghost right = { right_of };
}

// The first seat gets what the other had, and the other is spent.
pub(crate) struct Both;

impl<P, S> Join<Seen<P, S>> for Both {
    ghost use Rattle.turnstile.specs.Turns.{both_of, spent};

    ghost both = { both_of };

    ghost spent = { spent };
}
