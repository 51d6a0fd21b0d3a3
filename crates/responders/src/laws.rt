ghost use Rattle.std.specs.Prelude.{◌≡◌, ℕ, Some, slice_get};
ghost use Rattle.std.specs.List.{filter};
ghost use Rattle.server_core.specs.declared.op.Op.{Op};
ghost use Rattle.server_core.specs.declared.op.Stop.{Stop};
ghost use Rattle.server_core.specs.States.{is_publish, stop_in};
ghost use Rattle.turnstile.specs.Histories.{times};
ghost use Rattle.pilot.specs.Promises.{stood_in};
ghost use Rattle.responders.specs.Laws.{IsMade, Session, act_places_of, once_where_asked};
ghost use Rattle.responders.specs.Sessions.{IsSession};

/// Each request for the time, control request and read of the client list in the history is exactly
/// one act of one worker, and no act names another place.
pub fn each_request_is_one_act()
    ghost session: { Session }
    requires { IsSession session.common session.opening session.history session.parts session.flown }
    ensures { (place : ℕ) (op : Op) → slice_get session.history place ≡ Some op
        → times place (act_places_of session.parts) ≡ once_where_asked op }
{}

/// The publications of the history are the records of the pilot's script that stand, in their order.
pub fn publications_are_the_pilots()
    ghost session: { Session }
    ensures { (is : IsSession session.common session.opening session.history session.parts session.flown)
        → filter is_publish session.history
        ≡ stood_in is.piloted.flight.turns is.piloted.flight.last }
{}

/// A stop that stands was made by one of the threads, whose number it names, at a place of the
/// history, and has its cause there: an operation met a limit before it, or the worker has as many
/// acts as there can be, or it is for a fault of that thread's port, which the port's count shows.
pub fn the_stop_has_its_cause()
    ghost session: { Session }
    requires { IsSession session.common session.opening session.history session.parts session.flown }
    ensures { (stop : Stop) → stop_in session.history ≡ Some stop → IsMade session stop }
{}
