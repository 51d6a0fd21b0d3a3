ghost use Rattle.std.specs.Prelude.{◌≡◌, ◌+◌};
ghost use Rattle.std.specs.List.{count_by, filter};
ghost use Rattle.server_core.specs.States.{is_publish};
ghost use Rattle.pilot.specs.Calls.{Climb};
ghost use Rattle.pilot.specs.Flights.{gain_of_flight};
ghost use Rattle.pilot.specs.Promises.{Flight, HasCauses, IsFlown, epochs_of, is_silence, is_sweep, ops_of, stood_in, unswept_by};

/// The publications of a flight are the records of its script that stand, in their order.
pub fn publications_are_the_records_that_stand()
    ghost flight: { Flight }
    requires { IsFlown flight }
    ensures { filter is_publish (ops_of (gain_of_flight flight.turns flight.last).entries)
        ≡ stood_in flight.turns flight.last }
{}

/// Their numbers climb: each is over that of any record before it, and none is over the last that was
/// given.
pub fn numbers_of_records_climb()
    ghost flight: { Flight }
    requires { IsFlown flight }
    ensures { Climb (flight.before.epoch + 1) (epochs_of (stood_in flight.turns flight.last))
        (flight.after.epoch + 1) }
{}

/// A flight meets one stop at most, the one that it ends by.
pub fn a_flight_meets_one_stop()
    ghost flight: { Flight }
    requires { IsFlown flight }
    ensures { HasCauses flight.end (gain_of_flight flight.turns flight.last).causes }
{}

/// As many silences as sweeps, and one more at most, where the last turn met a stop in place of its
/// sweep.
pub fn silences_are_swept()
    ghost flight: { Flight }
    requires { IsFlown flight }
    ensures { count_by is_silence (gain_of_flight flight.turns flight.last).events
        ≡ count_by is_sweep (ops_of (gain_of_flight flight.turns flight.last).entries)
        + unswept_by flight.last.after }
{}
