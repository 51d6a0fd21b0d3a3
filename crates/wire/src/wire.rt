ghost use Rattle.std.specs.Prelude.{◌≡◌};

use edge_traits::Event;
use std::alloc::AllocError;
use std::marker::Model;

/// What happened at one end of a wire.
#[derive(Drop)]
pub enum WireEvent {
    /// At the client's port.
    Client(Event),
    /// At the worker's port.
    Worker(Event),
}

/// What happened at the port of a client and at that of a worker, in one order, oldest first.
#[derive(Drop)]
pub struct Wire {
    kept: Vec<WireEvent>,
}

impl Model for Wire {
    ghost use Rattle.std.specs.Prelude.{List};
    ghost use Rattle.wire.specs.declared.wire.WireEvent.{WireEvent};

    ghost Value = { List WireEvent };

    ghost view = { λ w. w.kept.items };
}

impl Wire {
    /// These events.
    pub fn of(events: Vec<WireEvent>) -> Wire
        ensures { result ≡ events.items }
    {
        Wire { kept: events }
    }

    /// The events, oldest first.
    pub fn events(&self) -> &[WireEvent]
        ensures { result.now ≡ self.now }
    {
        self.kept.as_slice()
    }
}
