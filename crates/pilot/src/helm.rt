ghost use Rattle.std.specs.Prelude.{◌≡◌, OnOk, OnErr};
ghost use Rattle.pilot.specs.Steering.{HasRoom, fitted};

use crate::steering::Steering;
use edge_traits::{Clock, Port};
use std::alloc::{AllocError, Global};
use std::marker::Model;

/// What a pilot has at hand: its port, its clock and what it steers by.
#[derive(Drop)]
pub(crate) struct Helm<P: Port, C: Clock> {
    pub(crate) alloc: Global,
    pub(crate) port: P,
    pub(crate) clock: C,
    pub(crate) steering: Steering,
    // How many records and requests were left out for want of memory.
    pub(crate) left: u64,
}

impl<P: Port, C: Clock> Model for Helm<P, C> {
    ghost use Rattle.pilot.specs.Steering.{IsFitted};
    ghost use Rattle.pilot.specs.Views.{HelmParts};

    ghost Value = { HelmParts };

    ghost view = { λ h. record {
      outside = record {
        trace = P.trace h.port;
        faults = P.faults h.port;
        quiets = P.quiets h.port;
        closed = P.is_closed h.port;
        address = P.address h.port;
        most = P.most h.port;
        readings = C.readings h.clock;
      };
      steering = h.steering;
      left = h.left;
    } };

    ghost invariant = { λ h. IsFitted h.steering };
}

impl<P: Port, C: Clock> Helm<P, C> {
    /// Takes room for the keys of the tick and of each server.
    pub(crate) fn fit(&mut self) -> Result<(), AllocError>
        ensures fitted { OnOk result (self.new ≡ record self.old { steering = fitted self.old.steering }) }
        ensures room { OnOk result (HasRoom self.new.steering) }
        ensures kept { OnErr result (self.new ≡ self.old) }
    {
        let keys = self.steering.peers.len() + 1;
        self.steering.due.reserve(keys)
    }
}
