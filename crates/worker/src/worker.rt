ghost use Rattle.std.specs.Prelude.{◌≡◌, None, [], option_map};

use crate::act::Act;
use crate::carry::Carry;
use crate::desk::Desk;
use edge_traits::Octets;
use net_addr::{Addr, Ip};
use std::alloc::Global;
use std::marker::Model;

/// One thread of the server: its port and its clock, what it did in this session, and a datagram
/// that it could not answer before the session ended.
#[derive(Drop)]
pub struct Worker<P, C> {
    pub(crate) desk: Desk<P, C>,
    pub(crate) held: Carry,
    pub(crate) is_carrying: bool,
    pub(crate) acts: Vec<Act>,
}

impl<P, C> Model for Worker<P, C> {
    ghost use Rattle.std.specs.Vec.{vec_capacity};
    ghost use Rattle.worker.specs.Workers.{WorkerView, carry_of};

    ghost Value = { WorkerView P C };

    ghost view = { λ w. record {
      who = w.desk.who;
      port = w.desk.port;
      clock = w.desk.clock;
      carry = carry_of w.is_carrying w.held;
      acts = w.acts.items;
      room = vec_capacity w.acts;
    } };
}

impl<P, C> Worker<P, C> {
    /// The worker of this number, counted from 0, at this port with this clock.
    pub fn new(alloc: Global, who: u32, port: P, clock: C) -> Worker<P, C>
        ensures who { result.who ≡ who }
        ensures port { result.port ≡ port }
        ensures clock { result.clock ≡ clock }
        ensures carry { result.carry ≡ None }
        ensures acts { result.acts ≡ [] }
    {
        Worker {
            desk: Desk {
                alloc,
                who,
                port,
                clock,
            },
            held: Carry {
                from: Addr {
                    ip: Ip::V4([0, 0, 0, 0]),
                    port: 0,
                },
                bytes: Octets::new(),
            },
            is_carrying: false,
            acts: Vec::new(alloc),
        }
    }

    /// Its number, counted from 0.
    pub fn who(&self) -> u32
        ensures { result ≡ self.now.who }
    {
        self.desk.who
    }

    /// What it did in this session, oldest first.
    pub fn acts(&self) -> &[Act]
        ensures { result.now ≡ self.now.acts }
    {
        self.acts.as_slice()
    }

    pub fn port(&self) -> &P
        ensures { result.now ≡ self.now.port }
    {
        &self.desk.port
    }

    pub fn clock(&self) -> &C
        ensures { result.now ≡ self.now.clock }
    {
        &self.desk.clock
    }

    /// The datagram that it carries.
    pub fn carry(&self) -> Option<&Carry>
        ensures { option_map (λ carry. carry.now) result ≡ self.now.carry }
    {
        if self.is_carrying {
            Some(&self.held)
        } else {
            None
        }
    }

    /// Forgets its acts, for the next session. Their room stays, and so does all else.
    pub fn reopen(&mut self)
        ensures { self.new ≡ record self.old { acts = [] } }
    {
        self.acts.clear();
    }
}
