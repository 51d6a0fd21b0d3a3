ghost use Rattle.std.specs.Prelude.{◌≡◌, drop};
ghost use Rattle.planned_link.specs.Fates.{first_deed};

use crate::fate::Fates;
use server_core::Op;
use std::alloc::Global;
use std::collections::VecDeque;
use std::marker::Model;

/// Operations of a server, in their order.
#[derive(Drop)]
pub struct Ops {
    kept: Vec<Op>,
}

impl Model for Ops {
    ghost use Rattle.std.specs.Prelude.{List};
    ghost use Rattle.server_core.specs.declared.op.Op.{Op};

    ghost Value = { List Op };

    ghost view = { λ o. o.kept.items };
}

impl Ops {
    /// These operations.
    pub fn of(ops: Vec<Op>) -> Ops
        ensures { result ≡ ops.items }
    {
        Ops { kept: ops }
    }

    /// The operations as a vector.
    pub(crate) fn into_vec(self) -> Vec<Op>
        ensures { result.items ≡ self }
    {
        self.kept
    }
}

/// What happens at one give.
#[derive(Drop)]
pub struct Deed {
    /// What the server takes before the request; what it refuses is passed over.
    pub ops: Ops,
    /// How many times the request is served.
    pub served: u8,
    /// What becomes of the datagrams of the answers, in their order; those beyond are queued at the
    /// end.
    pub fates: Fates,
}

/// What happens at gives: one deed for each of them, in their order. A give beyond is served once,
/// and its answer queued at the end.
#[derive(Drop)]
pub struct Plan {
    deeds: Vec<Deed>,
}

impl Model for Plan {
    ghost use Rattle.std.specs.Prelude.{List};
    ghost use Rattle.planned_link.specs.declared.deed.Deed.{Deed};

    ghost Value = { List Deed };

    ghost view = { λ p. p.deeds.items };
}

impl Plan {
    /// These deeds.
    pub fn of(deeds: Vec<Deed>) -> Plan
        ensures { result ≡ deeds.items }
    {
        Plan { deeds }
    }

    /// The deeds, the next one first.
    pub(crate) fn into_deque(self) -> VecDeque<Deed>
        ensures { result.items ≡ self }
    {
        VecDeque::from_vec(self.deeds)
    }
}

/// The deed of the next give.
pub(crate) fn next_deed(alloc: Global, plan: &mut VecDeque<Deed>) -> Deed
    ensures first { result ≡ first_deed plan.old.items }
    ensures rest { plan.new.items ≡ drop 1 plan.old.items }
{
    match plan.pop_front() {
        Some(deed) => deed,
        None => Deed {
            ops: Ops::of(Vec::new(alloc)),
            served: 1,
            fates: Fates::of(Vec::new(alloc)),
        },
    }
}
