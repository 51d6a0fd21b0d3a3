ghost use Rattle.std.specs.Prelude.{◌≡◌, ◌+◌, ◌≤◌, ◌<◌, Some, List, [], ◌∷◌, ◌++◌, length, IfOk, slice_get};
ghost use Rattle.server_core.specs.declared.op.Op.{Op};
ghost use Rattle.server_core.specs.States.{publications_in, record_of, stop_in};
ghost use Rattle.server_core.specs.Journals.{CanTake, IsIndexed, published_in};
ghost use Rattle.server_core.specs.declared.op.TheConstants.{MAX_ENTRIES};

use crate::index::Index;
use crate::op::{MAX_ENTRIES, Op, Stop};
use std::alloc::{AllocError, Global};
use std::marker::Model;
use sys_vars::Record;

/// The operations that a server took, oldest first: at most 262,144, and one that stops it.
#[derive(Drop)]
pub struct Journal {
    ops: Vec<Op>,
    index: Index,
}

impl Model for Journal {
    ghost use Rattle.std.specs.Prelude.{◌+◌, ◌≤◌, List};
    ghost use Rattle.std.specs.Vec.{vec_capacity};
    ghost use Rattle.server_core.specs.declared.op.Op.{Op};
    ghost use Rattle.server_core.specs.declared.op.TheConstants.{MAX_ENTRIES};
    ghost use Rattle.server_core.specs.Journals.{IsIndexed};

    ghost Value = { List Op };

    ghost view = { λ j. j.ops.items };

    ghost invariant = { λ j. IsIndexed j.ops.items j.index
        × (MAX_ENTRIES + 1 ≤ vec_capacity j.ops) };
}

impl Journal {
    /// A journal of no operations, with room for all that it may have.
    pub(crate) fn begin(alloc: Global) -> Result<Journal, AllocError>
        ensures { IfOk result (λ journal. journal ≡ []) }
    {
        let ops = Vec::with_capacity(alloc, MAX_ENTRIES + 1)?;
        Ok(Journal {
            ops,
            index: NOTHING,
        })
    }

    /// How many operations there are.
    pub fn len(&self) -> usize
        ensures { result ≡ length self.now }
    {
        self.ops.len()
    }

    /// The operation at a place, counted from 0.
    pub fn get(&self, place: usize) -> &Op
        requires { place < length self.now }
        ensures { slice_get self.now place ≡ Some result.now }
    {
        &self.ops[place]
    }

    /// How many operations publish a record.
    pub(crate) fn publications(&self) -> usize
        ensures { result ≡ publications_in self.now }
    {
        self.index.publications
    }

    /// The stop, where the server was stopped.
    pub(crate) fn stop(&self) -> Option<Stop>
        ensures { result ≡ stop_in self.now }
    {
        self.index.stop
    }

    /// The record that is published, where this one was before the first operation.
    pub(crate) fn latest<'a>(&'a self, opening: &'a Record) -> &'a Record
        ensures { result.now ≡ published_in opening.now self.now }
    {
        match self.index.last {
            None => opening,
            Some(place) => record_in(self.get(place), opening),
        }
    }

    /// The record that is published, where this one was before the first operation; and a journal of
    /// no operations, with the same room.
    pub(crate) fn emptied(self, opening: Record) -> (Record, Journal)
        ensures published { result.0 ≡ published_in opening self }
        ensures empty { result.1 ≡ [] }
    {
        let Journal { mut ops, index } = self;
        let record = match index.last {
            None => opening,
            Some(place) => record_of(ops.swap_remove(place), opening),
        };
        ops.clear();
        (
            record,
            Journal {
                ops,
                index: NOTHING,
            },
        )
    }

    /// Takes one operation more. Its room was taken in the beginning.
    pub(crate) fn push(&mut self, op: Op)
        requires { CanTake self.old op }
        ensures entered { self.new ≡ self.old ++ op ∷ [] }
        ensures most { length self.new ≤ MAX_ENTRIES + 1 }
    {
        let place = self.len();
        self.index = index_with(self.index, &op, place);
        self.ops.push_reserved(op);
    }
}

/// What a journal of no operations keeps.
const NOTHING: Index = Index {
    last: None,
    publications: 0,
    stop: None,
};

/// The record that an operation publishes, or else this one.
fn record_of(op: Op, before: Record) -> Record
    ensures { result ≡ record_of op before }
{
    match op {
        Op::Publish(boxed) => Box::into_inner(boxed),
        Op::Arrive(..) | Op::Look(..) | Op::Read(..) | Op::Sweep(_) | Op::Stop(_) => before,
    }
}

/// The same of an operation that stays where it is.
fn record_in<'a>(op: &'a Op, before: &'a Record) -> &'a Record
    ensures { result.now ≡ record_of op.now before.now }
{
    match op {
        Op::Publish(boxed) => boxed,
        Op::Arrive(..) | Op::Look(..) | Op::Read(..) | Op::Sweep(_) | Op::Stop(_) => before,
    }
}

/// What a journal keeps beside its operations once another stands at this place, at its end.
fn index_with(index: Index, op: &Op, place: usize) -> Index
    requires { index.publications ≤ MAX_ENTRIES }
    ensures { (ops : List Op) → IsIndexed ops index → CanTake ops op.now → place ≡ length ops
        → IsIndexed (ops ++ op.now ∷ []) result }
{
    match op {
        Op::Publish(_) => Index {
            last: Some(place),
            publications: index.publications + 1,
            stop: index.stop,
        },
        Op::Stop(stop) => Index {
            last: index.last,
            publications: index.publications,
            stop: Some(*stop),
        },
        Op::Arrive(..) => index,
        Op::Look(..) => index,
        Op::Read(..) => index,
        Op::Sweep(_) => index,
    }
}
