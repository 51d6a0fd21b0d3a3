ghost use Rattle.std.specs.Prelude.{◌≡◌, ◌+◌, ◌<◌, ◌≤◌, ◌⊎◌, [], ◌∷◌, ◌++◌, length, None, IfOk, OnOk, OnErr, MatchResult};
ghost use Rattle.server_core.specs.declared.op.TheConstants.{MAX_ENTRIES};
ghost use Rattle.server_core.specs.Books.{IsShort, IsTellableReply, MayWant};
ghost use Rattle.server_core.specs.States.{refusal_of, reply_to, rows_after, stamp_after, state_after};

use crate::arriving::arrive;
use crate::book::Book;
use crate::op::Op;
use crate::reading::read_list;
use crate::refusing::refusal;
use crate::step::{Reply, StepFault};
use recency::{Recency, Steps};
use recency_links::LinkedList;
use std::alloc::{AllocError, Global};
use std::marker::Brand;
use std::sync::ledger::{Blank, Ledger};
use sys_vars::answering::answer;

impl Book {
    /// Takes one operation: its reply and the server after it are those of the definition, and the
    /// journal has it at its end.
    ///
    /// An operation is refused where the server was stopped, where its journal has all that it may
    /// have, or where a stamp is to be drawn and the last one is the greatest that there is, in this
    /// order. Memory is wanted for the answer to a control request, for a page of the client list,
    /// and for a client that is new to the list. What is refused leaves the server as it was, without an entry.
    pub fn step(&mut self, op: Op) -> Result<Reply, StepFault>
        ensures answered { MatchResult result
            (λ reply. (refusal_of self.old.journal self.old.state.stamp op ≡ None)
            × (reply ≡ reply_to self.old.state op))
            (λ fault. (refusal_of self.old.journal self.old.state.stamp op ≡ Some fault)
            ⊎ ((fault ≡ StepFault.NoMemory) × MayWant self.old.state op
            × (refusal_of self.old.journal self.old.state.stamp op ≡ None))) }
        ensures next { OnOk result (self.new.state ≡ state_after self.old.state op) }
        ensures entered { OnOk result (self.new.journal ≡ self.old.journal ++ op ∷ []) }
        ensures short { IfOk result IsShort }
        ensures tellable { IfOk result IsTellableReply }
        ensures most { length self.new.journal ≤ MAX_ENTRIES + 1 }
        ensures kept { OnErr result (self.new ≡ self.old) }
    {
        if let Some(fault) = refusal(&self.journal, self.stamp, &op) {
            return Err(fault);
        }
        match self.act::<Brand>(&op, Blank::new(1)) {
            Ok(reply) => {
                self.journal.push(op);
                Ok(reply)
            }
            Err(_) => Err(StepFault::NoMemory),
        }
    }

    /// What an operation does and is answered, but for the record that it publishes, which stands in
    /// the journal.
    fn act<L: Ledger>(&mut self, op: &Op, blank: Blank) -> Result<Reply, AllocError>
        requires open { refusal_of self.old.journal self.old.state.stamp op.now ≡ None }
        requires name { blank.name ≡ L.name }
        requires parts { blank.parts ≡ L.parts }
        requires some { 0 < blank.parts }
        ensures reply { IfOk result (λ reply. reply ≡ reply_to self.old.state op.now) }
        ensures short { IfOk result IsShort }
        ensures tellable { IfOk result IsTellableReply }
        ensures rows { OnOk result (self.new.state.rows ≡ rows_after self.old.state op.now) }
        ensures stamp { OnOk result (self.new.state.stamp ≡ stamp_after self.old.state op.now) }
        ensures memory { OnErr result (MayWant self.old.state op.now) }
        ensures rows_kept { OnErr result (self.new.state.rows ≡ self.old.state.rows) }
        ensures stamp_kept { OnErr result (self.new.state.stamp ≡ self.old.state.stamp) }
        ensures published { self.new.state.published ≡ self.old.state.published }
        ensures limits { self.new.state.limits ≡ self.old.state.limits }
        ensures origin { self.new.state.origin ≡ self.old.state.origin }
        ensures journal { self.new.journal ≡ self.old.journal }
    {
        match op {
            Op::Publish(_) => Ok(Reply::Published),
            Op::Arrive(ask, moment) => {
                let record = self.journal.latest(&self.opening);
                let verdict = arrive::<LinkedList, L>(
                    &mut self.list,
                    &mut self.stamp,
                    record,
                    ask,
                    *moment,
                    blank,
                )?;
                Ok(Reply::Time(verdict))
            }
            Op::Look(asked, context) => {
                let record = self.journal.latest(&self.opening);
                Ok(Reply::Looked(answer(self.alloc, record, asked, context)?))
            }
            Op::Read(ask, moment) => {
                let record = self.journal.latest(&self.opening);
                let reply = read_list::<LinkedList, L>(
                    self.alloc,
                    &self.list,
                    &mut self.stamp,
                    record,
                    ask,
                    *moment,
                    blank,
                )?;
                Ok(Reply::Read(reply))
            }
            Op::Sweep(moment) => {
                let mut steps = Steps::<L>::begin(blank);
                Ok(Reply::Swept(self.list.sweep(*moment, &mut steps)))
            }
            Op::Stop(_) => Ok(Reply::Stopped),
        }
    }
}
