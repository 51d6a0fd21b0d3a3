ghost use Rattle.std.specs.Prelude.{◌≡◌, ◌<◌, ◌++◌, Some, length, slice_get, IfOk, OnErr};
ghost use Rattle.server_core.specs.Histories.{AreSteps, accepted, state_after_all};

use crate::book::Book;
use crate::op::Op;
use crate::step::{Reply, StepFault};
use std::alloc::{AllocError, Global};
use std::marker::Model;

/// What operations were answered, in their order.
#[derive(Drop)]
pub struct Answers {
    answers: Vec<Result<Reply, StepFault>>,
}

impl Model for Answers {
    ghost use Rattle.std.specs.Prelude.{List, Result};
    ghost use Rattle.server_core.specs.declared.step.Reply.{Reply};
    ghost use Rattle.server_core.specs.declared.step.StepFault.{StepFault};

    ghost Value = { List (Result Reply StepFault) };

    ghost view = { λ a. a.answers.items };
}

impl Answers {
    /// How many there are.
    pub fn len(&self) -> usize
        ensures { result ≡ length self.now }
    {
        self.answers.len()
    }

    /// The answer at a place, counted from 0.
    pub fn get(&self, place: usize) -> &Result<Reply, StepFault>
        requires { place < length self.now }
        ensures { slice_get self.now place ≡ Some result.now }
    {
        &self.answers[place]
    }
}

/// Takes operations one after another, and answers what each was answered. What is refused is passed
/// over: the server is afterwards the one that the definition makes of the others, in their order,
/// and its journal has gained just these.
pub fn perform(alloc: Global, book: &mut Book, ops: Vec<Op>) -> Result<Answers, AllocError>
    ensures steps { IfOk result (λ answers. AreSteps book.old ops.items answers book.new) }
    ensures state { IfOk result (λ answers. book.new.state
        ≡ state_after_all book.old.state (accepted ops.items answers)) }
    ensures journal { IfOk result (λ answers. book.new.journal
        ≡ book.old.journal ++ accepted ops.items answers) }
    ensures kept { OnErr result (book.new ≡ book.old) }
{
    let mut answers = Vec::with_capacity(alloc, ops.len())?;
    for op in ops {
        answers.push_reserved(book.step(op));
    }
    Ok(Answers { answers })
}
