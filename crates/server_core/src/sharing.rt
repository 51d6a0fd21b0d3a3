ghost use Rattle.std.specs.Prelude.{◌≡◌};
ghost use Rattle.server_core.specs.declared.step.StepFault.{StepFault};
ghost use Rattle.server_core.specs.Books.{IsShort, IsTellableReply, MayWant};
ghost use Rattle.server_core.specs.States.{refusal_of, reply_to, state_after};

use crate::book::Book;
use crate::op::Op;
use crate::step::{Reply, StepFault};
use std::marker::Model;
use turnstile::Object;

/// What a server is between two operations, as callers that share it see it. No value of it is made.
pub struct BookState {
    book: Book,
}

impl Model for BookState {
    ghost use Rattle.server_core.specs.States.{ServerState};

    ghost Value = { ServerState };

    ghost view = { λ s. s.book.state };
}

impl Object for Book {
    type Op = Op;

    type Reply = Reply;

    type Fault = StepFault;

    type State = BookState;

    ghost state = { λ book. book.state };

    ghost journal = { λ book. book.journal };

    ghost reply_to = { reply_to };

    ghost next = { state_after };

    ghost refusal = { λ s journal op. refusal_of journal s.stamp op };

    ghost lacks = { MayWant };

    ghost no_memory = { StepFault.NoMemory };

    ghost fits = { λ reply. IsShort reply × IsTellableReply reply };

    fn step(&mut self, op: Op) -> Result<Reply, StepFault> {
        self.step(op)
    }
}
