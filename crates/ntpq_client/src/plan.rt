ghost use Rattle.std.specs.Prelude.{◌≡◌, Some, None, MatchOption, IfSome, OnOk};
ghost use Rattle.ntpq_client.specs.Requests.{IsRequest};

use crate::request::Request;
use edge_traits::Text;
use std::alloc::{AllocError, Global};

/// What a command asks of a server, request by request, and how far it has come.
pub trait Plan {
    ghost use Rattle.std.specs.Prelude.{ℕ, List, Option};
    ghost use Rattle.ntpq_client.specs.declared.request.Request.{Request};

    /// The request that is due, None where the command is over.
    ghost due: { Self → Option Request };

    /// How far it has come after a whole answer of this status and text.
    ghost whole: { ℕ → List ℕ → Self → Self };

    /// How far it has come after its request was refused with this error code.
    ghost refused: { ℕ → Self → Self };

    /// How far it has come after a take that found nothing.
    ghost silent: { Self → Self };

    /// The request that is due, None where the command is over.
    fn due(&self) -> Option<&Request>
        ensures value { MatchOption result (due self.now ≡ None)
            (λ request. due self.now ≡ Some request.now) }
        ensures request { IfSome result (λ request. IsRequest request.now) };

    /// Goes on after a whole answer.
    fn whole(&mut self, alloc: Global, status: u16, text: Text) -> Result<(), AllocError>
        ensures { OnOk result (self.new ≡ whole status text self.old) };

    /// Goes on after a refusal.
    fn refused(&mut self, alloc: Global, code: u8) -> Result<(), AllocError>
        ensures { OnOk result (self.new ≡ refused code self.old) };

    /// Goes on after a take that found nothing.
    fn silent(&mut self, alloc: Global) -> Result<(), AllocError>
        ensures { OnOk result (self.new ≡ silent self.old) };
}
