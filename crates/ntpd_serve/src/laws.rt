ghost use Rattle.std.specs.Prelude.{◌≡◌};
ghost use Rattle.fixed_time.specs.declared.time.Ntp64.{Ntp64};
ghost use Rattle.sys_vars.specs.Answers.{grams_of};
ghost use Rattle.sys_vars.specs.declared.answer.Answer.{Answer};
ghost use Rattle.server_core.specs.States.{ServerState, reply_to};
ghost use Rattle.server_core.specs.Verdicts.{basis_of};
ghost use Rattle.server_core.specs.declared.op.Op.{Op};
ghost use Rattle.server_core.specs.declared.step.Reply.{Reply};
ghost use Rattle.server_core.specs.declared.verdict.Verdict.{Verdict};
ghost use Rattle.ntpd_serve.specs.Once.{IsOpeningState};

use fixed_time::Ntp64;
use server_core::Ask;
use sys_vars::{Asked, Context};

/// A server that has just begun serves each request for the time, from the system and the clock that
/// it publishes.
pub fn each_request_is_served(origin: Ntp64, ask: &Ask, came: u64)
    ghost server: { ServerState }
    requires { IsOpeningState origin server }
    ensures { reply_to server (Op.Arrive ask.now came)
        ≡ Reply.Time (Verdict.Served (basis_of server.published)) }
{}

/// A server that has just begun answers each control request, by the datagrams of the record that it
/// publishes.
pub fn each_control_request_is_answered(origin: Ntp64, asked: &Asked, context: &Context)
    ghost server: { ServerState }
    requires { IsOpeningState origin server }
    ensures { reply_to server (Op.Look asked.now context.now) ≡ Reply.Looked (Answer.Given
        server.published.epoch (grams_of server.published asked.now context.now)) }
{}
