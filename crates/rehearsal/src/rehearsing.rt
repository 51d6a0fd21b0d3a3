ghost use Rattle.std.specs.Prelude.{◌≡◌, ◌⊎◌, ◌≤◌, IfOk, IfSome, IsNone};
ghost use Rattle.edge_traits.specs.Told.{Rose};
ghost use Rattle.rehearsal.specs.Lines.{Prints, rehearsal_lines};
ghost use Rattle.rehearsal.specs.Rehearsals.{IsRehearsed};

use crate::lines::rehearsal_lines;
use command_line::print;
use drawn_link::{LinkEnd, link_run};
use drawn_session::{SessionEnd, draws_left, session_run};
use edge_traits::{Gate, Sink, Status};
use std::alloc::{AllocError, Global};
use std::sync::Wait;
use std::thread::Threads;

/// What a rehearsal leaves: its session, and its listing over a link.
#[derive(Drop)]
pub struct Rehearsed {
    pub session: SessionEnd,
    pub link: LinkEnd,
}

/// Serves the session that this number draws, lists the clients of another server over a link that goes
/// on with the draws, and then prints how much was done in both.
///
/// The status is 0, 8 where the sink failed, or 9 where memory was wanting; what was done is handed back
/// but where memory was wanting for it.
pub fn rehearse<R: Threads + Wait + Sync, S: Sink, G: Gate + Sync>(
    rt: &R,
    alloc: Global,
    number: u64,
    gate: &G,
    out: &mut S,
) -> (Status, Option<Rehearsed>)
    ensures rehearsed { IfSome result.1 (λ rehearsed. IsRehearsed number rehearsed
        × Prints (rehearsal_lines number rehearsed) result.0
        (S.contents out.old) (S.contents out.new)) }
    ensures none { IsNone result.1
        → (result.0.0 ≡ 9) × (S.contents out.new ≡ S.contents out.old) }

    ensures status { (result.0.0 ≡ 0) ⊎ ((result.0.0 ≡ 8) ⊎ (result.0.0 ≡ 9)) }
    ensures sink_failed { result.0.0 ≡ 8 → Rose 1 (S.faults out.old) (S.faults out.new) }
    ensures faults_kept { S.faults out.old ≤ S.faults out.new }
{
    match run_both(rt, alloc, number, gate) {
        Err(_) => (Status(9), None),
        Ok(rehearsed) => {
            let lines = rehearsal_lines(number, &rehearsed);
            let status = print(lines.as_slice(), out);
            (status, Some(rehearsed))
        }
    }
}

/// Serves the session, and runs the listing.
fn run_both<R: Threads + Wait + Sync, G: Gate + Sync>(
    rt: &R,
    alloc: Global,
    number: u64,
    gate: &G,
) -> Result<Rehearsed, AllocError>
    ensures { IfOk result (IsRehearsed number) }
{
    let session = session_run(rt, alloc, number, gate)?;
    let link = link_run(alloc, draws_left(number))?;
    Ok(Rehearsed { session, link })
}
