ghost use Rattle.std.specs.Prelude.{◌≡◌, ◌+◌, ◌≤◌, ◌∷◌, [], ◌++◌, OnOk, OnErr};
ghost use Rattle.std.specs.VecDeque.{deque_capacity, deque_len};
ghost use Rattle.planned_link.specs.Fates.{fated, placed};

use crate::fate::{Fate, Fates, next_fate};
use edge_traits::{Event, Octets};
use net_addr::Addr;
use std::alloc::AllocError;
use std::collections::VecDeque;

/// A datagram on its way to the client.
#[derive(Drop)]
pub struct Queued {
    /// Where it comes from.
    pub from: Addr,
    pub octets: Octets,
    /// The number, from 0, of the read that it answers in the server's journal; None where it answers
    /// no read, or one that is prohibited.
    pub place: Option<u64>,
}

/// Tells an event and queues the datagrams of answers by their fates, where there is memory for all
/// of it.
pub(crate) fn settle(
    events: &mut Vec<Event>,
    queue: &mut VecDeque<Queued>,
    event: Event,
    fates: Fates,
    answers: Vec<Queued>,
) -> Result<(), AllocError>
    ensures told { OnOk result (events.new.items ≡ events.old.items ++ event ∷ []) }
    ensures queued { OnOk result
        (queue.new.items ≡ fated fates answers.items queue.old.items) }
    ensures untold { OnErr result (events.new.items ≡ events.old.items) }
    ensures unqueued { OnErr result (queue.new.items ≡ queue.old.items) }
{
    queue.reserve(answers.len().saturating_add(answers.len()))?;
    events.push(event)?;
    let mut fates = fates.in_turn();
    for answer in answers {
        place(queue, next_fate(&mut fates), answer);
    }
    Ok(())
}

/// Queues a datagram by its fate. There is room for it twice.
fn place(queue: &mut VecDeque<Queued>, fate: Fate, answer: Queued)
    requires { deque_len queue.old + 2 ≤ deque_capacity queue.old }
    ensures placed { queue.new.items ≡ placed fate answer queue.old.items }
    ensures len { deque_len queue.new ≤ deque_len queue.old + 2 }
    ensures capacity { deque_capacity queue.new ≡ deque_capacity queue.old }
{
    match fate {
        Fate::Lost => {}
        Fate::Twice => {
            let again = Queued {
                from: answer.from,
                octets: answer.octets.copy(),
                place: answer.place,
            };
            queue.push_back_reserved(answer);
            queue.push_back_reserved(again);
        }
        Fate::Front => queue.push_front_reserved(answer),
        Fate::Last => queue.push_back_reserved(answer),
    }
}
