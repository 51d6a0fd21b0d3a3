ghost use Rattle.std.specs.Prelude.{◌≡◌};
ghost use Rattle.drawn_link.specs.Services.{Runs};

use crate::arrivals::drawn_ops;
use draws::Draws;
use server_core::{Book, Op, perform};
use std::alloc::{AllocError, Global};

/// What happens at a server at this moment before a request comes, and then how often the request is
/// served: as it is drawn, or nothing, and once.
pub(crate) fn happen(
    alloc: Global,
    book: &mut Book,
    draws: &mut Draws,
    is_drawn: bool,
    moment: u64,
) -> Result<u8, AllocError>
    ensures { Runs book.old book.new }
{
    if !is_drawn {
        return Ok(1);
    }
    arrive(alloc, book, draws, moment)?;
    publish(alloc, book, draws)?;
    Ok(drawn_times(draws))
}

/// Some clients arrive, and old rows of the client list may go.
fn arrive(alloc: Global, book: &mut Book, draws: &mut Draws, moment: u64) -> Result<(), AllocError>
    ensures { Runs book.old book.new }
{
    let ops = drawn_ops(alloc, draws, moment)?;
    let _answers = perform(alloc, book, ops)?;
    Ok(())
}

/// The record may be published once more, with the next epoch.
fn publish(alloc: Global, book: &mut Book, draws: &mut Draws) -> Result<(), AllocError>
    ensures { Runs book.old book.new }
{
    if draws.below(16) != 0 {
        return Ok(());
    }
    match book.epoch().checked_add(1) {
        None => Ok(()),
        Some(epoch) => {
            let mut record = book.latest().copy()?;
            record.epoch = epoch;
            let _ = book.step(Op::Publish(Box::new(alloc, record)?));
            Ok(())
        }
    }
}

/// How often a request is served.
fn drawn_times(draws: &mut Draws) -> u8 {
    match draws.below(16) {
        0 => 0,
        1 => 2,
        _ => 1,
    }
}
