ghost use Rattle.std.specs.Prelude.{◌≡◌};
ghost use Rattle.ntpq_tool.specs.Ending.{failure_status, status_of};

use edge_traits::{Status, Text};
use mrulist_run::fault_status;
use ntpq_client::AskFault;
use ntpq_report::ReportFault;
use std::alloc::AllocError;

/// How a run of `ntpq` ended: all answers were taken, and this is their report; or there is none.
pub type Ending = Result<Text, Failure>;

/// Why there is no report.
#[derive(Clone, Copy, Debug, PartialEq, Eq)]
pub enum Failure {
    /// The words are no command.
    Words,
    /// An answer did not come.
    Ask(AskFault),
    /// An answer cannot be read.
    BadReply,
    /// There was no memory.
    NoMemory,
}

impl From<AllocError> for Failure {
    ghost use Rattle.std.specs.Prelude.{◌≡◌};
    ghost use Rattle.ntpq_tool.specs.declared.ending.Failure.TheVariants.{NoMemory};

    ghost from_gives = { λ _ why. why ≡ NoMemory };

    fn from(_: AllocError) -> Failure {
        Failure::NoMemory
    }
}

/// The exit status of a run that ended so and whose output was written.
pub fn status_of(ending: &Ending) -> Status
    ensures { result.0 ≡ status_of ending.now }
{
    match ending {
        Ok(_) => Status(0),
        Err(why) => failure_status(why),
    }
}

fn failure_status(why: &Failure) -> Status
    ensures { result.0 ≡ failure_status why.now }
{
    match why {
        Failure::Words => Status(1),
        Failure::Ask(fault) => fault_status(fault),
        Failure::BadReply => Status(7),
        Failure::NoMemory => Status(9),
    }
}
