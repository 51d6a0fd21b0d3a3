ghost use Rattle.std.specs.Prelude.{◌≡◌};
ghost use Rattle.mrulist_run.specs.Statuses.{fault_status, run_status};

use crate::fault::RunFault;
use edge_traits::Status;
use ntpq_client::AskFault;

/// The exit status of a query tool where an answer did not come.
pub fn fault_status(fault: &AskFault) -> Status
    ensures { result.0 ≡ fault_status fault.now }
{
    Status(match fault {
        AskFault::Port => 3,
        AskFault::NoReply => 4,
        AskFault::Refused(_) => 5,
        AskFault::Incomplete => 6,
        AskFault::NoMemory => 9,
        AskFault::Flooded => 10,
        AskFault::Closed => 11,
    })
}

/// The exit status of a query tool where a listing did not complete.
pub fn run_status(fault: &RunFault) -> Status
    ensures { result.0 ≡ run_status fault.now }
{
    match fault {
        RunFault::Ask(fault) => fault_status(fault),
        RunFault::BadReply { .. } => Status(7),
        RunFault::NoMemory => Status(9),
    }
}
