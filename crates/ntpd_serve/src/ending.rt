ghost use Rattle.std.specs.Prelude.{◌≡◌};
ghost use Rattle.giving.specs.declared.given.GiveEnd.{GiveEnd};
ghost use Rattle.ntpd_serve.specs.Ending.{failure_status, status_of};

use edge_traits::Status;
use giving::{GiveEnd, Given};
use server_core::Silence;

/// How a run of `ntpd` ended.
#[derive(Clone, Copy, Debug, PartialEq, Eq)]
pub enum Ending {
    /// It gave an answer of so many datagrams.
    Answered(u64),
    /// The datagram gets no answer, for this reason.
    Silent(Silence),
    /// It did not come to serve one, or could not.
    Failed(Failure),
}

/// Why a run of `ntpd` served nothing, or no more.
#[derive(Clone, Copy, Debug, PartialEq, Eq)]
pub enum Failure {
    /// The words are no command.
    Words,
    /// The configuration file is refused at this word; line and word are counted from 1.
    Conf { line: u32, word: u32 },
    /// The key file is refused at this word.
    Keys { line: u32, word: u32 },
    /// A file has more octets than a file may have.
    TooLong,
    /// The host failed.
    Host,
    /// The port failed.
    Port,
    /// The last stamp of the client list was drawn.
    Clock,
    /// So many takes in a row found nothing that the run gave up.
    Quiet,
    /// The port was closed.
    Closed,
    /// There was no memory.
    NoMemory,
}

/// How a run ends that gave so much of its answer.
pub fn ending_of(given: Given) -> Ending
    ensures whole { given.end ≡ GiveEnd.Whole → result ≡ Ending.Answered given.count }
    ensures failed { given.end ≡ GiveEnd.Failed → result ≡ Ending.Failed Failure.Port }
    ensures no_memory { given.end ≡ GiveEnd.NoMemory → result ≡ Ending.Failed Failure.NoMemory }
{
    match given.end {
        GiveEnd::Whole => Ending::Answered(given.count),
        GiveEnd::Failed => Ending::Failed(Failure::Port),
        GiveEnd::NoMemory => Ending::Failed(Failure::NoMemory),
    }
}

/// The exit status of a run that ended so and whose line was written.
pub fn status_of(ending: &Ending) -> Status
    ensures { result.0 ≡ status_of ending.now }
{
    match ending {
        Ending::Answered(_) | Ending::Silent(_) => Status(0),
        Ending::Failed(why) => failure_status(why),
    }
}

/// The exit status of a failure.
pub fn failure_status(why: &Failure) -> Status
    ensures { result.0 ≡ failure_status why.now }
{
    Status(match why {
        Failure::Words => 1,
        Failure::Conf { .. } | Failure::Keys { .. } | Failure::TooLong => 2,
        Failure::Host => 3,
        Failure::Port => 4,
        Failure::Clock => 5,
        Failure::Quiet => 6,
        Failure::Closed => 7,
        Failure::NoMemory => 9,
    })
}
