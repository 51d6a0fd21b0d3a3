ghost use Rattle.std.specs.Prelude.{◌≡◌, ◌≤◌, ◌^◌, ◌↔◌, IsTrue, codes};
ghost use Rattle.associations.specs.DueTimes.{moment_after};

use crate::judging::ReplyFault;

/// When a server is asked next, after a reply of it was refused.
#[derive(Clone, Copy, Debug, PartialEq, Eq)]
pub enum NextRequest {
    /// As it was due before.
    AsBefore,
    /// At this moment alone, in 32.32 seconds; None is past the last moment.
    Due(Option<u64>),
}

/// Whether the fault is the kiss code RATE: the server is asked too often (RFC 5905, section 7.4).
pub(crate) fn is_rate(fault: ReplyFault) -> bool
    ensures { IsTrue result ↔ (fault ≡ ReplyFault.Kiss (codes "RATE")) }
{
    match fault {
        ReplyFault::Kiss(code) => code == *b"RATE",
        _ => false,
    }
}

/// The seconds of a poll interval.
pub(crate) fn seconds_of(poll: u8) -> u64
    requires { poll ≤ 17 }
    ensures value { result ≡ 2 ^ poll }
    ensures most { result ≤ 2 ^ 17 }
{
    2u64.pow(u32::from(poll))
}

/// The moment that is so many seconds after another, in 32.32 seconds. None exactly where that is
/// past the last moment.
pub fn moment_after(seconds: u64, moment: u64) -> Option<u64>
    ensures { result ≡ moment_after seconds moment }
{
    let later = u128::from(moment) + u128::from(seconds) * (1 << 32);
    if later < 1 << 64 {
        Some(later as u64)
    } else {
        None
    }
}
