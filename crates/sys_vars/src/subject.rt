ghost use Rattle.std.specs.Prelude.{◌≡◌};
ghost use Rattle.sys_vars.specs.Variables.{subject_of};

use crate::peer_view::PeerView;
use crate::published::Record;

/// What has a status and variables of its own.
#[derive(Clone, Copy, Debug, PartialEq, Eq)]
pub enum Subject {
    /// The system.
    System,
    /// A peer.
    Peer(PeerView),
}

/// Whom an association number names: 0 is the system, any other the peer that has it.
pub(crate) fn subject_of(rec: &Record, assoc: u16) -> Option<Subject>
    ensures { result ≡ subject_of rec.now assoc }
{
    if assoc == 0 {
        return Some(Subject::System);
    }
    match rec.peers.find(assoc) {
        Some(peer) => Some(Subject::Peer(*peer)),
        None => None,
    }
}
