ghost use Rattle.std.specs.Prelude.{◌≡◌};
ghost use Rattle.sys_vars.specs.Status.{peer_status_of, system_status_of};

use crate::peer_view::PeerView;
use crate::system::System;
use mode6_frame::{PeerStatus, SystemStatus, peer_status_word, system_status_word};

/// The system status word (RFC 9327, section 3.1): the leap indicator, the clock source, the event
/// counter and the event code.
pub fn system_status(system: &System) -> u16
    ensures { result ≡ system_status_of system.now }
{
    system_status_word(&SystemStatus {
        leap: system.leap,
        source: system.source,
        events: system.events,
        code: system.code,
    })
}

/// The peer status word (RFC 9327, section 3.2): what is known of the peer, the selection code, the
/// event counter and the event code.
pub fn peer_status(peer: &PeerView) -> u16
    ensures { result ≡ peer_status_of peer.now }
{
    peer_status_word(&PeerStatus {
        configured: true,
        keyed: peer.key != 0,
        authentic: peer.auth_ok,
        reachable: peer.reach != 0,
        broadcast: false,
        selection: peer.selection,
        events: peer.events,
        code: peer.code,
    })
}
