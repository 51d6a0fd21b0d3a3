ghost use Rattle.std.specs.Prelude.{◌≡◌, ◌≤◌, ◌<◌, [], IfOk, length, slice_index_or};
ghost use Rattle.sys_vars.specs.Names.{peer_names};
ghost use Rattle.sys_vars.specs.Variables.{IsPlainValue, peer_texts};

use crate::number_text::{
    fixed, integer, milliseconds, natural, reach, signed_milliseconds, stamp,
};
use crate::peer_view::PeerView;
use crate::refid_text::refid_text;
use crate::sample_text::{Measure, measures};
use mode6_frame::Text;
use net_addr::write_ip;
use std::alloc::{AllocError, Global};

/// The text of the variable of a number, of a peer.
#[tactic(auto, unfolding(crate::specs::Variables::peer_texts, crate::specs::Names::peer_names))]
pub(crate) fn peer_text(alloc: Global, peer: &PeerView, number: u8) -> Result<Text, AllocError>
    requires { number < length peer_names }
    ensures value { IfOk result (λ text. text ≡ slice_index_or (peer_texts peer.now) number []) }
    ensures short { IfOk result (λ text. length text ≤ 232) }
    ensures plain { IfOk result IsPlainValue }
{
    match number {
        0 => fixed(alloc, write_ip(&peer.addr.ip).as_slice()),
        1 => natural(alloc, u64::from(peer.addr.port)),
        2 => fixed(alloc, b"3"),
        3 => natural(alloc, u64::from(peer.pmode)),
        4 => natural(alloc, u64::from(peer.hpoll)),
        5 => integer(alloc, peer.ppoll),
        6 => natural(alloc, u64::from(peer.leap)),
        7 => natural(alloc, u64::from(peer.stratum)),
        8 => integer(alloc, peer.precision),
        9 => milliseconds(alloc, peer.root_delay),
        10 => milliseconds(alloc, peer.root_disp),
        11 => refid_text(alloc, peer.stratum, &peer.refid),
        12 => stamp(alloc, peer.reference),
        13 => stamp(alloc, peer.received),
        14 => reach(alloc, peer.reach),
        15 => natural(alloc, u64::from(peer.key)),
        16 => signed_milliseconds(alloc, peer.offset),
        17 => milliseconds(alloc, peer.delay),
        18 => milliseconds(alloc, peer.disp),
        19 => milliseconds(alloc, peer.jitter),
        20 => measures(alloc, Measure::Delay, &peer.stages),
        21 => measures(alloc, Measure::Offset, &peer.stages),
        _ => measures(alloc, Measure::Dispersion, &peer.stages),
    }
}
