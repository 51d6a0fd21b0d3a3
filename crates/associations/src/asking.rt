ghost use Rattle.std.specs.Prelude.{◌≡◌, ◌≤◌, ◌++◌, List, ℕ, length};
ghost use Rattle.std.specs.Option.{option_copied};
ghost use Rattle.ntp_packet.specs.Packet.{IsPacket, IsPacketMode, IsPacketVersion, spelled_header};
ghost use Rattle.associations.specs.Requests.{key_by, request_header, request_of};

use access_rules::ServerLine;
use edge_traits::Octets;
use fixed_time::{Ntp64, Short};
use mac_keys::{Key, KeyTable};
use ntp_packet::{CURRENT_VERSION, Header, MODE_CLIENT};
use ntp_trailer::append_mac;
use sys_vars::PRECISION;

/// The most octets of a request: its header, and a MAC of a key id and 20 octets of digest.
pub const MAX_REQUEST_LEN: usize = 72;

/// The request to a server that leaves at the time `transmit`. A MAC ends it where the line names a
/// key that is there.
#[tactic(auto, unfolding(crate::specs::Requests::request_of))]
pub(crate) fn make_request(line: ServerLine, keys: &KeyTable, transmit: Ntp64) -> Octets
    ensures value { result ≡ request_of line keys.now transmit }
    ensures packet { IsPacket result (request_header line transmit) }
    ensures short { length result ≤ MAX_REQUEST_LEN }
{
    let mut request = Octets::new();
    request.put(&header_octets(line, transmit));
    if let Some(key) = find_key(keys, line.key) {
        append_mac(key, &mut request);
    }
    request
}

/// The header of the request, as octets.
fn header_octets(line: ServerLine, transmit: Ntp64) -> [u8; 48]
    ensures spelled { result ≡ spelled_header (request_header line transmit) }
    ensures packet { (rest : List ℕ) → IsPacket (result ++ rest) (request_header line transmit) }
{
    ntp_packet::write(&make_header(line, transmit))
}

/// The key with this id, if it is there; id 0 is none.
fn find_key(keys: &KeyTable, id: u32) -> Option<&Key>
    ensures { option_copied result ≡ key_by keys.now id }
{
    if id == 0 { None } else { keys.find(id) }
}

#[tactic(auto, unfolding(crate::specs::Requests::request_header))]
fn make_header(line: ServerLine, transmit: Ntp64) -> Header
    ensures value { result ≡ request_header line transmit }
    ensures leap { result.leap ≤ 3 }
    ensures version { IsPacketVersion result.version }
    ensures mode { IsPacketMode result.mode }
{
    Header {
        leap: 0,
        version: CURRENT_VERSION,
        mode: MODE_CLIENT,
        stratum: 0,
        poll: line.poll.cast_signed(),
        precision: PRECISION,
        root_delay: Short(0),
        root_disp: Short(0),
        refid: [0; 4],
        reference: Ntp64(0),
        origin: Ntp64(0),
        receive: Ntp64(0),
        transmit,
    }
}
