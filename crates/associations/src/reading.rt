ghost use Rattle.std.specs.Prelude.{◌≡◌, ◌≤◌, ◌≢◌, IfErr, IfNone, IfOk, IfSome, None, Option, Some};
ghost use Rattle.associations.specs.Judging.{early_fault_of};
ghost use Rattle.associations.specs.Replies.{IsRead, IsReadable, reading_fault_of};
ghost use Rattle.associations.specs.declared.judging.ReplyFault.TheVariants.{NoSuchPeer};
ghost use Rattle.ntp_trailer.specs.Packets.{IsWholePacket};
ghost use Rattle.ntp_trailer.specs.declared.packet.JudgedPacket.{JudgedPacket};
ghost use Rattle.ntp_trailer.specs.declared.packet.Packet.{Packet};

use crate::association::Association;
use crate::judging::{ReplyFault, early_fault};
use mac_keys::KeyTable;
use ntp_packet::MODE_SERVER;
use ntp_trailer::{JudgedPacket, Packet, auth, read_packet};

/// The server's packet that the octets are; None where they are none. No digest is made.
fn read_server(bytes: &[u8]) -> Option<Packet>
    ensures found { IfSome result (λ packet. IsWholePacket bytes.now packet) }
    ensures server { IfSome result (λ packet. packet.header.mode ≡ MODE_SERVER) }
    ensures leap { IfSome result (λ packet. packet.header.leap ≤ 3) }
    ensures only { IfSome result (λ packet. (other : Packet) → IsWholePacket bytes.now other
        → packet ≡ other) }
    ensures none { IfNone result ((packet : Packet) → IsWholePacket bytes.now packet
        → packet.header.mode ≢ MODE_SERVER) }
{
    match read_packet(bytes) {
        Ok(packet) if packet.header.mode == MODE_SERVER => Some(packet),
        _ => None,
    }
}

/// The reply that the octets are, where these keys are known, unless what is told before its MAC is
/// looked at refuses it: so who forges a server's address buys no digest.
pub(crate) fn read_reply(
    of: &Association,
    bytes: &[u8],
    keys: &KeyTable,
) -> Result<JudgedPacket, ReplyFault>
    ensures readable { IsReadable keys.now bytes.now }
    ensures only { IfOk result (λ reply. (reading : Option JudgedPacket)
        → IsRead keys.now bytes.now reading → Some reply ≡ reading) }
    ensures proper { IfOk result (λ reply. early_fault_of of.now reply.header ≡ None) }
    ensures leap { IfOk result (λ reply. reply.header.leap ≤ 3) }
    ensures fault { IfErr result (λ fault. (reading : Option JudgedPacket)
        → IsRead keys.now bytes.now reading → reading_fault_of of.now reading ≡ Some fault) }
    ensures known { IfErr result (λ fault. fault ≢ NoSuchPeer) }
{
    match read_server(bytes) {
        None => Err(ReplyFault::Malformed),
        Some(packet) => match early_fault(of, &packet.header) {
            Some(fault) => Err(fault),
            None => Ok(JudgedPacket {
                header: packet.header,
                auth: auth(keys, bytes, &packet.trailer),
            }),
        },
    }
}
