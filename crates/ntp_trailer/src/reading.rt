ghost use Rattle.std.specs.Prelude.{◌≡◌, Ok, Err, IfOk, IfErr};
ghost use Rattle.ntp_packet.specs.Packet.{Fits, mode_of};
ghost use Rattle.ntp_trailer.specs.declared.packet.Packet.{Packet};
ghost use Rattle.ntp_trailer.specs.declared.packet.JudgedPacket.{JudgedPacket};
ghost use Rattle.ntp_trailer.specs.declared.packet.ReadFault.{ReadFault};
ghost use Rattle.ntp_trailer.specs.Packets.{IsWholePacket, IsUnreadable, IsJudgedPacket};

use crate::checking::auth;
use crate::packet::{JudgedPacket, Packet, ReadFault};
use crate::splitting::split;
use mac_keys::KeyTable;

/// The packet that the octets are: a header, and behind it extension fields and a MAC, end to end, or
/// nothing (RFC 5905, sections 7.3 and 7.5).
///
/// No digest is made: [`auth`](crate::auth) tells what the MAC shows.
pub fn read_packet(bytes: &[u8]) -> Result<Packet, ReadFault>
    ensures found { IfOk result (λ packet. IsWholePacket bytes.now packet) }
    ensures only { (packet : Packet) → IsWholePacket bytes.now packet → result ≡ Ok packet }
    ensures fits { IfOk result (λ packet. Fits packet.header) }
    ensures mode { IfOk result (λ packet. packet.header.mode ≡ mode_of bytes.now) }

    // The refusals.
    ensures refused { IfErr result (λ fault. IsUnreadable bytes.now fault) }
    ensures due { (fault : ReadFault) → IsUnreadable bytes.now fault → result ≡ Err fault }
{
    match ntp_packet::read(bytes) {
        Err(fault) => Err(ReadFault::BadHeader(fault)),
        Ok(header) => match split(bytes) {
            Err(fault) => Err(ReadFault::BadTrailer(fault)),
            Ok(trailer) => Ok(Packet { header, trailer }),
        },
    }
}

/// The header of the packet that the octets are, and what its MAC shows where these keys are known.
///
/// A digest is made of each packet whose MAC names a known key: what the header decides alone is
/// judged before, by [`read_packet`].
pub fn judge_packet(keys: &KeyTable, bytes: &[u8]) -> Result<JudgedPacket, ReadFault>
    ensures found { IfOk result (λ judged. IsJudgedPacket keys.now bytes.now judged) }
    ensures only { (judged : JudgedPacket) → IsJudgedPacket keys.now bytes.now judged
        → result ≡ Ok judged }
    ensures fits { IfOk result (λ judged. Fits judged.header) }
    ensures mode { IfOk result (λ judged. judged.header.mode ≡ mode_of bytes.now) }

    // The refusals.
    ensures refused { IfErr result (λ fault. IsUnreadable bytes.now fault) }
    ensures due { (fault : ReadFault) → IsUnreadable bytes.now fault → result ≡ Err fault }
{
    match read_packet(bytes) {
        Err(fault) => Err(fault),
        Ok(packet) => Ok(JudgedPacket {
            header: packet.header,
            auth: auth(keys, bytes, &packet.trailer),
        }),
    }
}

#[cfg(test)]
mod tests {
    use super::*;
    use crate::parts::TrailerFault;
    use mac_keys::{Auth, KeyTable};
    use ntp_packet::PacketFault;

    /// What a first octet and so many octets in all show, 80 at most, the others being zeros.
    fn shown(keys: &KeyTable, first: u8, len: usize) -> Result<Auth, ReadFault> {
        let mut octets = [0; 80];
        octets[0] = first;
        judge_packet(keys, &octets[..len.min(80)]).map(|judged| judged.auth)
    }

    #[test]
    fn the_header_is_judged_before_what_follows_it(rt: HostRuntime) {
        let keys = KeyTable::new(rt.alloc());
        let cases = [
            (0x23, 48, Ok(Auth::Absent)),
            (0x23, 52, Ok(Auth::Bad)),
            (0x23, 47, Err(ReadFault::BadHeader(PacketFault::Short))),
            (0x2b, 50, Err(ReadFault::BadHeader(PacketFault::BadVersion))),
            (0x23, 50, Err(ReadFault::BadTrailer(TrailerFault::Ragged))),
        ];
        for (first, len, wanted) in cases {
            assert_eq!(rt; shown(&keys, first, len), wanted, "{first:#x} {len}");
        }
    }
}
