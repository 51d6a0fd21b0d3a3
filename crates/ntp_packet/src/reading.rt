ghost use Rattle.std.specs.Prelude.{◌≡◌, ◌+◌, ◌≤◌, length, drop, None, Some, IfOk, OnOk, MatchResult};
ghost use Rattle.byteorder.specs.Endian.{big_number};
ghost use Rattle.ntp_packet.specs.Packet.{IsPacket, Fits, fault_of};
ghost use Rattle.ntp_packet.specs.FirstOctet.{version_of, mode_of};
ghost use Rattle.ntp_packet.specs.Fields.{header_at};

use crate::leap_version_mode::{
    CURRENT_VERSION, MIN_VERSION, MODE_BROADCAST, MODE_SYMMETRIC_ACTIVE, leap_in, mode_in,
    version_in,
};
use crate::packet::{HEADER_LEN, Header, PacketFault};
use byteorder::{BigEndian, ByteOrder};
use fixed_time::{Ntp64, Short};

/// The header in the first 48 octets; what follows them is not judged (RFC 5905, section 7.3).
///
/// The version has to be 1 to 4, and the mode 1 to 5.
pub fn read(bytes: &[u8]) -> Result<Header, PacketFault>
    ensures found { IfOk result (λ h. IsPacket bytes.now h) }
    ensures only { (h : Header) → IsPacket bytes.now h → result ≡ Ok h }
    ensures fits { IfOk result Fits }
    ensures version { IfOk result (λ h. h.version ≡ version_of bytes.now) }
    ensures mode { IfOk result (λ h. h.mode ≡ mode_of bytes.now) }
    ensures long { OnOk result (HEADER_LEN ≤ length bytes.now) }

    // The refusals, in their order.
    ensures refused { MatchResult result
        (λ h. fault_of bytes.now ≡ None) (λ fault. fault_of bytes.now ≡ Some fault) }
{
    match first_fault(bytes) {
        Some(fault) => Err(fault),
        None => Ok(header_in(bytes)),
    }
}

fn first_fault(bytes: &[u8]) -> Option<PacketFault>
    ensures { result ≡ fault_of bytes.now }
{
    if bytes.len() < HEADER_LEN {
        Some(PacketFault::Short)
    } else if !(MIN_VERSION..=CURRENT_VERSION).contains(&version_in(bytes)) {
        Some(PacketFault::BadVersion)
    } else if !(MODE_SYMMETRIC_ACTIVE..=MODE_BROADCAST).contains(&mode_in(bytes)) {
        Some(PacketFault::BadMode)
    } else {
        None
    }
}

fn header_in(bytes: &[u8]) -> Header
    requires { HEADER_LEN ≤ length bytes.now }
    ensures { result ≡ header_at bytes.now }
{
    Header {
        leap: leap_in(bytes),
        version: version_in(bytes),
        mode: mode_in(bytes),
        stratum: bytes[1],
        poll: bytes[2].cast_signed(),
        precision: bytes[3].cast_signed(),
        root_delay: short_in(bytes, 4),
        root_disp: short_in(bytes, 8),
        refid: [bytes[12], bytes[13], bytes[14], bytes[15]],
        reference: timestamp_in(bytes, 16),
        origin: timestamp_in(bytes, 24),
        receive: timestamp_in(bytes, 32),
        transmit: timestamp_in(bytes, 40),
    }
}

fn short_in(bytes: &[u8], at: usize) -> Short
    requires { at + 4 ≤ length bytes.now }
    ensures { result.0 ≡ big_number 4 (drop at bytes.now) }
{
    Short(BigEndian::read_u32(&bytes[at..]))
}

fn timestamp_in(bytes: &[u8], at: usize) -> Ntp64
    requires { at + 8 ≤ length bytes.now }
    ensures { result.0 ≡ big_number 8 (drop at bytes.now) }
{
    Ntp64(BigEndian::read_u64(&bytes[at..]))
}

#[cfg(test)]
mod tests {
    use super::*;

    #[test]
    fn length_is_judged_before_version_and_version_before_mode(rt: HostRuntime) {
        let cases = [
            ("nothing", 0x23, 0, PacketFault::Short),
            ("one octet", 0x23, 1, PacketFault::Short),
            ("47 octets", 0x23, 47, PacketFault::Short),
            (
                "47 octets of version 0 and mode 0",
                0x00,
                47,
                PacketFault::Short,
            ),
            ("version 0", 0x03, 48, PacketFault::BadVersion),
            ("version 5", 0x2b, 48, PacketFault::BadVersion),
            ("version 6", 0x33, 48, PacketFault::BadVersion),
            ("version 7", 0x3b, 48, PacketFault::BadVersion),
            (
                "leap 3, version 5 and mode 6",
                0xee,
                48,
                PacketFault::BadVersion,
            ),
            ("mode 0", 0x20, 48, PacketFault::BadMode),
            ("mode 6", 0x26, 48, PacketFault::BadMode),
            ("mode 7 of version 1", 0x0f, 48, PacketFault::BadMode),
        ];
        for (what, first, len, fault) in cases {
            let mut octets = [0; HEADER_LEN];
            octets[0] = first;
            assert!(rt; len <= HEADER_LEN);
            assert_eq!(rt; read(&octets[..len]), Err(fault), "{what}");
        }
    }

    #[test]
    fn each_version_and_mode_of_a_packet_is_read(rt: HostRuntime) {
        // Leap, version and mode, in 2, 3 and 3 bits of the first octet.
        let cases = [
            (0x09, 0, 1, 1),
            (0x52, 1, 2, 2),
            (0x9b, 2, 3, 3),
            (0xe4, 3, 4, 4),
            (0x25, 0, 4, 5),
        ];
        for (first, leap, version, mode) in cases {
            let mut octets = [0; HEADER_LEN];
            octets[0] = first;
            let read = read(&octets).map(|h| (h.leap, h.version, h.mode));
            assert_eq!(rt; read, Ok((leap, version, mode)), "{first:#x}");
        }
    }

    #[test]
    fn octets_after_the_header_are_not_judged(rt: HostRuntime) {
        let mut octets = [0xff; 68];
        octets[0] = 0x23;
        assert_eq!(rt; read(&octets), read(&octets[..HEADER_LEN]));
        assert_eq!(rt; read(&octets).map(|h| h.transmit), Ok(Ntp64(u64::MAX)));
    }
}
