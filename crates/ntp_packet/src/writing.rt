ghost use Rattle.std.specs.Prelude.{◌≡◌, ◌+◌, ◌<◌, ◌≤◌, ◌^◌, length, take, List, ℕ, ◌++◌};
ghost use Rattle.std.specs.List.{All};
ghost use Rattle.byteorder.specs.Endian.{big_bytes};
ghost use Rattle.ntp_packet.specs.Packet.{IsPacket, IsPacketVersion, IsPacketMode, spelled_header, first_word_of, Fits};

use crate::leap_version_mode::first_octet;
use crate::packet::{HEADER_LEN, Header};
use byteorder::{BigEndian, ByteOrder};
use fixed_time::{Ntp64, Short};

/// The 48 octets of the header (RFC 5905, section 7.3).
pub fn write(header: &Header) -> [u8; HEADER_LEN]
    requires leap { header.now.leap ≤ 3 }
    requires version { header.now.version ≤ 7 }
    requires mode { header.now.mode ≤ 7 }
    ensures spelled { result ≡ spelled_header header.now }
    ensures read_back { IsPacketVersion header.now.version → IsPacketMode header.now.mode
        → (rest : List ℕ) → IsPacket (result ++ rest) header.now }
{
    octets_of(*header)
}

fn octets_of(header: Header) -> [u8; HEADER_LEN]
    requires leap { header.leap ≤ 3 }
    requires version { header.version ≤ 7 }
    requires mode { header.mode ≤ 7 }
    ensures spelled { result ≡ spelled_header header }
    ensures fits { Fits header }
{
    let mut octets = [0; HEADER_LEN];
    put_four(&mut octets, 0, &first_word(&header));
    put_short(&mut octets, 4, header.root_delay);
    put_short(&mut octets, 8, header.root_disp);
    put_four(&mut octets, 12, &header.refid);
    put_timestamp(&mut octets, 16, header.reference);
    put_timestamp(&mut octets, 24, header.origin);
    put_timestamp(&mut octets, 32, header.receive);
    put_timestamp(&mut octets, 40, header.transmit);
    octets
}

fn first_word(header: &Header) -> [u8; 4]
    requires leap { header.now.leap ≤ 3 }
    requires version { header.now.version ≤ 7 }
    requires mode { header.now.mode ≤ 7 }
    ensures { result ≡ first_word_of header.now }
{
    [
        first_octet(header.leap, header.version, header.mode),
        header.stratum,
        header.poll.cast_unsigned(),
        header.precision.cast_unsigned(),
    ]
}

fn put_four(octets: &mut [u8], at: usize, four: &[u8; 4])
    requires { at + 4 ≤ length octets.old }
    ensures written { take (at + 4) octets.new ≡ take at octets.old ++ four.now }
    ensures octets { All (λ octet. octet < 2 ^ 8) four.now }
{
    octets[at..at + 4].copy_from_slice(four);
}

fn put_short(octets: &mut [u8], at: usize, time: Short)
    requires { at + 4 ≤ length octets.old }
    ensures { take (at + 4) octets.new ≡ take at octets.old ++ big_bytes 4 time.0 }
{
    BigEndian::write_u32(&mut octets[at..], time.0);
}

fn put_timestamp(octets: &mut [u8], at: usize, time: Ntp64)
    requires { at + 8 ≤ length octets.old }
    ensures { take (at + 8) octets.new ≡ take at octets.old ++ big_bytes 8 time.0 }
{
    BigEndian::write_u64(&mut octets[at..], time.0);
}

#[cfg(test)]
mod tests {
    use super::*;
    use crate::reading::read;

    #[test]
    fn a_request_goes_both_ways(rt: HostRuntime) {
        let octets = [
            0x23, 0x00, 0x06, 0xe9, 0x00, 0x00, 0x00, 0x00, 0x00, 0x00, 0x00, 0x00, 0x00, 0x00,
            0x00, 0x00, 0x00, 0x00, 0x00, 0x00, 0x00, 0x00, 0x00, 0x00, 0x00, 0x00, 0x00, 0x00,
            0x00, 0x00, 0x00, 0x00, 0x00, 0x00, 0x00, 0x00, 0x00, 0x00, 0x00, 0x00, 0x83, 0xaa,
            0x7e, 0x80, 0x00, 0x00, 0x00, 0x00,
        ];
        let header = Header {
            leap: 0,
            version: 4,
            mode: 3,
            stratum: 0,
            poll: 6,
            precision: -23,
            root_delay: Short(0),
            root_disp: Short(0),
            refid: [0; 4],
            reference: Ntp64(0),
            origin: Ntp64(0),
            receive: Ntp64(0),
            transmit: Ntp64(0x83aa_7e80_0000_0000),
        };
        assert_eq!(rt; write(&header), octets);
        assert_eq!(rt; read(&octets), Ok(header));
    }

    #[test]
    fn a_reply_goes_both_ways(rt: HostRuntime) {
        let octets = [
            0xe4, 0x00, 0x06, 0xec, 0x00, 0x00, 0x00, 0x00, 0x00, 0x10, 0x00, 0x00, 0x49, 0x4e,
            0x49, 0x54, 0x00, 0x00, 0x00, 0x00, 0x00, 0x00, 0x00, 0x00, 0x83, 0xaa, 0x7e, 0x80,
            0x00, 0x00, 0x00, 0x00, 0x83, 0xaa, 0x7e, 0x81, 0x00, 0x00, 0x00, 0x00, 0x83, 0xaa,
            0x7e, 0x81, 0x00, 0x00, 0x00, 0x00,
        ];
        let header = Header {
            leap: 3,
            version: 4,
            mode: 4,
            stratum: 0,
            poll: 6,
            precision: -20,
            root_delay: Short(0),
            root_disp: Short(16 << 16),
            refid: *b"INIT",
            reference: Ntp64(0),
            origin: Ntp64(0x83aa_7e80_0000_0000),
            receive: Ntp64(0x83aa_7e81_0000_0000),
            transmit: Ntp64(0x83aa_7e81_0000_0000),
        };
        assert_eq!(rt; write(&header), octets);
        assert_eq!(rt; read(&octets), Ok(header));
    }
}
