ghost use Rattle.std.specs.Prelude.{◌≡◌, ◌+◌, ◌<◌, ◌≤◌, length, drop, IsTrue, ◌↔◌, IfOk, IfErr, Some};
ghost use Rattle.ntp_trailer.specs.Trailers.{length_said, IsFieldLength, mac_at, HasTrailer, IsRefused};
ghost use Rattle.ntp_trailer.specs.Endings.{BeginsField, LeadsTo, ending_of, field_fault_of};

use crate::parts::{KEY_ID_LEN, MAX_MAC_LEN, MIN_FIELD_LEN, Mac, Trailer, TrailerFault};
use crate::places::behind;
use byteorder::{BigEndian, ByteOrder};
use ntp_packet::HEADER_LEN;

/// The places of the extension fields and of the MAC behind the header of 48 octets
/// (RFC 5905, sections 7.3 and 7.5).
///
/// A field is next as long as more than 24 octets remain. Of a field only its length is judged.
pub fn split(bytes: &[u8]) -> Result<Trailer, TrailerFault>
    requires { HEADER_LEN ≤ length bytes.now }
    ensures found { IfOk result (λ trailer. HasTrailer bytes.now trailer) }
    ensures only { (trailer : Trailer) → HasTrailer bytes.now trailer → result ≡ Ok trailer }

    // The refusals.
    ensures refused { IfErr result (λ fault. IsRefused bytes.now fault) }
    ensures due { (fault : TrailerFault) → IsRefused bytes.now fault → result ≡ Err fault }
{
    if !behind(bytes, HEADER_LEN).len().is_multiple_of(4) {
        return Err(TrailerFault::Ragged);
    }
    let end = fields_end(bytes);
    ending(end, behind(bytes, end))
}

/// The first place that no field begins.
fn fields_end(bytes: &[u8]) -> usize
    requires { HEADER_LEN ≤ length bytes.now }
    ensures within { result ≤ length bytes.now }
    ensures fields { LeadsTo bytes.now result (drop result bytes.now) }
    ensures stops { ¬ (BeginsField (drop result bytes.now)) }
{
    let mut place = HEADER_LEN;
    while begins_field(behind(bytes, place)) {
        place += length_in(behind(bytes, place));
    }
    place
}

fn begins_field(remainder: &[u8]) -> bool
    ensures { IsTrue result ↔ BeginsField remainder.now }
{
    if remainder.len() <= MAX_MAC_LEN {
        return false;
    }
    let said = length_in(remainder);
    is_field_length(said) && said <= remainder.len()
}

fn length_in(field: &[u8]) -> usize
    requires { 4 ≤ length field.now }
    ensures { result ≡ length_said field.now }
{
    usize::from(BigEndian::read_u16(&field[2..]))
}

fn is_field_length(said: usize) -> bool
    ensures { IsTrue result ↔ IsFieldLength said }
{
    said >= MIN_FIELD_LEN && said.is_multiple_of(4)
}

#[tactic(auto, unfolding(crate::specs::Endings::ending_of))]
fn ending(place: usize, remainder: &[u8]) -> Result<Trailer, TrailerFault>
    ensures { result ≡ ending_of place remainder.now }
{
    if remainder.len() > MAX_MAC_LEN {
        return Err(field_fault(remainder));
    }
    match remainder.len() {
        0 if place == HEADER_LEN => Ok(Trailer {
            fields_end: place,
            mac: None,
        }),
        4 | 20 | 24 => Ok(Trailer {
            fields_end: place,
            mac: Some(mac_in(place, remainder)),
        }),
        _ => Err(TrailerFault::BadRemainder),
    }
}

fn field_fault(remainder: &[u8]) -> TrailerFault
    requires { 4 ≤ length remainder.now }
    ensures { result ≡ field_fault_of (length_said remainder.now) }
{
    if is_field_length(length_in(remainder)) {
        TrailerFault::FieldLong
    } else {
        TrailerFault::FieldShort
    }
}

fn mac_in(place: usize, remainder: &[u8]) -> Mac
    requires { KEY_ID_LEN ≤ length remainder.now }
    ensures { result ≡ mac_at place remainder.now }
{
    Mac {
        id: BigEndian::read_u32(remainder),
        start: place,
        length: remainder.len(),
    }
}

#[cfg(test)]
mod tests {
    use super::*;
    use edge_traits::Octets;

    const NOTHING: &[u8] = b"";

    const FIELD: &[u8] = b"\x00\x02\x00\x10field of 16.";

    const LONG_FIELD: &[u8] = b"\x01\x04\x00\x1cfield of twenty-eight...";

    const KEY_ID: &[u8] = b"\x00\x00\x01\x02";

    const DIGEST_16: &[u8] = b"sixteen octets..";

    const DIGEST_20: &[u8] = b"a digest of twenty..";

    // A header of 48 octets, and behind it these pieces end to end.
    fn packet_of(pieces: [&[u8]; 4]) -> Octets {
        let mut packet = Octets::new();
        packet.put(&[0x23; HEADER_LEN]);
        for piece in pieces {
            if packet.len() <= 200 && piece.len() <= 28 {
                packet.put(piece);
            }
        }
        packet
    }

    #[test]
    fn fields_and_mac_stand_at_their_places(rt: HostRuntime) {
        let cases = [
            ("no MAC", [NOTHING; 4], 48, None),
            (
                "a key id alone",
                [KEY_ID, NOTHING, NOTHING, NOTHING],
                48,
                Some((258, 48, 4)),
            ),
            (
                "a MAC of 20 octets",
                [KEY_ID, DIGEST_16, NOTHING, NOTHING],
                48,
                Some((258, 48, 20)),
            ),
            (
                "a MAC of 24 octets",
                [KEY_ID, DIGEST_20, NOTHING, NOTHING],
                48,
                Some((258, 48, 24)),
            ),
            (
                "24 octets that read as a field of 16 are a MAC",
                [FIELD, KEY_ID, KEY_ID, NOTHING],
                48,
                Some((0x2_0010, 48, 24)),
            ),
            (
                "a field of 28 before a key id alone",
                [LONG_FIELD, KEY_ID, NOTHING, NOTHING],
                76,
                Some((258, 76, 4)),
            ),
            (
                "a field before a MAC of 20 octets",
                [FIELD, KEY_ID, DIGEST_16, NOTHING],
                64,
                Some((258, 64, 20)),
            ),
            (
                "a field before a MAC of 24 octets",
                [FIELD, KEY_ID, DIGEST_20, NOTHING],
                64,
                Some((258, 64, 24)),
            ),
            (
                "two fields before a MAC of 20 octets",
                [FIELD, LONG_FIELD, KEY_ID, DIGEST_16],
                92,
                Some((258, 92, 20)),
            ),
        ];
        for (what, pieces, fields_end, mac) in cases {
            let mac = mac.map(|(id, start, length)| Mac { id, start, length });
            let packet = packet_of(pieces);
            assert!(rt; packet.len() >= HEADER_LEN);
            assert_eq!(rt;
                split(packet.as_slice()),
                Ok(Trailer { fields_end, mac }),
                "{what}"
            );
        }
    }

    #[test]
    fn the_first_fault_is_told(rt: HostRuntime) {
        let cases = [
            (
                "3 octets",
                [b"abc".as_slice(), NOTHING, NOTHING, NOTHING],
                TrailerFault::Ragged,
            ),
            (
                "a field of 15 octets before 22 more",
                [b"\0\0\0\x0f", DIGEST_16, b"17.....", b"24........"],
                TrailerFault::Ragged,
            ),
            (
                "a field of 15 octets",
                [b"\0\0\0\x0f", DIGEST_20, KEY_ID, NOTHING],
                TrailerFault::FieldShort,
            ),
            (
                "a field of 12 octets",
                [b"\0\0\0\x0c", DIGEST_20, KEY_ID, NOTHING],
                TrailerFault::FieldShort,
            ),
            (
                "a field of 18 octets",
                [b"\0\0\0\x12", DIGEST_20, KEY_ID, NOTHING],
                TrailerFault::FieldShort,
            ),
            (
                "a field of 32 octets where 28 remain",
                [b"\0\0\0\x20", DIGEST_20, KEY_ID, NOTHING],
                TrailerFault::FieldLong,
            ),
            (
                "a field of 4112 octets where 28 remain",
                [b"\0\0\x10\x10", DIGEST_20, KEY_ID, NOTHING],
                TrailerFault::FieldLong,
            ),
            (
                "a second field of 12 octets",
                [FIELD, b"\0\0\0\x0c", DIGEST_20, KEY_ID],
                TrailerFault::FieldShort,
            ),
            (
                "8 octets",
                [KEY_ID, KEY_ID, NOTHING, NOTHING],
                TrailerFault::BadRemainder,
            ),
            (
                "16 octets that read as a field",
                [FIELD, NOTHING, NOTHING, NOTHING],
                TrailerFault::BadRemainder,
            ),
            (
                "a field with nothing behind it",
                [LONG_FIELD, NOTHING, NOTHING, NOTHING],
                TrailerFault::BadRemainder,
            ),
            (
                "a field before 12 octets",
                [LONG_FIELD, KEY_ID, KEY_ID, KEY_ID],
                TrailerFault::BadRemainder,
            ),
        ];
        for (what, pieces, fault) in cases {
            let packet = packet_of(pieces);
            assert!(rt; packet.len() >= HEADER_LEN);
            assert_eq!(rt; split(packet.as_slice()), Err(fault), "{what}");
        }
    }
}
