ghost use Rattle.std.specs.Prelude.{◌≡◌, ◌+◌, ◌<◌, ◌≤◌, ◌^◌, length, List, ℕ, ◌++◌};
ghost use Rattle.byteorder.specs.Endian.{big_bytes};
ghost use Rattle.mode6_frame.specs.Frames.{IsFrame, IsFrameVersion, FitsFrame, parts_of, error_parts, spelled_frame, head_of, padding_of, second_octet_of};
ghost use Rattle.mode6_frame.specs.Places.{frame_at};

use crate::message::{Frame, HEAD_LEN, Head, MAX_BODY};
use crate::status::error_status_word;
use edge_traits::Octets;
use ntp_packet::{MODE_CONTROL, first_octet};

/// The octets of the control message, padded with zeros to a multiple of four (RFC 9327, section 2).
///
/// `rest` is not written.
pub fn write(frame: &Frame<'_>) -> Octets
    requires leap { frame.now.leap ≤ 3 }
    requires version { frame.now.version ≤ 7 }
    requires opcode { frame.now.opcode ≤ 31 }
    requires body { length frame.now.body.now ≤ MAX_BODY }
    ensures spelled { result ≡ spelled_frame (parts_of frame.now) }
    ensures places { (rest : List ℕ) → frame_at (result ++ rest) ≡ parts_of frame.now }
    ensures read_back { IsFrameVersion frame.now.version
        → (rest : List ℕ) → IsFrame (result ++ rest) (parts_of frame.now) }
    ensures short { length result ≤ HEAD_LEN + MAX_BODY }
{
    let mut octets = head_octets(frame);
    octets.put(frame.body);
    octets.put(padding(frame.body.len()));
    octets
}

/// The error response to a request, with this code (RFC 9327, section 3.4).
pub fn error_gram(head: &Head, code: u8) -> Octets
    ensures spelled { result ≡ spelled_frame (error_parts head.now code) }
    ensures places { (rest : List ℕ) → frame_at (result ++ rest) ≡ error_parts head.now code }
    ensures read_back { IsFrameVersion head.now.version
        → (rest : List ℕ) → IsFrame (result ++ rest) (error_parts head.now code) }
    ensures short { length result ≤ HEAD_LEN + MAX_BODY }
{
    write(&Frame {
        leap: 0,
        version: head.version,
        response: true,
        error: true,
        more: false,
        opcode: head.opcode,
        sequence: head.sequence,
        status: error_status_word(code),
        assoc: head.assoc,
        offset: 0,
        body: &[],
        rest: &[],
    })
}

fn head_octets(frame: &Frame<'_>) -> Octets
    requires leap { frame.now.leap ≤ 3 }
    requires version { frame.now.version ≤ 7 }
    requires opcode { frame.now.opcode ≤ 31 }
    requires body { length frame.now.body.now ≤ MAX_BODY }
    ensures spelled { result ≡ head_of (parts_of frame.now) }
    ensures length { length result ≡ HEAD_LEN }
    ensures fits { FitsFrame (parts_of frame.now) }
{
    let mut octets = Octets::new();
    octets.push(first_octet(frame.leap, frame.version, MODE_CONTROL));
    octets.push(second_octet(frame));
    put_word(&mut octets, frame.sequence);
    put_word(&mut octets, frame.status);
    put_word(&mut octets, frame.assoc);
    put_word(&mut octets, frame.offset);
    put_word(&mut octets, frame.body.len() as u16);
    octets
}

fn second_octet(frame: &Frame<'_>) -> u8
    requires { frame.now.opcode ≤ 31 }
    ensures { result ≡ second_octet_of (parts_of frame.now) }
{
    (u8::from(frame.response) << 7)
        | (u8::from(frame.error) << 6)
        | (u8::from(frame.more) << 5)
        | frame.opcode
}

fn put_word(octets: &mut Octets, word: u16)
    requires { length octets.old + 2 ≤ 2048 }
    ensures written { octets.new ≡ octets.old ++ big_bytes 2 word }
    ensures length { length octets.new ≡ length octets.old + 2 }
    ensures fits { word < 2 ^ 16 }
{
    octets.put(&word.to_be_bytes());
}

/// The fewest zeros that fill so many octets up to a multiple of four.
fn padding(len: usize) -> &'static [u8]
    requires { len ≤ MAX_BODY }
    ensures padding { result.now ≡ padding_of len }
    ensures short { len + length result.now ≤ MAX_BODY }
{
    match len % 4 {
        1 => &[0; 3],
        2 => &[0; 2],
        3 => &[0; 1],
        _ => &[],
    }
}
