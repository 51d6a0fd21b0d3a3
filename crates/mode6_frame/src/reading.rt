ghost use Rattle.std.specs.Prelude.{◌≡◌, ◌+◌, ◌<◌, ◌≤◌, length, drop, None, Some, IfOk, IsOkAnd, MatchResult};
ghost use Rattle.mode6_frame.specs.Frames.{FrameParts, IsFrame, parts_of, frame_fault_of, flag_of, opcode_of, word_at, count_of};
ghost use Rattle.mode6_frame.specs.Places.{frame_at};

use crate::message::{Frame, FrameFault, HEAD_LEN, MAX_BODY};
use byteorder::{BigEndian, ByteOrder};
use ntp_packet::{CURRENT_VERSION, MIN_VERSION, MODE_CONTROL, leap_in, mode_in, version_in};

/// The control message that the octets begin with (RFC 9327, section 2).
///
/// The version has to be 1 to 4. What follows the body is `rest`, and is not judged.
pub fn read(bytes: &[u8]) -> Result<Frame<'_>, FrameFault>
    ensures found { IfOk result (λ f. IsFrame bytes.now (parts_of f)) }
    ensures parts { IfOk result (λ f. parts_of f ≡ frame_at bytes.now) }
    ensures rest { IfOk result (λ f. f.rest.now ≡ drop (HEAD_LEN + length f.body.now) bytes.now) }
    ensures only { (f : FrameParts) → IsFrame bytes.now f
        → IsOkAnd result (λ read. parts_of read ≡ f) }

    // The refusals, in their order.
    ensures refused { MatchResult result
        (λ f. frame_fault_of bytes.now ≡ None) (λ fault. frame_fault_of bytes.now ≡ Some fault) }
{
    match first_fault(bytes) {
        Some(fault) => Err(fault),
        None => Ok(frame_in(bytes)),
    }
}

fn first_fault(bytes: &[u8]) -> Option<FrameFault>
    ensures { result ≡ frame_fault_of bytes.now }
{
    if bytes.len() < HEAD_LEN {
        Some(FrameFault::Short)
    } else if !(MIN_VERSION..=CURRENT_VERSION).contains(&version_in(bytes)) {
        Some(FrameFault::BadVersion)
    } else if mode_in(bytes) != MODE_CONTROL {
        Some(FrameFault::BadMode)
    } else if count_in(bytes) > MAX_BODY {
        Some(FrameFault::BadCount)
    } else if bytes.len() < HEAD_LEN + count_in(bytes) {
        Some(FrameFault::BadCount)
    } else {
        None
    }
}

fn frame_in(bytes: &[u8]) -> Frame<'_>
    requires { HEAD_LEN + count_of bytes.now ≤ length bytes.now }
    ensures parts { parts_of result ≡ frame_at bytes.now }
    ensures rest { result.rest.now ≡ drop (HEAD_LEN + length result.body.now) bytes.now }
{
    let (body, rest) = bytes[HEAD_LEN..].split_at(count_in(bytes));
    Frame {
        leap: leap_in(bytes),
        version: version_in(bytes),
        response: flag_in(bytes, 7),
        error: flag_in(bytes, 6),
        more: flag_in(bytes, 5),
        opcode: opcode_in(bytes),
        sequence: word_in(bytes, 2),
        status: word_in(bytes, 4),
        assoc: word_in(bytes, 6),
        offset: word_in(bytes, 8),
        body,
        rest,
    }
}

fn flag_in(bytes: &[u8], bit: u32) -> bool
    requires long { 2 ≤ length bytes.now }
    requires bit { bit < 8 }
    ensures { result ≡ flag_of bit bytes.now }
{
    (bytes[1] >> bit) & 1 == 1
}

fn opcode_in(bytes: &[u8]) -> u8
    requires { 2 ≤ length bytes.now }
    ensures { result ≡ opcode_of bytes.now }
{
    bytes[1] & 0b1_1111
}

fn count_in(bytes: &[u8]) -> usize
    requires { HEAD_LEN ≤ length bytes.now }
    ensures { result ≡ count_of bytes.now }
{
    usize::from(word_in(bytes, 10))
}

fn word_in(bytes: &[u8], at: usize) -> u16
    requires { at + 2 ≤ length bytes.now }
    ensures { result ≡ word_at at bytes.now }
{
    BigEndian::read_u16(&bytes[at..])
}
