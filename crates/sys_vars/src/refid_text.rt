ghost use Rattle.std.specs.Prelude.{◌≡◌, ◌≤◌, ◌+◌, ◌++◌, ◌==◌, IfOk, OnOk, IsTrue, codes, decimal, length, position};
ghost use Rattle.std.specs.List.{list_all};
ghost use Rattle.std.specs.Char.{is_ascii_alphanumeric};
ghost use Rattle.std.specs.Net.Text.{ipv4_text};
ghost use Rattle.hex.specs.Hex.{encode_lower};
ghost use Rattle.sys_vars.specs.Variables.{IsPlainValue};
ghost use Rattle.sys_vars.specs.Texts.{before_zero, is_code, refid_text};

use itoa::Buffer;
use mode6_frame::Text;
use ntp_packet::MAX_SYNCHRONIZED_STRATUM;
use std::alloc::{AllocError, Global};

/// The text of a reference identifier (RFC 5905, section 7.3).
///
/// From stratum 2 to 15 it is the address of the source, in dotted decimal. Else it is a code of
/// letters and digits, as `GPS`; what is no code is shown in hexadecimal digits, as `0x00000000`.
#[tactic(auto, unfolding(crate::specs::Texts::refid_text))]
pub fn refid_text(alloc: Global, stratum: u8, refid: &[u8; 4]) -> Result<Text, AllocError>
    ensures value { IfOk result (λ text. text ≡ refid_text stratum refid.now) }
    ensures short { IfOk result (λ text. length text ≤ 20) }
    ensures plain { IfOk result IsPlainValue }
{
    if (2..=MAX_SYNCHRONIZED_STRATUM).contains(&stratum) {
        dotted(alloc, refid)
    } else if is_code(refid) {
        code(alloc, refid)
    } else {
        hexadecimal(alloc, refid)
    }
}

/// An IPv4 address in dotted decimal.
fn dotted(alloc: Global, octets: &[u8; 4]) -> Result<Text, AllocError>
    ensures value { IfOk result (λ text. text ≡ ipv4_text octets.now) }
    ensures short { IfOk result (λ text. length text ≤ 15) }
    ensures plain { IfOk result IsPlainValue }
{
    let mut text = Vec::new(alloc);
    put_decimal(&mut text, octets[0])?;
    put_after_point(&mut text, octets[1])?;
    put_after_point(&mut text, octets[2])?;
    put_after_point(&mut text, octets[3])?;
    Ok(Text::of(text))
}

/// Appends an octet in decimal digits.
fn put_decimal(text: &mut Vec<u8>, octet: u8) -> Result<(), AllocError>
    ensures value { OnOk result (text.new.items ≡ text.old.items ++ decimal octet) }
    ensures longer { OnOk result (length text.new.items ≤ length text.old.items + 3) }
{
    let mut digits = Buffer::new();
    text.extend_from_slice(digits.format(octet).as_bytes())
}

/// Appends a point, and an octet in decimal digits.
fn put_after_point(text: &mut Vec<u8>, octet: u8) -> Result<(), AllocError>
    ensures value { OnOk result (text.new.items ≡ text.old.items ++ codes "." ++ decimal octet) }
    ensures longer { OnOk result (length text.new.items ≤ length text.old.items + 4) }
{
    text.push(b'.')?;
    put_decimal(text, octet)
}

/// Whether letters or digits stand before the first zero octet, and nothing else does.
fn is_code(octets: &[u8; 4]) -> bool
    ensures { result ≡ is_code octets.now }
{
    let code = before_zero(octets);
    !code.is_empty() && is_alphanumeric(code)
}

/// Whether all are letters or digits.
fn is_alphanumeric(octets: &[u8]) -> bool
    ensures { result ≡ list_all is_ascii_alphanumeric octets.now }
{
    octets.iter().all(|octet| octet.is_ascii_alphanumeric())
}

/// What stands before the first zero octet.
fn before_zero(octets: &[u8]) -> &[u8]
    ensures value { result.now ≡ before_zero octets.now }
    ensures short { length result.now ≤ length octets.now }
{
    match first_zero(octets) {
        Some(len) => &octets[..len],
        None => octets,
    }
}

/// The place of the first zero octet.
fn first_zero(octets: &[u8]) -> Option<usize>
    ensures { result ≡ position (λ octet. octet == 0) octets.now }
{
    octets.iter().position(|&octet| octet == 0)
}

/// A code, as it stands.
fn code(alloc: Global, octets: &[u8; 4]) -> Result<Text, AllocError>
    requires { IsTrue (is_code octets.now) }
    ensures value { IfOk result (λ text. text ≡ before_zero octets.now) }
    ensures short { IfOk result (λ text. length text ≤ 4) }
    ensures plain { IfOk result IsPlainValue }
{
    Ok(Text::of(Vec::from_slice(alloc, before_zero(octets))?))
}

/// All four octets in hexadecimal digits.
fn hexadecimal(alloc: Global, octets: &[u8; 4]) -> Result<Text, AllocError>
    ensures value { IfOk result (λ text. text ≡ codes "0x" ++ encode_lower octets.now) }
    ensures short { IfOk result (λ text. length text ≤ 10) }
    ensures plain { IfOk result IsPlainValue }
{
    let mut text = Vec::from_slice(alloc, b"0x")?;
    text.extend_from_slice(hex::encode(alloc, octets.as_slice())?.as_bytes())?;
    Ok(Text::of(text))
}
