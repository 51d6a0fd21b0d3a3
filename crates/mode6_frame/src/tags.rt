ghost use Rattle.std.specs.Prelude.{◌≡◌, ◌≤◌, length, bytes_eq, IsTrue};
ghost use Rattle.std.specs.List.{list_all};
ghost use Rattle.mode6_frame.specs.Groups.{is_tag_digit, is_tagged, tag_of, untagged};

/// How many octets a tag has at the beginning of a body: those of the item, a comma and a space.
pub const TAG_LEN: usize = 25;

/// The tag of a body, or no octets.
pub(crate) fn tag_in(body: &[u8]) -> &[u8]
    ensures { result.now ≡ tag_of body.now }
{
    if has_tag(body) { &body[..TAG_LEN] } else { &[] }
}

/// What follows the tag of a body.
pub(crate) fn untagged_in(body: &[u8]) -> &[u8]
    ensures { result.now ≡ untagged body.now }
{
    if has_tag(body) {
        &body[TAG_LEN..]
    } else {
        body
    }
}

/// Whether a body begins with a tag.
fn has_tag(body: &[u8]) -> bool
    ensures tagged { result ≡ is_tagged body.now }
    ensures long { IsTrue result → TAG_LEN ≤ length body.now }
{
    if body.len() < TAG_LEN {
        return false;
    }
    if !is_same(&body[..7], b"resp=0x") {
        return false;
    }
    if !are_tag_digits(&body[7..23]) {
        return false;
    }
    is_same(&body[23..TAG_LEN], b", ")
}

/// Whether octets are the same.
pub(crate) fn is_same(octets: &[u8], others: &[u8]) -> bool
    ensures { result ≡ bytes_eq octets.now others.now }
{
    octets == others
}

fn are_tag_digits(octets: &[u8]) -> bool
    ensures { result ≡ list_all is_tag_digit octets.now }
{
    for i in 0..octets.len() {
        if !is_digit_of_tag(octets[i]) {
            return false;
        }
    }
    true
}

fn is_digit_of_tag(octet: u8) -> bool
    ensures { result ≡ is_tag_digit octet }
{
    matches!(octet, b'0'..=b'9' | b'a'..=b'f')
}
