ghost use Rattle.std.specs.Prelude.{◌≡◌, ◌↔◌, IsTrue};

/// Whether two runs of octets are equal.
///
/// Every octet is looked at whatever the first ones are, so that the time of a call tells nobody how
/// many octets of a guessed digest are right.
pub fn is_same(digest: &[u8], given: &[u8]) -> bool
    ensures { IsTrue result ↔ (given.now ≡ digest.now) }
{
    if digest.len() != given.len() {
        return false;
    }
    let mut differences = 0u8;
    for i in 0..digest.len() {
        differences |= digest[i] ^ given[i];
    }
    differences == 0
}
