ghost use Rattle.std.specs.Prelude.{◌≡◌, ◌≤◌, length, drop, take};

/// The octets before a place.
pub fn before(bytes: &[u8], place: usize) -> &[u8]
    requires { place ≤ length bytes.now }
    ensures { result.now ≡ take place bytes.now }
{
    &bytes[..place]
}

/// The octets from a place on.
pub fn behind(bytes: &[u8], place: usize) -> &[u8]
    requires { place ≤ length bytes.now }
    ensures { result.now ≡ drop place bytes.now }
{
    &bytes[place..]
}
