ghost use Rattle.std.specs.Prelude.{◌≡◌, ◌≤◌, length, [], ◌∷◌};
ghost use Rattle.ntp_packet.specs.FirstOctet.{leap_of, version_of, mode_of, first_octet};

/// The leap indicator of a clock that is not synchronized (RFC 5905, section 7.3, figure 9).
pub const LEAP_UNSYNCHRONIZED: u8 = 3;

/// The least version that is read: our own rule.
pub const MIN_VERSION: u8 = 1;

/// The current version, the greatest that is read (RFC 5905, section 7.3).
pub const CURRENT_VERSION: u8 = 4;

/// The mode of a symmetric active association, the least of a packet (RFC 5905, section 7.3,
/// figure 10).
pub const MODE_SYMMETRIC_ACTIVE: u8 = 1;

/// The mode of a client's request (RFC 5905, section 7.3, figure 10).
pub const MODE_CLIENT: u8 = 3;

/// The mode of a server's reply (RFC 5905, section 7.3, figure 10).
pub const MODE_SERVER: u8 = 4;

/// The mode of a broadcast server, the greatest of a packet (RFC 5905, section 7.3, figure 10).
pub const MODE_BROADCAST: u8 = 5;

/// The mode of a control message (RFC 9327, section 2).
pub const MODE_CONTROL: u8 = 6;

/// The leap indicator, 0 to 3.
pub fn leap_in(bytes: &[u8]) -> u8
    requires { 1 ≤ length bytes.now }
    ensures value { result ≡ leap_of bytes.now }
    ensures fits { result ≤ 3 }
{
    bytes[0] >> 6
}

/// The version, 0 to 7.
pub fn version_in(bytes: &[u8]) -> u8
    requires { 1 ≤ length bytes.now }
    ensures value { result ≡ version_of bytes.now }
    ensures fits { result ≤ 7 }
{
    (bytes[0] >> 3) & 0b111
}

/// The mode, 0 to 7.
pub fn mode_in(bytes: &[u8]) -> u8
    requires { 1 ≤ length bytes.now }
    ensures value { result ≡ mode_of bytes.now }
    ensures fits { result ≤ 7 }
{
    bytes[0] & 0b111
}

/// The first octet of a packet or a control message, from which the three are read back.
pub fn first_octet(leap: u8, version: u8, mode: u8) -> u8
    requires leap { leap ≤ 3 }
    requires version { version ≤ 7 }
    requires mode { mode ≤ 7 }
    ensures spelled { result ≡ first_octet leap version mode }
    ensures leap { leap_of (result ∷ []) ≡ leap }
    ensures version { version_of (result ∷ []) ≡ version }
    ensures mode { mode_of (result ∷ []) ≡ mode }
{
    (leap << 6) | (version << 3) | mode
}
