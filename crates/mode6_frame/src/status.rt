ghost use Rattle.std.specs.Prelude.{◌≡◌, ◌+◌, ◌*◌, ◌/◌, ◌^◌, ◌≤◌, ◌<◌, ℕ};
ghost use Rattle.std.specs.Int.{from_bool};
ghost use Rattle.mode6_frame.specs.declared.status.SystemStatus.{SystemStatus};
ghost use Rattle.mode6_frame.specs.declared.status.PeerStatus.{PeerStatus};
ghost use Rattle.mode6_frame.specs.Status.{system_status_word, peer_bits, peer_status_word, error_status_word, FitsSystemStatus, FitsPeerStatus};

/// What the system status word says (RFC 9327, section 3.1).
#[derive(Clone, Copy, Debug, PartialEq, Eq)]
pub struct SystemStatus {
    /// The leap indicator, of 2 bits.
    pub leap: u8,
    /// The clock source, of 6 bits.
    pub source: u8,
    /// How many events came, at most 15.
    pub events: u8,
    /// The code of the last event, of 4 bits.
    pub code: u8,
}

/// What the peer status word says (RFC 9327, section 3.2).
#[derive(Clone, Copy, Debug, PartialEq, Eq)]
pub struct PeerStatus {
    /// Whether the operator configured it.
    pub configured: bool,
    /// Whether it has to authenticate itself.
    pub keyed: bool,
    /// Whether it did, last.
    pub authentic: bool,
    /// Whether a reply of it came to one of the last eight requests.
    pub reachable: bool,
    /// Whether it broadcasts.
    pub broadcast: bool,
    /// The selection code, of 3 bits.
    pub selection: u8,
    /// How many events came, at most 15.
    pub events: u8,
    /// The code of the last event, of 4 bits.
    pub code: u8,
}

/// The system status word.
pub fn system_status_word(status: &SystemStatus) -> u16
    requires leap { status.now.leap ≤ 3 }
    requires source { status.now.source ≤ 63 }
    requires events { status.now.events ≤ 15 }
    requires code { status.now.code ≤ 15 }
    ensures { result ≡ system_status_word status.now }
{
    u16::from(status.leap) * (1 << 14)
        + u16::from(status.source) * (1 << 8)
        + u16::from(status.events) * (1 << 4)
        + u16::from(status.code)
}

/// What a system status word says.
pub fn read_system_status(word: u16) -> SystemStatus
    ensures spelled { system_status_word result ≡ word }
    ensures fits { FitsSystemStatus result }
    ensures only { (status : SystemStatus) → FitsSystemStatus status
        → system_status_word status ≡ word → result ≡ status }
{
    SystemStatus {
        leap: (word / (1 << 14)) as u8,
        source: (word / (1 << 8) % (1 << 6)) as u8,
        events: (word / (1 << 4) % (1 << 4)) as u8,
        code: (word % (1 << 4)) as u8,
    }
}

/// The peer status word.
pub fn peer_status_word(status: &PeerStatus) -> u16
    requires selection { status.now.selection ≤ 7 }
    requires events { status.now.events ≤ 15 }
    requires code { status.now.code ≤ 15 }
    ensures { result ≡ peer_status_word status.now }
{
    peer_bits(status) * (1 << 11)
        + u16::from(status.selection) * (1 << 8)
        + u16::from(status.events) * (1 << 4)
        + u16::from(status.code)
}

fn peer_bits(status: &PeerStatus) -> u16
    ensures value { result ≡ peer_bits status.now }
    ensures fits { result < 2 ^ 5 }
{
    u16::from(status.configured) * 16
        + u16::from(status.keyed) * 8
        + u16::from(status.authentic) * 4
        + u16::from(status.reachable) * 2
        + u16::from(status.broadcast)
}

/// What a peer status word says.
pub fn read_peer_status(word: u16) -> PeerStatus
    ensures spelled { peer_status_word result ≡ word }
    ensures fits { FitsPeerStatus result }
    ensures only { (status : PeerStatus) → FitsPeerStatus status
        → peer_status_word status ≡ word → result ≡ status }
{
    PeerStatus {
        configured: word / (1 << 15) == 1,
        keyed: word / (1 << 14) % 2 == 1,
        authentic: word / (1 << 13) % 2 == 1,
        reachable: word / (1 << 12) % 2 == 1,
        broadcast: word / (1 << 11) % 2 == 1,
        selection: (word / (1 << 8) % (1 << 3)) as u8,
        events: (word / (1 << 4) % (1 << 4)) as u8,
        code: (word % (1 << 4)) as u8,
    }
}

/// The error status word (RFC 9327, section 3.4).
pub fn error_status_word(code: u8) -> u16
    ensures { result ≡ error_status_word code }
{
    u16::from(code) << 8
}

/// The code of an error status word, whose low octet is not judged.
pub fn error_code(word: u16) -> u8
    ensures value { result ≡ word / 2 ^ 8 }
    ensures only { (code : ℕ) → error_status_word code ≡ word → result ≡ code }
{
    (word / (1 << 8)) as u8
}
