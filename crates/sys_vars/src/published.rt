ghost use Rattle.std.specs.Prelude.{◌≡◌, IfOk};
ghost use Rattle.sys_vars.specs.Opening.{IsOpening, opening_system};

use crate::peer_views::PeerViews;
use crate::system::{PRECISION, System};
use access_rules::{Rate, Rules};
use discipline::{SoftClock, State};
use fixed_time::{MAX_DISPERSION, Ntp64, Span};
use mode6_frame::{NO_DRIFT_FILE, NO_SOURCE};
use ntp_packet::{LEAP_UNSYNCHRONIZED, UNSYNCHRONIZED_STRATUM};
use std::alloc::{AllocError, Global};

/// What a server publishes: the values of the system, of its peers and of its clock, of one moment,
/// and who may ask.
#[derive(Drop)]
pub struct Record {
    /// The number of the publication.
    pub epoch: u64,
    /// The values of the system.
    pub system: System,
    /// The values of the servers that it asks.
    pub peers: PeerViews,
    /// Who may ask for what.
    pub rules: Rules,
    /// How often a client may ask that the rules limit.
    pub rate: Rate,
    /// The clock that gives the time.
    pub clock: SoftClock,
}

impl Record {
    /// What a server publishes before it knows the time: it is not synchronized, and its clock begins
    /// at the origin. It has no peers, and its rules refuse nobody.
    pub fn opening(alloc: Global, origin: Ntp64) -> Result<Record, AllocError>
        ensures { IfOk result (IsOpening origin) }
    {
        let peers = PeerViews::new(alloc)?;
        let rules = Rules::plain(alloc)?;
        Ok(Record {
            epoch: 0,
            system: opening_system(),
            peers,
            rules,
            rate: Rate::plain(),
            clock: SoftClock {
                base: 0,
                ntp: origin,
                freq: 0,
                slew: 0,
            },
        })
    }

    /// Makes this record equal to another. Takes no memory.
    pub fn assign(&mut self, from: &Record)
        ensures { self.new ≡ from.now }
    {
        self.epoch = from.epoch;
        self.system = from.system;
        self.peers.assign(&from.peers);
        self.rules.assign(&from.rules);
        self.rate = from.rate;
        self.clock = from.clock;
    }

    /// The same record once more.
    pub fn copy(&self) -> Result<Record, AllocError>
        ensures { IfOk result (λ rec. rec ≡ self.now) }
    {
        let peers = self.peers.copy()?;
        let rules = self.rules.copy()?;
        Ok(Record {
            epoch: self.epoch,
            system: self.system,
            peers,
            rules,
            rate: self.rate,
            clock: self.clock,
        })
    }
}

/// The system of a server that knows no time yet.
fn opening_system() -> System
    ensures { result ≡ opening_system }
{
    System {
        leap: LEAP_UNSYNCHRONIZED,
        stratum: UNSYNCHRONIZED_STRATUM,
        precision: PRECISION,
        root_delay: 0,
        root_disp: MAX_DISPERSION,
        refid: *b"INIT",
        reference: Ntp64(0),
        at: 0,
        peer: 0,
        poll: 6,
        offset: Span(0),
        freq: 0,
        jitter: 0,
        state: State::Nset,
        source: NO_SOURCE,
        events: 1,
        code: NO_DRIFT_FILE,
    }
}
