ghost use Rattle.std.specs.Prelude.{◌≡◌};
ghost use Rattle.edge_traits.specs.Readings.{origin_by, salt_by, timestamp_after};

use crate::file_source::FileSource;
use crate::host::{Host, HostFault};
use crate::salt::Salt;
use crate::udp_port::UdpPort;
use crate::uptime::{Uptime, units_of};
use fixed_time::Ntp64;
use net_addr::{Addr, Ip};
use std::net::Net;
use std::random::RandomSource;
use std::rt::Files;
use std::time::{Duration, Instant};
use std::{fs, time};

/// The seconds from the epoch of NTP, 1900, to that of the system, 1970 (RFC 5905, section 6).
const SECONDS_TO_1970: u128 = 2_208_988_800;

/// The machine that the program runs on. Its origin is what the wall clock showed as it was made,
/// and its clocks begin at that moment, or where the system's clock could not be read then, each at
/// its first reading. No clause ties the origin to the clocks. It tells neither its binds nor its
/// files, and a name stands for whatever the system opens under it. A port at `0.0.0.0:0`, or at
/// `[::]` with any port number, is for both families (`UdpPort::bind_both`).
#[derive(Drop)]
pub struct RealHost<S> {
    system: S,
    begin: Option<Instant>,
    origin: Ntp64,
    salt: Salt,
    faults: u64,
}

impl<S: Files + Net + time::Clock + RandomSource + Copy> RealHost<S> {
    /// The host of this system, as `of` makes it of what can be read now.
    pub fn new(system: S) -> RealHost<S>
        ensures { ⟦<RealHost<S> as Host>⟧.faults result ≡ 0 }
    {
        // The two clocks are read one right after the other.
        let begin = Instant::now(&system).ok();
        let since_1970 = system.since_1970().ok();
        RealHost::of(system, begin, since_1970, random_octets(&system))
    }

    /// The host of this system whose clocks begin at `begin`, where the wall clock showed
    /// `since_1970` and the system gave the random octets of `salt`. What could not be read is None:
    /// then the origin is 0, and the salt has zero octets.
    pub fn of(
        system: S,
        begin: Option<Instant>,
        since_1970: Option<Duration>,
        salt: Option<[u8; 16]>,
    ) -> RealHost<S>
        ensures origin { (⟦<RealHost<S> as Host>⟧.origin result).0 ≡ origin_by since_1970 }
        ensures salt { (⟦<RealHost<S> as Host>⟧.salt result).0 ≡ salt_by salt }
        ensures faults { ⟦<RealHost<S> as Host>⟧.faults result ≡ 0 }
    {
        RealHost {
            system,
            begin,
            origin: origin_by(since_1970),
            salt: Salt(salt.unwrap_or([0; 16])),
            faults: 0,
        }
    }
}

impl<S: Files + Net + time::Clock + RandomSource + Copy> Host for RealHost<S> {
    ghost use Rattle.std.specs.Prelude.{None};

    type P = UdpPort;

    type C = Uptime<S>;

    type S = FileSource<S::File>;

    ghost binds = { λ _. None };

    ghost files = { λ _ _. None };

    ghost faults = { λ h. h.faults };

    ghost origin = { λ h. h.origin };

    ghost salt = { λ h. h.salt };

    fn bind(&mut self, at: &Addr) -> Result<UdpPort, HostFault> {
        let bound = if is_for_both(at) {
            UdpPort::bind_both(&self.system, at)
        } else {
            UdpPort::bind(&self.system, at)
        };
        match bound {
            Ok(port) => Ok(port),
            Err(_) => {
                self.faults = self.faults.saturating_add(1);
                Err(HostFault::Failed)
            }
        }
    }

    fn source(&mut self, name: &str) -> Result<FileSource<S::File>, HostFault> {
        match fs::open(&self.system, name) {
            Ok(file) => Ok(FileSource::of(file)),
            Err(_) => {
                self.faults = self.faults.saturating_add(1);
                Err(HostFault::Failed)
            }
        }
    }

    fn clock(&mut self) -> Uptime<S> {
        Uptime::since(self.system, self.begin)
    }

    fn origin(&mut self) -> Ntp64 {
        self.origin
    }

    fn salt(&mut self) -> Salt {
        self.salt
    }
}

/// Whether a port of this address is for both families: where neither its address nor its port is
/// said, or its address is any of IPv6.
fn is_for_both(at: &Addr) -> bool {
    match at.ip {
        Ip::V4(octets) => at.port == 0 && octets == [0; 4],
        Ip::V6(octets) => octets == [0; 16],
    }
}

/// The NTP timestamp of the moment so long after the start of 1970, rounded down.
fn timestamp(since_1970: Duration) -> Ntp64
    ensures { result.0 ≡ timestamp_after since_1970 }
{
    let units = (SECONDS_TO_1970 << 32) + units_of(since_1970);
    Ntp64((units % (1 << 64)) as u64)
}

/// The origin by what the wall clock showed.
fn origin_by(since_1970: Option<Duration>) -> Ntp64
    ensures { result.0 ≡ origin_by since_1970 }
{
    match since_1970 {
        Some(since_1970) => timestamp(since_1970),
        None => Ntp64(0),
    }
}

/// Random octets of the system, where it gives all of them.
pub fn random_octets(source: &impl RandomSource) -> Option<[u8; 16]> {
    let mut octets = [0; 16];
    match source.fill_bytes(&mut octets) {
        Ok(()) => Some(octets),
        Err(_) => None,
    }
}
