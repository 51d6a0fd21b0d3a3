ghost use Rattle.std.specs.Prelude.{◌≡◌, ◌≤◌, ℕ, Option, List, [], IfOk, IsErrOf};
ghost use Rattle.net_addr.specs.declared.addr.Addr.{Addr};
ghost use Rattle.fixed_time.specs.declared.time.Ntp64.{Ntp64};
ghost use Rattle.edge_traits.specs.declared.salt.Salt.{Salt};
ghost use Rattle.edge_traits.specs.Told.{gained, Rose, TellsJust};
ghost use Rattle.edge_traits.specs.Binds.{bound};

use crate::clock::Clock;
use crate::port::Port;
use crate::salt::Salt;
use crate::source::Source;
use fixed_time::Ntp64;
use net_addr::Addr;

/// Why a host failed.
#[derive(Clone, Copy, Debug, PartialEq, Eq)]
pub enum HostFault {
    /// The host could not do it; its count of faults rose.
    Failed,
    /// Memory was wanting.
    NoMemory,
}

/// The machine that a program runs on, or what stands for one.
pub trait Host {
    /// Its ports.
    type P: Port + Drop;

    /// Its clocks.
    type C: Clock + Drop;

    /// Its sources.
    type S: Source + Drop;

    /// The addresses at which ports were bound so far, oldest first, where they are told.
    ghost binds: { Self → Option (List Addr) };

    /// The octets of the file of each name, where they are told.
    ghost files: { Self → List ℕ → Option (List ℕ) };

    /// How many calls failed.
    ghost faults: { Self → ℕ };

    /// The time at which its clocks begin.
    ghost origin: { Self → Ntp64 };

    /// Its secret.
    ghost salt: { Self → Salt };

    /// A new port of this address.
    fn bind(&mut self, at: &Addr) -> Result<Self::P, HostFault>
        ensures told { binds self.new ≡ gained (binds self.old) (bound result at.now) }
        ensures port_address { IfOk result (λ p. Self.P.address p ≡ at.now) }
        ensures port_trace { IfOk result (λ p. TellsJust (Self.P.trace p) []) }
        ensures port_faults { IfOk result (λ p. Self.P.faults p ≡ 0) }
        ensures port_quiets { IfOk result (λ p. Self.P.quiets p ≡ 0) }
        ensures port_most { IfOk result (λ p. 1024 ≤ Self.P.most p) }
        ensures failed { IsErrOf result HostFault.Failed
            → Rose 1 (faults self.old) (faults self.new) }

        // The count never falls, and the host stays the one that it is.
        ensures faults_kept { faults self.old ≤ faults self.new }
        ensures files_kept { files self.new ≡ files self.old }
        ensures origin_kept { origin self.new ≡ origin self.old }
        ensures salt_kept { salt self.new ≡ salt self.old };

    /// A new source of the octets of the file of this name.
    fn source(&mut self, name: &str) -> Result<Self::S, HostFault>
        ensures source_rest { IfOk result (λ s. Self.S.rest s ≡ files self.old name.now) }
        ensures source_faults { IfOk result (λ s. Self.S.faults s ≡ 0) }
        ensures failed { IsErrOf result HostFault.Failed
            → Rose 1 (faults self.old) (faults self.new) }

        // The count never falls, and the host stays the one that it is.
        ensures faults_kept { faults self.old ≤ faults self.new }
        ensures binds_kept { binds self.new ≡ binds self.old }
        ensures files_kept { files self.new ≡ files self.old }
        ensures origin_kept { origin self.new ≡ origin self.old }
        ensures salt_kept { salt self.new ≡ salt self.old };

    /// A new clock, which counts from the host's origin.
    fn clock(&mut self) -> Self::C
        ensures clock_readings { TellsJust (Self.C.readings result) [] }
        ensures binds_kept { binds self.new ≡ binds self.old }
        ensures files_kept { files self.new ≡ files self.old }
        ensures faults_kept { faults self.old ≤ faults self.new }
        ensures origin_kept { origin self.new ≡ origin self.old }
        ensures salt_kept { salt self.new ≡ salt self.old };

    /// The time at which its clocks begin.
    fn origin(&mut self) -> Ntp64
        ensures origin { result ≡ origin self.old }
        ensures binds_kept { binds self.new ≡ binds self.old }
        ensures files_kept { files self.new ≡ files self.old }
        ensures faults_kept { faults self.old ≤ faults self.new }
        ensures origin_kept { origin self.new ≡ origin self.old }
        ensures salt_kept { salt self.new ≡ salt self.old };

    /// Its secret.
    fn salt(&mut self) -> Salt
        ensures salt { result ≡ salt self.old }
        ensures binds_kept { binds self.new ≡ binds self.old }
        ensures files_kept { files self.new ≡ files self.old }
        ensures faults_kept { faults self.old ≤ faults self.new }
        ensures origin_kept { origin self.new ≡ origin self.old }
        ensures salt_kept { salt self.new ≡ salt self.old };
}
