ghost use Rattle.std.specs.Prelude.{◌≡◌, ◌≤◌, ◌<◌, ℕ, Some, List, length, IfOk, IfErr};
ghost use Rattle.conf_file.specs.ConfTexts.{IsConfText, IsRefusedText as IsRefusedConf};
ghost use Rattle.conf_file.specs.declared.conf.Conf.{Conf};
ghost use Rattle.mac_keys.specs.KeyTexts.{IsRefusedText as AreRefusedKeys};
ghost use Rattle.setup.specs.Causes.{IsCause, IsFileCause, IsKeyFileCause, IsMadeAs, IsRefusedAs};
ghost use Rattle.setup.specs.Files.{HasConf, HasKeys, HasOctets, IsFileName};
ghost use Rattle.setup.specs.declared.files.SetupFault.{SetupFault};

use conf_file::{Conf, ConfFault, read_conf};
use edge_traits::{Host, HostFault, Name, ReadFault, read_whole};
use mac_keys::{KeyTable, KeysFault, read_keys};
use std::alloc::{AllocError, Global};

/// The most octets of a file: 1 MiB.
pub const MAX_FILE: usize = 1_048_576;

/// Why there is no session.
#[derive(Drop)]
pub enum SetupFault<S> {
    /// The configuration file is refused at this word; line and word are counted from 1.
    Conf { line: u32, word: u32 },
    /// The key file is refused at this word.
    Keys { line: u32, word: u32 },
    /// One of the files has more octets than a file may have.
    TooLong,
    /// The host failed.
    Host,
    /// A read of this source failed.
    Source(S),
    /// Memory was wanting.
    NoMemory,
}

impl<S> From<AllocError> for SetupFault<S> {
    ghost use Rattle.std.specs.Prelude.{◌≡◌};
    ghost use Rattle.setup.specs.declared.files.SetupFault.TheVariants.{NoMemory};

    ghost from_gives = { λ _ fault. fault ≡ NoMemory };

    fn from(_: AllocError) -> SetupFault<S> {
        SetupFault::NoMemory
    }
}

/// Reads the file of this name, whole.
fn read_file<H: Host>(alloc: Global, host: &mut H, name: &str) -> Result<Vec<u8>, SetupFault<H::S>>
    ensures octets { IfOk result (λ octets.
        HasOctets (H.files host.old) name.now octets.items) }
    ensures cause { IfErr result (IsFileCause H.S.faults (H.files host.old) name.now
        (H.faults host.old) (H.faults host.new)) }

    // What stays.
    ensures faults_kept { H.faults host.old ≤ H.faults host.new }
    ensures binds_kept { H.binds host.new ≡ H.binds host.old }
    ensures files_kept { H.files host.new ≡ H.files host.old }
    ensures origin_kept { H.origin host.new ≡ H.origin host.old }
    ensures salt_kept { H.salt host.new ≡ H.salt host.old }
{
    let mut source = match host.source(name) {
        Ok(source) => source,
        Err(HostFault::Failed) => return Err(SetupFault::Host),
        Err(HostFault::NoMemory) => return Err(SetupFault::NoMemory),
    };
    match read_whole(alloc, &mut source, MAX_FILE) {
        Ok(octets) => Ok(octets),
        Err(ReadFault::TooLong) => Err(SetupFault::TooLong),
        Err(ReadFault::Failed) => Err(SetupFault::Source(source)),
        Err(ReadFault::NoMemory) => Err(SetupFault::NoMemory),
    }
}

/// Reads the configuration file of this name.
pub(crate) fn read_conf_file<H: Host>(
    alloc: Global,
    host: &mut H,
    name: &str,
) -> Result<Conf, SetupFault<H::S>>
    ensures found { IfOk result (HasConf (H.files host.old) name.now) }
    ensures only { (octets : List ℕ) (conf : Conf) → H.files host.old name.now ≡ Some octets
        → length octets ≤ MAX_FILE → IsConfText octets conf → IsMadeAs conf result }
    ensures cause { IfErr result (IsCause H.S.faults (H.files host.old) name.now
        (H.faults host.old) (H.faults host.new)) }
    ensures refused { (octets : List ℕ) (line word : ℕ)
        → H.files host.old name.now ≡ Some octets → length octets ≤ MAX_FILE
        → IsRefusedConf octets line word → IsRefusedAs (SetupFault.Conf line word) result }
    ensures too_long { (octets : List ℕ) → H.files host.old name.now ≡ Some octets
        → MAX_FILE < length octets → IsRefusedAs SetupFault.TooLong result }

    // What stays.
    ensures faults_kept { H.faults host.old ≤ H.faults host.new }
    ensures binds_kept { H.binds host.new ≡ H.binds host.old }
    ensures files_kept { H.files host.new ≡ H.files host.old }
    ensures origin_kept { H.origin host.new ≡ H.origin host.old }
    ensures salt_kept { H.salt host.new ≡ H.salt host.old }
{
    let text = read_file(alloc, host, name)?;
    match read_conf(alloc, text.as_slice()) {
        Ok(conf) => Ok(conf),
        Err(ConfFault::At { line, word }) => Err(SetupFault::Conf { line, word }),
        Err(ConfFault::NoMemory) => Err(SetupFault::NoMemory),
    }
}

/// Reads the key file of this name.
pub(crate) fn read_key_file<H: Host>(
    alloc: Global,
    host: &mut H,
    name: &Name,
) -> Result<KeyTable, SetupFault<H::S>>
    requires named { IsFileName name.now }
    ensures found { IfOk result (HasKeys (H.files host.old) name.now) }
    ensures cause { IfErr result (IsKeyFileCause H.S.faults (H.files host.old) name.now
        (H.faults host.old) (H.faults host.new)) }
    ensures refused { (octets : List ℕ) (line word : ℕ)
        → H.files host.old name.now ≡ Some octets → length octets ≤ MAX_FILE
        → AreRefusedKeys octets line word → IsRefusedAs (SetupFault.Keys line word) result }
    ensures too_long { (octets : List ℕ) → H.files host.old name.now ≡ Some octets
        → MAX_FILE < length octets → IsRefusedAs SetupFault.TooLong result }

    // What stays.
    ensures faults_kept { H.faults host.old ≤ H.faults host.new }
    ensures binds_kept { H.binds host.new ≡ H.binds host.old }
    ensures files_kept { H.files host.new ≡ H.files host.old }
    ensures origin_kept { H.origin host.new ≡ H.origin host.old }
    ensures salt_kept { H.salt host.new ≡ H.salt host.old }
{
    let Ok(name) = str::from_utf8(name.as_slice()) else {
        unreachable!()
    };
    let text = read_file(alloc, host, name)?;
    match read_keys(alloc, text.as_slice()) {
        Ok(keys) => Ok(keys),
        Err(KeysFault::At { line, word }) => Err(SetupFault::Keys { line, word }),
        Err(KeysFault::NoMemory) => Err(SetupFault::NoMemory),
    }
}
