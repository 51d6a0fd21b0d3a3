ghost use Rattle.std.specs.Prelude.{◌≡◌, ◌≤◌, ◌<◌, ◌∷◌, ℕ, Some, List, [], length, OnOk, IfOk, IfErr};
ghost use Rattle.std.specs.List.{AllByRecursion};
ghost use Rattle.std.specs.Option.{ForSome};
ghost use Rattle.associations.specs.declared.asking.TheConstants.{MAX_REQUEST_LEN};
ghost use Rattle.conf_file.specs.ConfTexts.{IsConfText, IsRefusedText as IsRefusedConf};
ghost use Rattle.conf_file.specs.declared.conf.Conf.{Conf};
ghost use Rattle.edge_traits.specs.Told.{gained};
ghost use Rattle.mac_keys.specs.KeyTexts.{IsRefusedText as AreRefusedKeys};
ghost use Rattle.mac_keys.specs.declared.keys.Key.{Key};
ghost use Rattle.setup.specs.Causes.{IsCause, IsHostCause, IsKeyFileCause, IsRefusedAs};
ghost use Rattle.setup.specs.Files.{AreKeys, HasConf, IsFileName};
ghost use Rattle.setup.specs.Setups.{IsNewPilot, IsSetUp, binds_for};
ghost use Rattle.setup.specs.declared.files.SetupFault.{SetupFault};
ghost use Rattle.setup.specs.declared.files.TheConstants.{MAX_FILE};
ghost use Rattle.setup.specs.declared.listening.TheConstants.{UPSTREAM};

use crate::files::{SetupFault, read_conf_file, read_key_file};
use crate::listening::{UPSTREAM, open_at, open_workers};
use crate::opening::{open_book, opening_clock};
use associations::Peers;
use conf_file::Conf;
use discipline::Loop;
use edge_traits::Host;
use fixed_time::Ntp64;
use mac_keys::KeyTable;
use pilot::Pilot;
use responders::Session;
use shared_book::Common;
use std::alloc::Global;

/// Reads the configuration file of this name and the key file that it names, binds a port at each
/// address where it listens and then the upstream port, and makes the first session of the server.
pub fn set_up<H: Host>(
    alloc: Global,
    host: &mut H,
    name: &str,
) -> Result<Session<H::P, H::C>, SetupFault<H::S>>
    // The session, and what was bound for it.
    ensures session { IfOk result (λ session. (conf : Conf) × (keys : List Key)
        × HasConf (H.files host.old) name.now conf
        × AreKeys (H.files host.old) conf.keys keys
        × (H.binds host.new ≡ gained (H.binds host.old) (binds_for conf))
        × IsSetUp H.P.trace H.P.faults H.P.quiets H.P.address H.C.readings
        conf keys (H.salt host.old) (H.origin host.old) session) }
    ensures most { IfOk result (λ session.
        AllByRecursion (λ worker. 1024 ≤ H.P.most worker.port) session.workers) }
    ensures pilot_most { IfOk result (λ session.
        MAX_REQUEST_LEN ≤ session.pilot.helm.outside.most) }

    // Why there is none.
    ensures cause { IfErr result (IsCause H.S.faults (H.files host.old) name.now
        (H.faults host.old) (H.faults host.new)) }

    // Each refusal of a file is due exactly where the file is so, but for the outside and memory.
    ensures conf_refused { (octets : List ℕ) (line word : ℕ)
        → H.files host.old name.now ≡ Some octets → length octets ≤ MAX_FILE
        → IsRefusedConf octets line word → IsRefusedAs (SetupFault.Conf line word) result }
    ensures conf_too_long { (octets : List ℕ) → H.files host.old name.now ≡ Some octets
        → MAX_FILE < length octets → IsRefusedAs SetupFault.TooLong result }
    ensures keys_refused { (text octets : List ℕ) (conf : Conf) (key_name : List ℕ) (line word : ℕ)
        → H.files host.old name.now ≡ Some text → length text ≤ MAX_FILE
        → IsConfText text conf → conf.keys ≡ Some key_name
        → H.files host.old key_name ≡ Some octets → length octets ≤ MAX_FILE
        → AreRefusedKeys octets line word → IsRefusedAs (SetupFault.Keys line word) result }
    ensures keys_too_long { (text octets : List ℕ) (conf : Conf) (key_name : List ℕ)
        → H.files host.old name.now ≡ Some text → length text ≤ MAX_FILE
        → IsConfText text conf → conf.keys ≡ Some key_name
        → H.files host.old key_name ≡ Some octets → MAX_FILE < length octets
        → IsRefusedAs SetupFault.TooLong result }

    // What stays.
    ensures faults_kept { H.faults host.old ≤ H.faults host.new }
    ensures files_kept { H.files host.new ≡ H.files host.old }
    ensures origin_kept { H.origin host.new ≡ H.origin host.old }
    ensures salt_kept { H.salt host.new ≡ H.salt host.old }
{
    let conf = read_conf_file(alloc, host, name)?;
    let keys = read_conf_keys(alloc, host, &conf)?;
    open_session(alloc, host, conf, keys)
}

/// The keys of a server of this configuration: those of the key file that it names, or none.
fn read_conf_keys<H: Host>(
    alloc: Global,
    host: &mut H,
    conf: &Conf,
) -> Result<KeyTable, SetupFault<H::S>>
    requires named { ForSome conf.now.keys IsFileName }
    ensures found { IfOk result (AreKeys (H.files host.old) conf.now.keys) }
    ensures cause { IfErr result (λ fault. (key_name : List ℕ) × (conf.now.keys ≡ Some key_name)
        × IsKeyFileCause H.S.faults (H.files host.old) key_name
        (H.faults host.old) (H.faults host.new) fault) }
    ensures refused { (key_name octets : List ℕ) (line word : ℕ) → conf.now.keys ≡ Some key_name
        → H.files host.old key_name ≡ Some octets → length octets ≤ MAX_FILE
        → AreRefusedKeys octets line word → IsRefusedAs (SetupFault.Keys line word) result }
    ensures too_long { (key_name octets : List ℕ) → conf.now.keys ≡ Some key_name
        → H.files host.old key_name ≡ Some octets → MAX_FILE < length octets
        → IsRefusedAs SetupFault.TooLong result }

    // What stays.
    ensures faults_kept { H.faults host.old ≤ H.faults host.new }
    ensures binds_kept { H.binds host.new ≡ H.binds host.old }
    ensures files_kept { H.files host.new ≡ H.files host.old }
    ensures origin_kept { H.origin host.new ≡ H.origin host.old }
    ensures salt_kept { H.salt host.new ≡ H.salt host.old }
{
    match &conf.keys {
        None => Ok(KeyTable::new(alloc)),
        Some(name) => read_key_file(alloc, host, name),
    }
}

/// The first session of a server of this configuration with these keys.
fn open_session<H: Host>(
    alloc: Global,
    host: &mut H,
    conf: Conf,
    keys: KeyTable,
) -> Result<Session<H::P, H::C>, SetupFault<H::S>>
    requires listens { 1 ≤ length conf.listen }
    ensures is { IfOk result (IsSetUp H.P.trace H.P.faults H.P.quiets H.P.address H.C.readings
        conf keys (H.salt host.old) (H.origin host.old)) }
    ensures most { IfOk result (λ session.
        AllByRecursion (λ worker. 1024 ≤ H.P.most worker.port) session.workers) }
    ensures pilot_most { IfOk result (λ session.
        MAX_REQUEST_LEN ≤ session.pilot.helm.outside.most) }
    ensures bound { OnOk result (H.binds host.new ≡ gained (H.binds host.old) (binds_for conf)) }
    ensures cause { IfErr result (IsHostCause (H.faults host.old) (H.faults host.new)) }

    // What stays.
    ensures faults_kept { H.faults host.old ≤ H.faults host.new }
    ensures files_kept { H.files host.new ≡ H.files host.old }
    ensures origin_kept { H.origin host.new ≡ H.origin host.old }
    ensures salt_kept { H.salt host.new ≡ H.salt host.old }
{
    let origin = host.origin();
    let salt = host.salt();
    let workers = open_workers(alloc, host, &conf.listen)?;
    let pilot = open_pilot(alloc, host, &conf, origin)?;
    let book = open_book(alloc, conf, origin)?;
    Ok(Session {
        common: Common { keys, salt, origin },
        book,
        workers,
        pilot,
    })
}

/// A pilot for the servers of this configuration, at a new port.
fn open_pilot<H: Host>(
    alloc: Global,
    host: &mut H,
    conf: &Conf,
    origin: Ntp64,
) -> Result<Pilot<H::P, H::C>, SetupFault<H::S>>
    ensures new { IfOk result (IsNewPilot conf.now origin) }
    ensures most { IfOk result (λ pilot. MAX_REQUEST_LEN ≤ pilot.helm.outside.most) }
    ensures bound { OnOk result (H.binds host.new ≡ gained (H.binds host.old) (UPSTREAM ∷ [])) }
    ensures cause { IfErr result (IsHostCause (H.faults host.old) (H.faults host.new)) }

    // What stays.
    ensures faults_kept { H.faults host.old ≤ H.faults host.new }
    ensures files_kept { H.files host.new ≡ H.files host.old }
    ensures origin_kept { H.origin host.new ≡ H.origin host.old }
    ensures salt_kept { H.salt host.new ≡ H.salt host.old }
{
    let (port, clock) = open_at(host, &UPSTREAM)?;
    let peers = Peers::of(alloc, conf.servers.as_slice())?;
    let engine = Loop::of(opening_clock(origin, conf.freq), conf.freq);
    Ok(Pilot::new(alloc, port, clock, peers, engine))
}
