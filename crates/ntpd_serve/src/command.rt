ghost use Rattle.std.specs.Prelude.{◌≡◌, ◌≤◌, ◌↔◌, ◌≢◌, ◌⊎◌, ℕ, List, [], ◌∷◌, map, string_bytes, IsNone, IsTrue, IsSome, IfSome, IfNone, IsSomeAnd};
ghost use Rattle.net_addr.specs.declared.addr.Addr.{Addr};
ghost use Rattle.edge_traits.specs.Told.{gained, Grows, Rose, TellsJust};
ghost use Rattle.edge_traits.specs.declared.port.Event.{Event};
ghost use Rattle.ntpd_serve.specs.Ending.{Prints, Reports, status_of};
ghost use Rattle.ntpd_serve.specs.Once.{Happens, HasCome, IsServed};
ghost use Rattle.conf_file.specs.declared.conf.Conf.{Conf};
ghost use Rattle.mac_keys.specs.declared.keys.Key.{Key};
ghost use Rattle.server_core.specs.declared.op.Why.{Why};
ghost use Rattle.setup.specs.Files.{AreKeys, HasConf};
ghost use Rattle.setup.specs.Setups.{binds_for};
ghost use Rattle.responders.specs.declared.session.Outcome.{Outcome};
ghost use Rattle.ntpd_serve.specs.Command.{AsksOnce, AsksRehearse, AsksServe, AsksFor, IsNoCommand, EndsBefore, IsHostEnding, common_of};
ghost use Rattle.rehearsal.specs.Lines.{rehearsal_lines};
ghost use Rattle.rehearsal.specs.Rehearsals.{IsRehearsed};
ghost use Rattle.ntpd_serve.specs.Serves.{HasRefusedFile, IsDueRefusal, Serves};
ghost use Rattle.ntpd_serve.specs.Sessions.{IsStoppedFor, facts_of, outcome_status, session_lines};
ghost use Rattle.ntpd_serve.specs.declared.command.Command.{Command};
ghost use Rattle.ntpd_serve.specs.declared.ending.Ending.{Ending};
ghost use Rattle.ntpd_serve.specs.declared.ending.Failure.{Failure};

use crate::ending::{Ending, Failure};
use crate::once::{PATIENCE, serve_once};
use crate::report::report;
use crate::serve::serve_file;
use edge_traits::{Clock, Gate, Host, HostFault, Port, Sink, Status};
use mac_keys::KeyTable;
use net_addr::{Addr, read_named};
use rehearsal::{Rehearsed, rehearse};
use responders::Session;
use shared_book::Common;
use std::alloc::Global;
use std::sync::Wait;
use std::thread::Threads;
use text_words::read_decimal_u64;

/// The port and the clock of a run of `once`, as it left them.
#[derive(Drop)]
pub struct Single<P, C> {
    pub port: P,
    pub clock: C,
}

/// How a run of `ntpd` ended, and what it leaves.
#[derive(Drop)]
pub struct Ended<P: Port, C: Clock, S> {
    pub status: Status,
    /// There where the run served by `once`.
    pub single: Option<Single<P, C>>,
    /// There where the run served by `serve`: the session as it was left.
    pub session: Option<Session<P, C>>,
    /// There where the run rehearsed by `rehearse`: what was done.
    pub rehearsed: Option<Rehearsed>,
    /// There where a read of a file failed: its source.
    pub source: Option<S>,
}

/// The program, over any host, gate and sink: the words that follow its name are its command.
///
/// `once ADDR:PORT` serves one datagram at that address. `serve FILE` serves as the configuration file
/// says, by a worker at each address where it listens and a pilot. `rehearse N` rehearses by that
/// number in this process. Other words are no command.
pub fn ntpd<R: Threads + Wait + Sync, H: Host, S: Sink, G: Gate + Sync>(
    rt: &R,
    alloc: Global,
    words: &[String],
    host: &mut H,
    gate: &G,
    out: &mut S,
) -> Ended<H::P, H::C, H::S>
where
    H::P: Send,
    H::C: Send,
    // `once`: what became of the datagram, where the host gave a port. Where one came, only a fault of
    // the port or of the sink, or want of memory, keeps it from being served.
    ensures served { IfSome result.single (λ single. (at : Addr) × (ending : Ending)
        × (events : List Event) × (readings : List ℕ)
        × AsksOnce (map string_bytes words.now) at
        × (H.binds host.new ≡ gained (H.binds host.old) (at ∷ []))
        × (H.P.address single.port ≡ at)
        × Happens (common_of (H.salt host.old) (H.origin host.old)) ending events readings
        × TellsJust (H.P.trace single.port) events
        × TellsJust (H.C.readings single.clock) readings
        × Reports ending result.status (S.contents out.old) (S.contents out.new)
        × (HasCome events → ¬ (1 ≤ H.P.faults single.port)
        → ¬ Rose 1 (S.faults out.old) (S.faults out.new) → IsServed result.status)) }

    // `serve`: the session that was made of the files, how it was served, and what was printed of it.
    ensures session { IfSome result.session (λ last. (name : List ℕ) × (conf : Conf)
        × (keys : List Key) × (outcome : Outcome)
        × AsksServe (map string_bytes words.now) name
        × HasConf (H.files host.old) name conf
        × AreKeys (H.files host.old) conf.keys keys
        × (H.binds host.new ≡ gained (H.binds host.old) (binds_for conf))
        × Serves H.P.trace H.P.faults H.P.quiets H.P.address H.P.most H.P.is_closed H.C.readings
        conf keys (H.salt host.old) (H.origin host.old) outcome last
        × Prints (session_lines (facts_of last) outcome) (outcome_status outcome) result.status
        (S.contents out.old) (S.contents out.new)) }

    // `rehearse`: what was done by the number, and what was printed of it.
    ensures rehearsed { IfSome result.rehearsed (λ left. (number : ℕ)
        × AsksRehearse (map string_bytes words.now) number
        × IsRehearsed number left
        × Prints (rehearsal_lines number left) 0 result.status
        (S.contents out.old) (S.contents out.new)) }

    // Otherwise the words are no command, or the host failed or had no memory, or a file is refused.
    ensures before { IsNone result.single → IsNone result.session → IsNone result.rehearsed
        → (ending : Ending)
        × EndsBefore H.S.faults (H.files host.old) (H.faults host.old) (H.faults host.new)
        result.source ending (map string_bytes words.now)
        × Reports ending result.status (S.contents out.old) (S.contents out.new) }
    ensures unbound { IsNone result.single
        → ((name : List ℕ) → ¬ AsksServe (map string_bytes words.now) name)
        → H.binds host.new ≡ H.binds host.old }
    ensures no_command { IsNoCommand (map string_bytes words.now) → IsNone result.single
        × IsNone result.session
        × IsNone result.rehearsed
        × (H.binds host.new ≡ H.binds host.old)
        × Reports (Ending.Failed Failure.Words) result.status
        (S.contents out.old) (S.contents out.new) }
    ensures refused_file { (name : List ℕ) (why : Failure)
        → AsksServe (map string_bytes words.now) name → IsDueRefusal (H.files host.old) name why
        → Reports (Ending.Failed why) result.status (S.contents out.old) (S.contents out.new)
        ⊎ ((result.status.0 ≡ 3) ⊎ (8 ≤ result.status.0)) }

    // Each status that is a fault has its cause.
    ensures words { result.status.0 ≡ 1 → IsNoCommand (map string_bytes words.now) }
    ensures file { result.status.0 ≡ 2 → (name : List ℕ)
        × AsksServe (map string_bytes words.now) name × HasRefusedFile (H.files host.old) name }
    ensures host_failed { result.status.0 ≡ 3 → Rose 1 (H.faults host.old) (H.faults host.new)
        ⊎ IsSomeAnd result.source (λ source. 1 ≤ H.S.faults source) }
    ensures port_failed { result.status.0 ≡ 4
        → IsSomeAnd result.single (λ single. 1 ≤ H.P.faults single.port)
        ⊎ IsSomeAnd result.session (IsStoppedFor Why.PortFault) }
    ensures clock_ended { result.status.0 ≡ 5
        → IsSomeAnd result.session (IsStoppedFor Why.ClockEnd) }
    ensures quiet { result.status.0 ≡ 6
        → IsSomeAnd result.single (λ single. PATIENCE ≤ H.P.quiets single.port) }
    ensures closed { result.status.0 ≡ 7
        → IsSomeAnd result.single (λ single. IsTrue (H.P.is_closed single.port)) }
    ensures sink_failed { result.status.0 ≡ 8 → Rose 1 (S.faults out.old) (S.faults out.new) }
{
    match read_command(words) {
        None => ended_before(&Ending::Failed(Failure::Words), None, out),
        Some(Command::Once(at)) => once(alloc, &at, host, out),
        Some(Command::Serve(name)) => serve_file(rt, alloc, name, host, gate, out),
        Some(Command::Rehearse(number)) => rehearse_number(rt, alloc, number, gate, out),
    }
}

/// What the words ask for.
enum Command<'a> {
    /// To serve one datagram at this address.
    Once(Addr),
    /// To serve as the file of this name says.
    Serve(&'a str),
    /// To rehearse by this number.
    Rehearse(u64),
}

/// The command that the words are.
fn read_command(words: &[String]) -> Option<Command<'_>>
    ensures asks { IfSome result (AsksFor (map string_bytes words.now)) }
    ensures none { IsNone result ↔ IsNoCommand (map string_bytes words.now) }
{
    match words {
        [command, word] => command_of(command.as_str().as_bytes(), word.as_str()),
        _ => None,
    }
}

/// The command of two words.
fn command_of<'a>(command: &[u8], word: &'a str) -> Option<Command<'a>>
    ensures asks { IfSome result (AsksFor (command.now ∷ word.now ∷ [])) }
    ensures none { IsNone result ↔ IsNoCommand (command.now ∷ word.now ∷ []) }
{
    if command == b"once".as_slice() {
        return match read_named(word.as_bytes()) {
            Some(at) => Some(Command::Once(at)),
            None => None,
        };
    }
    if command == b"serve".as_slice() {
        return Some(Command::Serve(word));
    }
    if command == b"rehearse".as_slice() {
        return match read_decimal_u64(word.as_bytes()) {
            Some(number) => Some(Command::Rehearse(number)),
            None => None,
        };
    }
    None
}

/// Serves one datagram at this port.
fn serve_single<P: Port, C: Clock, S: Sink, X>(
    alloc: Global,
    single: Single<P, C>,
    common: &Common,
    out: &mut S,
) -> Ended<P, C, X>
    requires most { 1024 ≤ P.most single.port }
    ensures served { IsSomeAnd result.single (λ left. (ending : Ending)
        × (events : List Event) × (readings : List ℕ)
        × Happens common.now ending events readings
        × (P.trace left.port ≡ gained (P.trace single.port) events)
        × Grows (C.readings single.clock) (C.readings left.clock) readings
        × Reports ending result.status (S.contents out.old) (S.contents out.new)
        × (HasCome events → ¬ Rose 1 (P.faults single.port) (P.faults left.port)
        → ¬ Rose 1 (S.faults out.old) (S.faults out.new) → IsServed result.status)) }
    ensures session { IsNone result.session }
    ensures rehearsed { IsNone result.rehearsed }
    ensures address { IfSome result.single (λ left. P.address left.port ≡ P.address single.port) }
    ensures port_failed { result.status.0 ≡ 4
        → IsSomeAnd result.single (λ left. Rose 1 (P.faults single.port) (P.faults left.port)) }
    ensures quiet { result.status.0 ≡ 6
        → IsSomeAnd result.single (λ left.
        Rose PATIENCE (P.quiets single.port) (P.quiets left.port)) }
    ensures closed { result.status.0 ≡ 7
        → IsSomeAnd result.single (λ left. IsTrue (P.is_closed left.port)) }
    ensures sink_failed { result.status.0 ≡ 8 → Rose 1 (S.faults out.old) (S.faults out.new) }
{
    let Single {
        mut port,
        mut clock,
    } = single;
    let status = serve_once(alloc, &mut port, &mut clock, common, out);
    Ended {
        status,
        single: Some(Single { port, clock }),
        session: None,
        rehearsed: None,
        source: None,
    }
}

/// Rehearses by this number.
fn rehearse_number<R: Threads + Wait + Sync, P: Port, C: Clock, X, S: Sink, G: Gate + Sync>(
    rt: &R,
    alloc: Global,
    number: u64,
    gate: &G,
    out: &mut S,
) -> Ended<P, C, X>
    ensures rehearsed { IfSome result.rehearsed (λ left. IsRehearsed number left
        × Prints (rehearsal_lines number left) 0 result.status
        (S.contents out.old) (S.contents out.new)) }
    ensures before { IsNone result.rehearsed → Reports (Ending.Failed Failure.NoMemory) result.status
        (S.contents out.old) (S.contents out.new) }
    ensures single { IsNone result.single }
    ensures session { IsNone result.session }
    ensures status { (result.status.0 ≡ 0) ⊎ (8 ≤ result.status.0) }
    ensures sink_failed { result.status.0 ≡ 8 → Rose 1 (S.faults out.old) (S.faults out.new) }
{
    match rehearse(rt, alloc, number, gate, out) {
        (status, Some(rehearsed)) => Ended {
            status,
            single: None,
            session: None,
            rehearsed: Some(rehearsed),
            source: None,
        },
        (_, None) => ended_before(&Ending::Failed(Failure::NoMemory), None, out),
    }
}

/// What a run leaves that ended before it served, where this source failed or none did.
pub(crate) fn ended_before<P: Port, C: Clock, X, S: Sink>(
    ending: &Ending,
    source: Option<X>,
    out: &mut S,
) -> Ended<P, C, X>
    ensures status { (result.status.0 ≡ status_of ending.now) ⊎ (8 ≤ result.status.0) }
    ensures single { IsNone result.single }
    ensures session { IsNone result.session }
    ensures rehearsed { IsNone result.rehearsed }
    ensures source { result.source ≡ source }
    ensures reported { Reports ending.now result.status (S.contents out.old) (S.contents out.new) }
    ensures sink_failed { result.status.0 ≡ 8 → Rose 1 (S.faults out.old) (S.faults out.new) }
{
    Ended {
        status: report(ending, out),
        single: None,
        session: None,
        rehearsed: None,
        source,
    }
}

/// Serves one datagram at the address.
fn once<H: Host, S: Sink>(
    alloc: Global,
    at: &Addr,
    host: &mut H,
    out: &mut S,
) -> Ended<H::P, H::C, H::S>
    ensures served { IfSome result.single (λ single. (ending : Ending)
        × (events : List Event) × (readings : List ℕ)
        × (H.binds host.new ≡ gained (H.binds host.old) (at.now ∷ []))
        × (H.P.address single.port ≡ at.now)
        × Happens (common_of (H.salt host.old) (H.origin host.old)) ending events readings
        × TellsJust (H.P.trace single.port) events
        × TellsJust (H.C.readings single.clock) readings
        × Reports ending result.status (S.contents out.old) (S.contents out.new)
        × (HasCome events → ¬ (1 ≤ H.P.faults single.port)
        → ¬ Rose 1 (S.faults out.old) (S.faults out.new) → IsServed result.status)) }
    ensures before { IfNone result.single ((ending : Ending) × IsHostEnding ending
        × (H.binds host.new ≡ H.binds host.old)
        × Reports ending result.status (S.contents out.old) (S.contents out.new)) }

    ensures session { IsNone result.session }
    ensures rehearsed { IsNone result.rehearsed }

    ensures not_words { result.status.0 ≢ 1 }
    ensures not_file { result.status.0 ≢ 2 }
    ensures not_clock { result.status.0 ≢ 5 }
    ensures host_failed { result.status.0 ≡ 3 → Rose 1 (H.faults host.old) (H.faults host.new) }
    ensures port_failed { result.status.0 ≡ 4
        → IsSomeAnd result.single (λ single. 1 ≤ H.P.faults single.port) }
    ensures quiet { result.status.0 ≡ 6
        → IsSomeAnd result.single (λ single. PATIENCE ≤ H.P.quiets single.port) }
    ensures closed { result.status.0 ≡ 7
        → IsSomeAnd result.single (λ single. IsTrue (H.P.is_closed single.port)) }
    ensures sink_failed { result.status.0 ≡ 8 → Rose 1 (S.faults out.old) (S.faults out.new) }
{
    match host.bind(at) {
        Err(HostFault::Failed) => ended_before(&Ending::Failed(Failure::Host), None, out),
        Err(HostFault::NoMemory) => ended_before(&Ending::Failed(Failure::NoMemory), None, out),
        Ok(port) => {
            let clock = host.clock();
            let common = Common {
                keys: KeyTable::new(alloc),
                salt: host.salt(),
                origin: host.origin(),
            };
            serve_single(alloc, Single { port, clock }, &common, out)
        }
    }
}
