ghost use Rattle.std.specs.Prelude.{◌≡◌, ◌==◌, ◌<◌, ◌≤◌, Contains, length};
ghost use Rattle.std.specs.List.{All};
ghost use Rattle.associations.specs.Associations.{IsAssociation};
ghost use Rattle.associations.specs.Choices.{HasMajority, IsChoice, is_among, survivors_in};
ghost use Rattle.associations.specs.Marks.{code_by, code_of, code_within, marked, marked_one};
ghost use Rattle.select_cluster.specs.Combining.{system_peer};

use crate::association::Association;
use crate::candidates::candidate_of;
use crate::peers::MAX_PEERS;
use mode6_frame::{FALSETICKER, OUTLIER, REJECTED, SURVIVOR, SYSTEM_PEER};
use select_cluster::{Candidate, Interval, MAX_CANDIDATES, Survivors, cluster, is_inside, select};

/// What is chosen among candidates (RFC 5905, section 11.2).
#[derive(Drop)]
pub enum Choice {
    /// No number of falsetickers is accepted.
    NoMajority,
    /// The majority agrees on this interval, and these survive in it.
    Majority {
        interval: Interval,
        survivors: Survivors,
    },
}

/// Chooses among candidates: a majority has a survivor, and each survivor is a candidate.
pub(crate) fn choose(candidates: &[Candidate]) -> Choice
    requires { length candidates.now ≤ MAX_CANDIDATES }
    ensures chosen { IsChoice candidates.now result }
    ensures only { (other : Choice) → IsChoice candidates.now other → result ≡ other }
    ensures among { (c : Candidate) → Contains (survivors_in result) c → Contains candidates.now c }
    ensures some { HasMajority result → 0 < length (survivors_in result) }
{
    match select(candidates) {
        None => Choice::NoMajority,
        Some(interval) => Choice::Majority {
            interval,
            survivors: cluster(candidates, &interval),
        },
    }
}

/// Whether the server of this number survives.
fn is_among(peer: u16, survivors: &Survivors) -> bool
    ensures { result ≡ is_among peer survivors.now }
{
    survivors
        .as_slice()
        .iter()
        .any(|survivor| survivor.peer == peer)
}

/// The number of the first survivor, or 0.
fn find_system_peer(survivors: &Survivors) -> u16
    ensures { result ≡ system_peer survivors.now }
{
    match survivors.as_slice() {
        [] => 0,
        [first, ..] => first.peer,
    }
}

/// The selection code of a candidate within a majority.
fn code_within(interval: Interval, survivors: &Survivors, candidate: Candidate) -> u8
    ensures value { result ≡ code_within interval survivors.now candidate }
    ensures within { result ≤ 7 }
{
    if !is_inside(candidate, interval) {
        FALSETICKER
    } else if !is_among(candidate.peer, survivors) {
        OUTLIER
    } else if find_system_peer(survivors) == candidate.peer {
        SYSTEM_PEER
    } else {
        SURVIVOR
    }
}

/// The selection code of a candidate.
fn code_of(choice: &Choice, candidate: Candidate) -> u8
    ensures value { result ≡ code_of choice.now candidate }
    ensures within { result ≤ 7 }
{
    match choice {
        Choice::NoMajority => FALSETICKER,
        Choice::Majority {
            interval,
            survivors,
        } => code_within(*interval, survivors, candidate),
    }
}

/// The selection code of a server that may be a candidate.
fn code_by(choice: &Choice, candidate: Option<Candidate>) -> u8
    ensures value { result ≡ code_by choice.now candidate }
    ensures within { result ≤ 7 }
{
    match candidate {
        None => REJECTED,
        Some(candidate) => code_of(choice, candidate),
    }
}

/// Keeps the selection code of the server of this number.
fn mark_one(server: &mut Association, peer: u16, choice: &Choice, moment: u64)
    ensures value { server.new ≡ marked_one choice.now moment peer server.old }
    ensures sound { IsAssociation server.old → IsAssociation server.new }
{
    server.selection = code_by(choice, candidate_of(server, peer, moment));
}

/// Keeps the selection code of each server.
pub(crate) fn mark(list: &mut [Association], choice: &Choice, moment: u64)
    requires { length list.old ≤ MAX_PEERS }
    ensures value { list.new ≡ marked choice.now moment list.old }
    ensures sound { All IsAssociation list.old → All IsAssociation list.new }
{
    for place in 0..list.len() {
        mark_one(&mut list[place], place as u16 + 1, choice, moment);
    }
}
