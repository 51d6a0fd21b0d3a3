ghost use Rattle.std.specs.Prelude.{◌≡◌, ◌+◌, ◌/◌, ◌++◌, ◌<◌, ◌≤◌, length};
ghost use Rattle.std.specs.Option.{option_to_list};
ghost use Rattle.arrayvec.specs.ArrayVec.{array_vec_len};
ghost use Rattle.associations.specs.Candidates.{candidate_of, candidates_of, distance_of, near_candidate, reached_candidate};

use crate::association::Association;
use arrayvec::ArrayVec;
use clock_filter::Estimate;
use fixed_time::{PHI, drift};
use select_cluster::{Candidate, MAX_CANDIDATES};

/// The root distance from which on a server is no candidate, in 32.32 seconds: 1.5 seconds (our own
/// rule; MAXDIST of RFC 5905, section 7.2, is one second).
pub const MAX_DISTANCE: u64 = 3 << 31;

/// So many candidates, kept in place.
pub(crate) type CandidateList = ArrayVec<Candidate, MAX_CANDIDATES>;

/// Half a round trip, and what else adds to a root distance: five times of 64 bits fit 128.
fn add_up(root_delay: u64, root_disp: u64, estimate: Estimate, grown: u64) -> u128
    ensures { result ≡ (root_delay + estimate.delay) / 2 + root_disp + estimate.disp + grown + estimate.jitter }
{
    let round_trip = u128::from(root_delay) + u128::from(estimate.delay);
    round_trip / 2
        + u128::from(root_disp)
        + u128::from(estimate.disp)
        + u128::from(grown)
        + u128::from(estimate.jitter)
}

/// The root distance of a server at a moment, by this estimate (RFC 5905, section 11.2.1).
fn find_distance(server: &Association, estimate: Estimate, moment: u64) -> u128
    ensures { result ≡ distance_of server.now estimate moment }
{
    let grown = drift(moment.saturating_sub(estimate.at), PHI);
    add_up(server.root_delay, server.root_disp, estimate, grown)
}

/// The candidate of this root distance, where that is near enough.
fn near_candidate(
    server: &Association,
    peer: u16,
    estimate: Estimate,
    distance: u128,
) -> Option<Candidate>
    ensures { result ≡ near_candidate peer server.now estimate distance }
{
    if distance < u128::from(MAX_DISTANCE) {
        Some(Candidate {
            peer,
            stratum: server.stratum,
            offset: estimate.offset,
            distance: distance as u64,
            jitter: estimate.jitter,
        })
    } else {
        None
    }
}

/// The candidate of a server that has this estimate, where it was reached.
fn reached_candidate(
    server: &Association,
    peer: u16,
    estimate: Estimate,
    moment: u64,
) -> Option<Candidate>
    ensures { result ≡ reached_candidate peer server.now estimate moment }
{
    if server.reach == 0 {
        None
    } else {
        near_candidate(
            server,
            peer,
            estimate,
            find_distance(server, estimate, moment),
        )
    }
}

/// The server of this association number as a candidate, if it is one.
pub(crate) fn candidate_of(server: &Association, peer: u16, moment: u64) -> Option<Candidate>
    ensures { result ≡ candidate_of moment peer server.now }
{
    match server.estimate {
        None => None,
        Some(estimate) => reached_candidate(server, peer, estimate, moment),
    }
}

/// The candidates among the servers, in the order of their numbers.
pub(crate) fn gather(list: &[Association], moment: u64) -> CandidateList
    requires { length list.now ≤ MAX_CANDIDATES }
    ensures { result.items ≡ candidates_of moment list.now }
{
    let mut candidates: CandidateList = ArrayVec::new();
    for place in 0..list.len() {
        keep(
            &mut candidates,
            candidate_of(&list[place], place as u16 + 1, moment),
        );
    }
    candidates
}

/// Appends a candidate, if there is one.
fn keep(candidates: &mut CandidateList, candidate: Option<Candidate>)
    requires { array_vec_len candidates.old < MAX_CANDIDATES }
    ensures items { candidates.new.items ≡ candidates.old.items ++ option_to_list candidate }
    ensures len { array_vec_len candidates.new ≤ array_vec_len candidates.old + 1 }
{
    if let Some(candidate) = candidate {
        candidates.push(candidate);
    }
}
