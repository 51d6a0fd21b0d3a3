ghost use Rattle.std.specs.Prelude.{◌≡◌, pos};

use fixed_time::Span;

/// The most candidates of one selection.
pub const MAX_CANDIDATES: usize = 32;

/// A peer that may set the clock: its number, stratum, and its offset, root distance and jitter in
/// 32.32 seconds.
#[derive(Clone, Copy, Debug, PartialEq, Eq)]
pub struct Candidate {
    pub peer: u16,
    pub stratum: u8,
    pub offset: Span,
    pub distance: u64,
    pub jitter: u64,
}

/// A place of a list that no candidate stands in yet.
impl Default for Candidate {
    ghost is_default = { λ c. c ≡ record {
      peer = 0;
      stratum = 0;
      offset = record { 0 = pos 0 };
      distance = 0;
      jitter = 0;
    } };

    fn default() -> Self {
        Candidate {
            peer: 0,
            stratum: 0,
            offset: Span(0),
            distance: 0,
            jitter: 0,
        }
    }
}
