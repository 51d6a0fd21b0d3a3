ghost use Rattle.std.specs.Prelude.{◌≡◌, ◌≤◌, ◌<◌, length, slice_index_or};
ghost use Rattle.mru_items.specs.declared.pair.TheConstants.{MAX_PAIRS};

use net_addr::Addr;
use std::marker::Model;

/// The most pairs that a read names (our own rule).
pub const MAX_PAIRS: usize = 16;

/// A client as a read names it: its address, and when it last arrived. On the wire the time is a
/// timestamp; a server's own pairs have its stamps, which begin at its origin.
#[derive(Clone, Copy, Debug, PartialEq, Eq)]
pub struct Pair {
    /// The client.
    pub addr: Addr,
    /// When it last arrived, in 32.32 seconds.
    pub last: u64,
}

/// The pairs of a read, at most 16 of them, in their order.
#[derive(Drop)]
pub struct Pairs {
    kept: Vec<Pair>,
}

impl Model for Pairs {
    ghost use Rattle.std.specs.Prelude.{List, ◌≤◌, length};
    ghost use Rattle.mru_items.specs.declared.pair.Pair.{Pair};
    ghost use Rattle.mru_items.specs.declared.pair.TheConstants.{MAX_PAIRS};

    ghost Value = { List Pair };

    ghost view = { λ p. p.kept.items };

    ghost invariant = { λ p. length p.kept.items ≤ MAX_PAIRS };
}

impl Pairs {
    /// These pairs.
    pub fn of(pairs: Vec<Pair>) -> Pairs
        requires { length pairs.items ≤ MAX_PAIRS }
        ensures { result ≡ pairs.items }
    {
        Pairs { kept: pairs }
    }

    /// How many pairs there are.
    pub fn len(&self) -> usize
        ensures len { result ≡ length self.now }
        ensures at_most { length self.now ≤ MAX_PAIRS }
    {
        self.kept.len()
    }

    /// The pair at a place, from 0.
    pub fn get(&self, place: usize) -> &Pair
        requires { place < length self.now }
        ensures { result.now ≡ slice_index_or self.now place result.now }
    {
        &self.kept[place]
    }

    /// The pairs, first to last.
    pub fn as_slice(&self) -> &[Pair]
        ensures same { result.now ≡ self.now }
        ensures at_most { length self.now ≤ MAX_PAIRS }
    {
        self.kept.as_slice()
    }
}
