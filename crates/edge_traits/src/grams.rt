ghost use Rattle.std.specs.Prelude.{◌≡◌, ◌<◌, List, ℕ, length, slice_index_or};

use crate::octets::Octets;
use std::marker::Model;

/// The datagrams of one answer, in order.
#[derive(Drop)]
pub struct Grams {
    datagrams: Vec<Octets>,
}

impl Model for Grams {
    ghost Value = { List (List ℕ) };

    ghost view = { λ g. g.datagrams.items };
}

impl Grams {
    /// The answer of these datagrams.
    pub fn of(datagrams: Vec<Octets>) -> Grams
        ensures { result ≡ datagrams.items }
    {
        Grams { datagrams }
    }

    /// How many datagrams there are.
    pub fn len(&self) -> usize
        ensures { result ≡ length self.now }
    {
        self.datagrams.len()
    }

    /// The datagram number `i`, counted from 0.
    pub fn get(&self, i: usize) -> &Octets
        requires { i < length self.now }
        ensures { result.now ≡ slice_index_or self.now i result.now }
    {
        &self.datagrams[i]
    }
}
