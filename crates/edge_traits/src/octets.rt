ghost use Rattle.std.specs.Prelude.{◌≡◌, ◌+◌, ◌≤◌, ◌<◌, List, ℕ, [], ◌∷◌, ◌++◌, length, take};
ghost use Rattle.edge_traits.specs.declared.octets.TheConstants.{MAX_OCTETS};

use std::marker::Model;

/// The most octets of a datagram that is taken; what is longer is cut there.
pub const MAX_OCTETS: usize = 2048;

/// The octets of one datagram, at most 2,048 of them, kept in place.
#[derive(Drop)]
pub struct Octets {
    kept: [u8; 2048],
    used: usize,
}

impl Model for Octets {
    ghost Value = { List ℕ };

    ghost view = { λ o. take o.used o.kept };

    ghost invariant = { λ o. o.used ≤ 2048 };
}

impl Octets {
    /// No octets.
    pub fn new() -> Octets
        ensures { result ≡ [] }
    {
        Octets {
            kept: [0; 2048],
            used: 0,
        }
    }

    /// How many octets there are.
    pub fn len(&self) -> usize
        ensures len { result ≡ length self.now }
        ensures at_most { length self.now ≤ MAX_OCTETS }
    {
        self.used
    }

    /// The octets, first to last.
    pub fn as_slice(&self) -> &[u8]
        ensures same { result.now ≡ self.now }
        ensures at_most { length self.now ≤ MAX_OCTETS }
    {
        &self.kept[..self.used]
    }

    /// Leaves no octets.
    pub fn clear(&mut self)
        ensures { self.new ≡ [] }
    {
        self.used = 0;
    }

    /// Appends one octet.
    pub fn push(&mut self, octet: u8)
        requires { length self.old < MAX_OCTETS }
        ensures { self.new ≡ self.old ++ octet ∷ [] }
    {
        self.kept[self.used] = octet;
        self.used += 1;
    }

    /// Appends these octets.
    pub fn put(&mut self, octets: &[u8])
        requires { length self.old + length octets.now ≤ MAX_OCTETS }
        ensures { self.new ≡ self.old ++ octets.now }
    {
        let end = self.used + octets.len();
        self.kept[self.used..end].copy_from_slice(octets);
        self.used = end;
    }

    /// Equal octets of its own.
    pub fn copy(&self) -> Octets
        ensures { result ≡ self.now }
    {
        let mut octets = Octets::new();
        octets.put(self.as_slice());
        octets
    }
}
