ghost use Rattle.std.specs.Prelude.{◌≡◌, ◌≤◌, ◌==◌, ◌||◌, ◌⊎◌, ℕ, List, IsTrue, length, take};

use std::marker::Model;

/// The octets of a digest, 16 or 20 of them, kept in place.
#[derive(Drop)]
pub struct Digest {
    kept: [u8; 20],
    used: usize,
}

impl Model for Digest {
    ghost Value = { List ℕ };

    ghost view = { λ d. take d.used d.kept };

    ghost invariant = { λ d. IsTrue ((d.used == 16) || (d.used == 20)) };
}

impl Digest {
    /// The digest of these 16 octets.
    pub fn of_16(octets: &[u8]) -> Digest
        requires { length octets.now ≡ 16 }
        ensures { result ≡ octets.now }
    {
        let mut kept = [0; 20];
        kept[..16].copy_from_slice(octets);
        Digest { kept, used: 16 }
    }

    /// The digest of these 20 octets.
    pub fn of_20(octets: &[u8]) -> Digest
        requires { length octets.now ≡ 20 }
        ensures { result ≡ octets.now }
    {
        let mut kept = [0; 20];
        kept.copy_from_slice(octets);
        Digest { kept, used: 20 }
    }

    /// The octets, first to last.
    pub fn as_slice(&self) -> &[u8]
        ensures same { result.now ≡ self.now }
        ensures length { (length self.now ≡ 16) ⊎ (length self.now ≡ 20) }
    {
        &self.kept[..self.used]
    }
}
