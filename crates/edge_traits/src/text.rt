ghost use Rattle.std.specs.Prelude.{◌≡◌, ◌^◌, ◌<◌, ℕ, List, length};

use std::marker::Model;

/// A short text by its octets, in any encoding: a name, or a value.
#[derive(Drop)]
pub struct Text {
    octets: Vec<u8>,
}

/// The name of a file.
pub type Name = Text;

impl Model for Text {
    ghost Value = { List ℕ };

    ghost view = { λ t. t.octets.items };
}

impl Text {
    /// The text of these octets.
    pub fn of(octets: Vec<u8>) -> Text
        ensures { result ≡ octets.items }
    {
        Text { octets }
    }

    /// How many octets there are.
    pub fn len(&self) -> usize
        ensures value { result ≡ length self.now }
        ensures bound { length self.now < 2 ^ 63 }
    {
        self.octets.len()
    }

    /// The octets, first to last.
    pub fn as_slice(&self) -> &[u8]
        ensures value { result.now ≡ self.now }
        ensures bound { length self.now < 2 ^ 63 }
    {
        self.octets.as_slice()
    }
}
