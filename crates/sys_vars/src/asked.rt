ghost use Rattle.std.specs.Prelude.{◌≡◌, ◌≤◌, List, ℕ, length};
ghost use Rattle.sys_vars.specs.declared.asked.TheConstants.{MAX_NAMES};

use mode6_frame::Head;
use net_addr::Addr;
use std::marker::Model;

/// The most names that a request can hold: one octet each, and a comma between two.
pub const MAX_NAMES: usize = 234;

/// The numbers of the variables that a request names, in its order.
#[derive(Drop)]
pub struct NameNumbers {
    numbers: Vec<u8>,
}

impl Model for NameNumbers {
    ghost use Rattle.std.specs.Prelude.{◌≤◌, List, ℕ, length};
    ghost use Rattle.sys_vars.specs.declared.asked.TheConstants.{MAX_NAMES};

    ghost Value = { List ℕ };

    ghost view = { λ n. n.numbers.items };

    ghost invariant = { λ n. length n.numbers.items ≤ MAX_NAMES };
}

impl NameNumbers {
    /// These numbers.
    pub fn of(numbers: Vec<u8>) -> NameNumbers
        requires { length numbers.items ≤ MAX_NAMES }
        ensures { result ≡ numbers.items }
    {
        NameNumbers { numbers }
    }

    /// How many there are.
    pub fn len(&self) -> usize
        ensures len { result ≡ length self.now }
        ensures at_most { length self.now ≤ MAX_NAMES }
    {
        self.numbers.len()
    }

    /// The numbers as a slice.
    pub fn as_slice(&self) -> &[u8]
        ensures same { result.now ≡ self.now }
        ensures at_most { length self.now ≤ MAX_NAMES }
    {
        self.numbers.as_slice()
    }
}

/// What a control message asks for, besides the time.
#[derive(Drop)]
pub enum What {
    /// The status of the system and of each peer, or of one peer.
    Status,
    /// These variables, or all where none is named.
    Vars(NameNumbers),
    /// A nonce for the sender.
    Nonce,
    /// What is refused with this error code (RFC 9327, section 3.4).
    Bad(u8),
}

/// A control request.
#[derive(Drop)]
pub struct Asked {
    /// Where it came from.
    pub from: Addr,
    /// What its answer repeats; the status is still to be filled in.
    pub head: Head,
    pub what: What,
}
