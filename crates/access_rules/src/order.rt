ghost use Rattle.std.specs.Prelude.{◌≡◌};
ghost use Rattle.access_rules.specs.Order.{prefix_before, same_prefix};

use net_addr::{Prefix, bits, number};

/// Whether the first prefix stands before the second.
#[tactic(auto, unfolding(crate::specs::Order::prefix_before))]
pub fn is_before(one: &Prefix, other: &Prefix) -> bool
    ensures { result ≡ prefix_before one.now other.now }
{
    let (bits, other_bits) = (bits(&one.ip), bits(&other.ip));
    if bits != other_bits {
        return bits < other_bits;
    }
    let (number, other_number) = (number(&one.ip), number(&other.ip));
    if number != other_number {
        return number < other_number;
    }
    one.length < other.length
}

/// Whether two prefixes are one.
#[tactic(auto, unfolding(crate::specs::Order::same_prefix))]
pub fn is_same(one: &Prefix, other: &Prefix) -> bool
    ensures { result ≡ same_prefix one.now other.now }
{
    if bits(&one.ip) != bits(&other.ip) {
        return false;
    }
    if number(&one.ip) != number(&other.ip) {
        return false;
    }
    one.length == other.length
}
