//! The free nodes that a client list begins with.
ghost use Rattle.std.specs.Prelude.{◌≡◌, ◌≤◌, ◌<◌, ◌+◌, ◌^◌, [], length, vec_capacity};
ghost use Rattle.recency_links.specs.Lists.{IsListed};

use crate::node::Node;
use net_addr::Ip;
use recency::Row;

/// Fills a vector of nodes with node 0 and so many free ones, chained from the last to the first.
pub(crate) fn fill(nodes: &mut Vec<Node>, count: u32)
    requires empty { nodes.old.items ≡ [] }
    requires room { count + 1 ≤ vec_capacity nodes.old }
    requires most { count < 2 ^ 31 }
    ensures list { IsListed nodes.new.items count 0 [] }
    ensures nodes { length nodes.new.items ≡ count + 1 }
{
    nodes.push_reserved(unlinked(0));
    for number in 0..count {
        nodes.push_reserved(unlinked(number));
    }
}

/// A node with no client, whose next free one is this.
fn unlinked(newer: u32) -> Node
    ensures older { result.older ≡ 0 }
    ensures newer { result.newer ≡ newer }
{
    Node {
        row: no_row(),
        older: 0,
        newer,
    }
}

/// What stands for a row in a node with no client.
fn no_row() -> Row {
    Row {
        ip: Ip::V4([0; 4]),
        port: 0,
        first: 0,
        last: 0,
        count: 0,
        mv: 0,
        flags: 0,
        score: 0,
        told: None,
    }
}
