//! Nodes of a client list: a row, and the numbers of its neighbours.
ghost use Rattle.std.specs.Prelude.{◌≡◌, ◌≢◌, ◌+◌, ◌<◌, vec_len};
ghost use Rattle.recency_links.specs.Nodes.{Pushes, SetsNewer, SetsOlder, SetsRow, Unlinks, node_at, older_at};

use recency::{Row, Steps};
use std::sync::ledger::Ledger;

/// A row of a client list, and the numbers of its neighbours. Node 0 holds no client: its newer
/// node is the oldest client's, and its older node the newest client's. A free node has the next
/// free one as its newer node, and 0 stands for none.
#[derive(Clone, Copy)]
pub(crate) struct Node {
    pub(crate) row: Row,
    pub(crate) older: u32,
    pub(crate) newer: u32,
}

/// Reads a node, which is one step.
pub(crate) fn read<L: Ledger>(nodes: &Vec<Node>, number: u32, steps: &mut Steps<L>) -> Node
    requires { number < vec_len nodes.now }
    ensures node { result ≡ node_at nodes.now.items number }
    ensures cost { steps.new ≡ steps.old + 1 }
{
    steps.tick();
    nodes[number as usize]
}

/// Links the neighbours of a node to each other.
pub(crate) fn unlink(nodes: &mut Vec<Node>, node: &Node)
    requires older { node.now.older < vec_len nodes.old }
    requires newer { node.now.newer < vec_len nodes.old }
    ensures { Unlinks nodes.old.items node.now nodes.new.items }
{
    set_newer(nodes, node.older, node.newer);
    set_older(nodes, node.newer, node.older);
}

/// Links a node behind the newest one.
pub(crate) fn push_newest(nodes: &mut Vec<Node>, number: u32)
    requires some { 0 < vec_len nodes.old }
    requires number { number < vec_len nodes.old }
    requires newest { older_at nodes.old.items 0 < vec_len nodes.old }
    requires used { number ≢ 0 }
    requires apart { number ≢ older_at nodes.old.items 0 }
    ensures { Pushes nodes.old.items number nodes.new.items }
{
    let newest = nodes[0].older;
    set_newer(nodes, newest, number);
    set_older(nodes, number, newest);
    set_newer(nodes, number, 0);
    set_older(nodes, 0, number);
}

/// Sets the newer link of a node.
pub(crate) fn set_newer(nodes: &mut Vec<Node>, number: u32, newer: u32)
    requires { number < vec_len nodes.old }
    ensures { SetsNewer nodes.old.items number newer nodes.new.items }
{
    nodes[number as usize].newer = newer;
}

/// Sets the older link of a node.
fn set_older(nodes: &mut Vec<Node>, number: u32, older: u32)
    requires { number < vec_len nodes.old }
    ensures { SetsOlder nodes.old.items number older nodes.new.items }
{
    nodes[number as usize].older = older;
}

/// Sets the row of a node.
pub(crate) fn set_row(nodes: &mut Vec<Node>, number: u32, row: Row)
    requires { number < vec_len nodes.old }
    ensures { SetsRow nodes.old.items number row nodes.new.items }
{
    nodes[number as usize].row = row;
}
