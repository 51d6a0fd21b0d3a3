//! Reads of a client list of linked nodes.
ghost use Rattle.std.specs.Prelude.{◌≡◌, ◌≤◌, ◌<◌, ◌+◌, IsSome, vec_len};
ghost use Rattle.recency.specs.Rows.{IsDistinct, after, find_row, newest, oldest};
ghost use Rattle.recency_links.specs.Lists.{IsList, row_unless_end, rows_of};

use crate::index::number_of;
use crate::links::Links;
use crate::node::{Node, read};
use net_addr::Ip;
use recency::{Row, Steps};
use std::sync::ledger::Ledger;

/// A client's row, or None where it isn't listed.
pub(crate) fn find_in<L: Ledger>(links: &Links, ip: &Ip, steps: &mut Steps<L>) -> Option<Row>
    requires list { IsList links.now }
    requires distinct { IsDistinct (rows_of links.now) }
    ensures row { result ≡ find_row (rows_of links.now) ip.now }
    ensures read { IsSome result → steps.old < steps.new }
    ensures counted { steps.old ≤ steps.new }
    ensures cost { steps.new ≤ steps.old + 1 }
{
    match number_of(&links.index, ip) {
        None => None,
        Some(number) => Some(read(&links.nodes, number, steps).row),
    }
}

/// The row after that of a listed client.
pub(crate) fn after_in<L: Ledger>(links: &Links, ip: &Ip, steps: &mut Steps<L>) -> Option<Row>
    requires list { IsList links.now }
    requires distinct { IsDistinct (rows_of links.now) }
    requires listed { IsSome (find_row (rows_of links.now) ip.now) }
    ensures row { result ≡ after (rows_of links.now) ip.now }
    ensures read { IsSome result → steps.old < steps.new }
    ensures counted { steps.old ≤ steps.new }
    ensures cost { steps.new ≤ steps.old + 2 }
{
    match number_of(&links.index, ip) {
        None => None,
        Some(number) => {
            let node = read(&links.nodes, number, steps);
            read_row(&links.nodes, node.newer, steps)
        }
    }
}

/// The oldest row, or None where the list is empty.
pub(crate) fn oldest_in<L: Ledger>(links: &Links, steps: &mut Steps<L>) -> Option<Row>
    requires { IsList links.now }
    ensures row { result ≡ oldest (rows_of links.now) }
    ensures read { IsSome result → steps.old < steps.new }
    ensures counted { steps.old ≤ steps.new }
    ensures cost { steps.new ≤ steps.old + 1 }
{
    let number = links.nodes[0].newer;
    read_row(&links.nodes, number, steps)
}

/// The newest row, or None where the list is empty.
pub(crate) fn newest_in(links: &Links) -> Option<Row>
    requires { IsList links.now }
    ensures { result ≡ newest (rows_of links.now) }
{
    let number = links.nodes[0].older;
    row_of(&links.nodes, number)
}

/// Reads the row of a node, or None at node 0, which has none.
fn read_row<L: Ledger>(nodes: &Vec<Node>, number: u32, steps: &mut Steps<L>) -> Option<Row>
    requires { number < vec_len nodes.now }
    ensures row { result ≡ row_unless_end nodes.now.items number }
    ensures read { IsSome result → steps.old < steps.new }
    ensures counted { steps.old ≤ steps.new }
    ensures cost { steps.new ≤ steps.old + 1 }
{
    if number == 0 {
        return None;
    }
    Some(read(nodes, number, steps).row)
}

/// The row of a node, or None of node 0, which has none.
fn row_of(nodes: &Vec<Node>, number: u32) -> Option<Row>
    requires { number < vec_len nodes.now }
    ensures { result ≡ row_unless_end nodes.now.items number }
{
    if number == 0 {
        return None;
    }
    Some(nodes[number as usize].row)
}
