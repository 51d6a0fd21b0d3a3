//! A client list of linked nodes, and what is done to it.
ghost use Rattle.std.specs.Prelude.{◌≡◌, ◌≤◌, ◌<◌, ◌+◌, ◌^◌, ◌++◌, ◌∷◌, [], length, OnOk, OnErr, IfSome, IsSome, Some, None, drop};
ghost use Rattle.recency.specs.Arrivals.{IsTouched, new_row, row_after};
ghost use Rattle.recency.specs.Rows.{IsDistinct, find_row, others, told_rows};
ghost use Rattle.recency_links.specs.Lists.{IsList, rows_of};
ghost use Rattle.recency_links.specs.Nodes.{node_at, newer_at};
ghost use Rattle.recency_links.specs.Numbers.{number_at};

use crate::arriving::{new_row, row_after};
use crate::index::{forget, note, number_of};
use crate::node::{Node, push_newest, read, set_newer, set_row, unlink};
use indexmap::IndexMap;
use net_addr::Ip;
use recency::{Row, Steps, Visit};
use std::alloc::AllocError;
use std::sync::ledger::Ledger;

/// Linked nodes, and the index that finds them.
#[derive(Drop)]
pub(crate) struct Links {
    pub(crate) nodes: Vec<Node>,
    pub(crate) free: u32,
    pub(crate) count: u32,
    pub(crate) index: IndexMap<Ip, u32>,
}

/// Moves a listed client's row to the newest end, as an arrival changes it.
pub(crate) fn renew<L: Ledger>(
    links: &mut Links,
    number: u32,
    visit: &Visit,
    stamp: u64,
    steps: &mut Steps<L>,
)
    requires list { IsList links.old }
    requires distinct { IsDistinct (rows_of links.old) }
    requires number { number_at links.old.index.entries visit.now.ip ≡ Some number }
    ensures list { IsList links.new }
    ensures rows { IfSome (find_row (rows_of links.old) visit.now.ip) (λ row.
        rows_of links.new ≡ others (rows_of links.old) visit.now.ip ++ row_after row visit.now stamp ∷ []) }
    ensures found { IsSome (find_row (rows_of links.old) visit.now.ip) }
    ensures nodes { length links.new.nodes.items ≡ length links.old.nodes.items }
    ensures cost { steps.new ≡ steps.old + 1 }
{
    let node = read(&links.nodes, number, steps);
    unlink(&mut links.nodes, &node);
    set_row(&mut links.nodes, number, row_after(&node.row, visit, stamp));
    push_newest(&mut links.nodes, number);
}

/// Adds the row of a client that had none, where there is a free node.
pub(crate) fn add<L: Ledger>(
    links: &mut Links,
    visit: &Visit,
    stamp: u64,
    steps: &mut Steps<L>,
) -> Result<(), AllocError>
    requires list { IsList links.old }
    requires room { links.old.count + 1 < length links.old.nodes.items }
    requires most { length links.old.nodes.items ≤ 2 ^ 32 }
    requires absent { find_row (rows_of links.old) visit.now.ip ≡ None }
    ensures list { IsList links.new }
    ensures rows { OnOk result (
        rows_of links.new ≡ rows_of links.old ++ new_row visit.now stamp ∷ []) }
    ensures no_memory { OnErr result (rows_of links.new ≡ rows_of links.old) }
    ensures nodes { length links.new.nodes.items ≡ length links.old.nodes.items }
    ensures counted { steps.old ≤ steps.new }
    ensures cost { steps.new ≤ steps.old + 1 }
{
    let number = links.free;
    note(&mut links.index, visit.ip, number)?;
    let node = read(&links.nodes, number, steps);
    links.free = node.newer;
    set_row(&mut links.nodes, number, new_row(visit, stamp));
    push_newest(&mut links.nodes, number);
    links.count += 1;
    Ok(())
}

/// Puts the row of a client that had none in the place of the oldest one, as the newest.
pub(crate) fn replace<L: Ledger>(
    links: &mut Links,
    visit: &Visit,
    stamp: u64,
    steps: &mut Steps<L>,
) -> Result<(), AllocError>
    requires list { IsList links.old }
    requires distinct { IsDistinct (rows_of links.old) }
    requires some { 0 < links.old.count }
    requires absent { find_row (rows_of links.old) visit.now.ip ≡ None }
    ensures list { IsList links.new }
    ensures rows { OnOk result (
        rows_of links.new ≡ drop 1 (rows_of links.old) ++ new_row visit.now stamp ∷ []) }
    ensures no_memory { OnErr result (rows_of links.new ≡ rows_of links.old) }
    ensures nodes { length links.new.nodes.items ≡ length links.old.nodes.items }
    ensures counted { steps.old ≤ steps.new }
    ensures cost { steps.new ≤ steps.old + 1 }
{
    let number = links.nodes[0].newer;
    note(&mut links.index, visit.ip, number)?;
    let node = read(&links.nodes, number, steps);
    forget(&mut links.index, &node.row.ip);
    unlink(&mut links.nodes, &node);
    set_row(&mut links.nodes, number, new_row(visit, stamp));
    push_newest(&mut links.nodes, number);
    Ok(())
}

/// Takes out the oldest row, whose node is this one, and puts its node on the free chain.
pub(crate) fn drop_oldest(links: &mut Links, number: u32, node: &Node)
    requires list { IsList links.old }
    requires distinct { IsDistinct (rows_of links.old) }
    requires some { 0 < links.old.count }
    requires number { number ≡ newer_at links.old.nodes.items 0 }
    requires node { node.now ≡ node_at links.old.nodes.items number }
    ensures list { IsList links.new }
    ensures rows { rows_of links.old ≡ node.now.row ∷ rows_of links.new }
    ensures nodes { length links.new.nodes.items ≡ length links.old.nodes.items }
{
    forget(&mut links.index, &node.row.ip);
    unlink(&mut links.nodes, node);
    set_newer(&mut links.nodes, number, links.free);
    links.free = number;
    links.count -= 1;
}

/// Keeps with a listed client when it was told to slow down.
pub(crate) fn tell(links: &mut Links, number: u32, ip: &Ip, stamp: u64)
    requires list { IsList links.old }
    requires distinct { IsDistinct (rows_of links.old) }
    requires number { number_at links.old.index.entries ip.now ≡ Some number }
    ensures list { IsList links.new }
    ensures rows { rows_of links.new ≡ told_rows (rows_of links.old) ip.now stamp }
    ensures nodes { length links.new.nodes.items ≡ length links.old.nodes.items }
{
    let mut row = links.nodes[number as usize].row;
    row.told = Some(stamp);
    set_row(&mut links.nodes, number, row);
}
