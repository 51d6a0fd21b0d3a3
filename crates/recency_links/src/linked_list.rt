ghost use Rattle.std.specs.Prelude.{◌≡◌, ◌≤◌, ◌<◌, ◌+◌, ◌^◌, [], length, IfOk};
ghost use Rattle.recency_links.specs.Lists.{IsList, rows_of};

use crate::filling::fill;
use crate::links::Links;
use crate::reading::{after_in, find_in, newest_in, oldest_in};
use crate::sweeping::sweep_in;
use crate::touching::{arrive, tell_in};
use indexmap::IndexMap;
use net_addr::Ip;
use recency::{Limits, Recency, Row, Steps, Touched, Visit};
use std::alloc::{AllocError, Global};
use std::marker::Model;
use std::sync::ledger::Ledger;

/// A client list as linked nodes, found by an index: each call but a sweep has a constant cost.
/// `begin` takes the memory of maxdepth rows and of their index; after that only the row of a new
/// client can want memory, where the index is rebuilt.
#[derive(Drop)]
pub struct LinkedList {
    limits: Limits,
    links: Links,
}

impl Model for LinkedList {
    ghost use Rattle.recency.specs.Rows.{ClientList};
    ghost use Rattle.recency_links.specs.Lists.{IsLinked, rows_of};

    ghost Value = { ClientList };

    ghost view = { λ list. record { limits = list.limits; rows = rows_of list.links } };

    ghost invariant = { λ list. IsLinked list.limits list.links };
}

impl Recency for LinkedList {
    ghost use Rattle.std.specs.Prelude.{◌+◌, length};

    ghost rows = { λ list. list.rows };

    ghost limits = { λ list. list.limits };

    ghost touch_steps = { λ list. 2 };

    ghost sweep_steps = { λ list. length list.rows + 1 };

    ghost find_steps = { λ list. 1 };

    ghost newer_steps = { λ list. 2 };

    fn begin(alloc: Global, under: Limits) -> Result<LinkedList, AllocError> {
        let links = begin_links(alloc, under.maxdepth)?;
        Ok(LinkedList {
            limits: under,
            links,
        })
    }

    fn touch<L: Ledger>(
        &mut self,
        visit: &Visit,
        stamp: u64,
        steps: &mut Steps<L>,
    ) -> Result<Touched, AllocError> {
        arrive(&self.limits, &mut self.links, visit, stamp, steps)
    }

    fn tell(&mut self, ip: &Ip, stamp: u64) {
        tell_in(&mut self.links, ip, stamp);
    }

    fn sweep<L: Ledger>(&mut self, moment: u64, steps: &mut Steps<L>) -> u32 {
        sweep_in(&mut self.links, &self.limits, moment, steps)
    }

    fn find<L: Ledger>(&self, ip: &Ip, steps: &mut Steps<L>) -> Option<Row> {
        find_in(&self.links, ip, steps)
    }

    fn newer_than<L: Ledger>(&self, ip: Option<&Ip>, steps: &mut Steps<L>) -> Option<Row> {
        match ip {
            None => oldest_in(&self.links, steps),
            Some(ip) => after_in(&self.links, ip, steps),
        }
    }

    fn len(&self) -> u32 {
        self.links.count
    }

    fn newest(&self) -> Option<Row> {
        newest_in(&self.links)
    }

    fn limits(&self) -> Limits {
        self.limits
    }
}

/// No rows, and the room of so many nodes and of their index.
fn begin_links(alloc: Global, maxdepth: u32) -> Result<Links, AllocError>
    requires { maxdepth < 2 ^ 31 }
    ensures list { IfOk result IsList }
    ensures rows { IfOk result (λ links. rows_of links ≡ []) }
    ensures nodes { IfOk result (λ links. length links.nodes.items ≡ maxdepth + 1) }
{
    let room = maxdepth as usize + 1;
    let mut nodes = Vec::with_capacity(alloc, room)?;
    fill(&mut nodes, maxdepth);
    let index = IndexMap::with_capacity(alloc, room)?;
    Ok(Links {
        nodes,
        free: maxdepth,
        count: 0,
        index,
    })
}
