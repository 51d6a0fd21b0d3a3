ghost use Rattle.std.specs.Prelude.{◌≡◌, ◌<◌, [], length, IfOk};
ghost use Rattle.recency.specs.Rows.{IsClientList, find_row};
ghost use Rattle.server_core.specs.States.{stop_in};

use crate::journal::Journal;
use crate::op::Stop;
use fixed_time::Ntp64;
use net_addr::Ip;
use recency::{Limits, Recency, Row, Steps};
use recency_links::LinkedList;
use std::alloc::{AllocError, Global};
use std::marker::{Brand, Model};
use std::sync::ledger::{Blank, Ledger};
use sys_vars::Record;

/// A server for one thread, which takes one operation after another, and the journal of those that
/// it took.
#[derive(Drop)]
pub struct Book {
    pub(crate) alloc: Global,
    pub(crate) origin: Ntp64,
    // What was published before the first operation.
    pub(crate) opening: Record,
    pub(crate) journal: Journal,
    pub(crate) list: LinkedList,
    pub(crate) stamp: u64,
}

impl Model for Book {
    ghost use Rattle.std.specs.Prelude.{◌+◌, ◌≤◌, length};
    ghost use Rattle.recency.specs.Rows.{IsClientList};
    ghost use Rattle.server_core.specs.declared.op.TheConstants.{MAX_ENTRIES};
    ghost use Rattle.server_core.specs.Books.{BookParts};
    ghost use Rattle.server_core.specs.Journals.{published_in};

    ghost Value = { BookParts };

    ghost view = { λ b. record {
      state = record {
        published = published_in b.opening b.journal;
        rows = ⟦<LinkedList as Recency>⟧.rows b.list;
        stamp = b.stamp;
        limits = ⟦<LinkedList as Recency>⟧.limits b.list;
        origin = b.origin;
      };
      journal = b.journal;
    } };

    ghost invariant = { λ b. IsClientList (⟦<LinkedList as Recency>⟧.limits b.list)
        (⟦<LinkedList as Recency>⟧.rows b.list) b.stamp
        × (length b.journal ≤ MAX_ENTRIES + 1) };
}

impl Book {
    /// A server with this record published, an empty client list and the stamp 0. The room of its
    /// journal and of its list is taken here.
    pub fn begin(
        alloc: Global,
        rec: Record,
        limits: Limits,
        origin: Ntp64,
    ) -> Result<Book, AllocError>
        ensures published { IfOk result (λ book. book.state.published ≡ rec) }
        ensures rows { IfOk result (λ book. book.state.rows ≡ []) }
        ensures stamp { IfOk result (λ book. book.state.stamp ≡ 0) }
        ensures limits { IfOk result (λ book. book.state.limits ≡ limits) }
        ensures origin { IfOk result (λ book. book.state.origin ≡ origin) }
        ensures journal { IfOk result (λ book. book.journal ≡ []) }
    {
        let journal = Journal::begin(alloc)?;
        let list = LinkedList::begin(alloc, limits)?;
        Ok(Book {
            alloc,
            origin,
            opening: rec,
            journal,
            list,
            stamp: 0,
        })
    }

    /// The same server with an empty journal, which has the room of the old one.
    pub fn reopen(self) -> Book
        ensures state { result.state ≡ self.state }
        ensures journal { result.journal ≡ [] }
    {
        let (opening, journal) = self.journal.emptied(self.opening);
        Book {
            alloc: self.alloc,
            origin: self.origin,
            opening,
            journal,
            list: self.list,
            stamp: self.stamp,
        }
    }

    /// The operations that it took since it began, or was opened again, oldest first.
    pub fn journal(&self) -> &Journal
        ensures { result.now ≡ self.now.journal }
    {
        &self.journal
    }

    /// Who stopped the server, and why, where it was stopped.
    pub fn stop(&self) -> Option<Stop>
        ensures { result ≡ stop_in self.now.journal }
    {
        self.journal.stop()
    }

    /// The record that is published.
    pub fn latest(&self) -> &Record
        ensures { result.now ≡ self.now.state.published }
    {
        self.journal.latest(&self.opening)
    }

    /// How many clients the client list has.
    pub fn listed(&self) -> u32
        ensures listed { result ≡ length self.now.state.rows }
        ensures kept { IsClientList self.now.state.limits self.now.state.rows self.now.state.stamp }
    {
        self.list.len()
    }

    /// The row of a client in the client list, None where it is not listed.
    pub fn row(&self, ip: &Ip) -> Option<Row>
        ensures { result ≡ find_row self.now.state.rows ip.now }
    {
        find_row::<Brand>(&self.list, ip, Blank::new(1))
    }

    /// The last stamp that was drawn, 0 before the first.
    pub fn stamp(&self) -> u64
        ensures { result ≡ self.now.state.stamp }
    {
        self.stamp
    }

    /// The number of the publication.
    pub fn epoch(&self) -> u64
        ensures { result ≡ self.now.state.published.epoch }
    {
        self.latest().epoch
    }

    /// The time at which the server's clocks begin.
    pub fn origin(&self) -> Ntp64
        ensures { result ≡ self.now.state.origin }
    {
        self.origin
    }
}

/// The row of a client, where its look-up is not counted.
fn find_row<L: Ledger>(list: &LinkedList, ip: &Ip, blank: Blank) -> Option<Row>
    requires name { blank.name ≡ L.name }
    requires parts { blank.parts ≡ L.parts }
    requires some { 0 < blank.parts }
    ensures { result ≡ find_row (⟦<LinkedList as Recency>⟧.rows list.now) ip.now }
{
    let mut steps = Steps::<L>::begin(blank);
    list.find(ip, &mut steps)
}
