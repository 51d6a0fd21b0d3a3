ghost use Rattle.std.specs.Prelude.{◌≡◌, ◌≤◌, ◌<◌, ◌+◌, ◌++◌, ◌∷◌, [], min, length, IfSome, drop, slice_get, vec_len, vec_capacity};
ghost use Rattle.std.specs.List.{remove};
ghost use Rattle.recency.specs.Arrivals.{HasRoom, IsTouched, admitted, row_after};
ghost use Rattle.recency.specs.Places.{place_of};
ghost use Rattle.recency.specs.Rows.{AreRows, told_row, told_rows};

use crate::arriving::{new_row, row_after};
use crate::limits::Limits;
use crate::list::Recency;
use crate::reading::{admission, aged, place_of, row_at};
use crate::row::Row;
use crate::steps::Steps;
use crate::visit::{Touched, Visit};
use net_addr::{Ip, is_same_ip};
use std::alloc::{AllocError, Global};
use std::marker::Model;
use std::sync::ledger::Ledger;

/// A client list as a vector of rows. Only `begin` takes memory: it has room for maxdepth rows.
#[derive(Drop)]
pub struct PlainList {
    limits: Limits,
    rows: Vec<Row>,
}

impl Model for PlainList {
    ghost use Rattle.std.specs.Prelude.{◌≤◌, vec_capacity};
    ghost use Rattle.recency.specs.Rows.{AreRows, ClientList};

    ghost Value = { ClientList };

    ghost view = { λ list. record { limits = list.limits; rows = list.rows.items } };

    ghost invariant = { λ list.
        AreRows list.limits list.rows.items × (list.limits.maxdepth ≤ vec_capacity list.rows) };
}

impl Recency for PlainList {
    ghost use Rattle.std.specs.Prelude.{◌+◌, length};

    ghost rows = { λ list. list.rows };

    ghost limits = { λ list. list.limits };

    ghost touch_steps = { λ list. length list.rows + 1 };

    ghost sweep_steps = { λ list. length list.rows };

    ghost find_steps = { λ list. length list.rows + 1 };

    ghost newer_steps = { λ list. length list.rows + 1 };

    fn begin(alloc: Global, under: Limits) -> Result<PlainList, AllocError> {
        let rows = Vec::with_capacity(alloc, under.maxdepth as usize)?;
        Ok(PlainList {
            limits: under,
            rows,
        })
    }

    fn touch<L: Ledger>(
        &mut self,
        visit: &Visit,
        stamp: u64,
        steps: &mut Steps<L>,
    ) -> Result<Touched, AllocError> {
        Ok(arrive(&self.limits, &mut self.rows, visit, stamp, steps))
    }

    fn tell(&mut self, ip: &Ip, stamp: u64) {
        tell_in(&mut self.rows, ip, stamp);
    }

    fn sweep<L: Ledger>(&mut self, moment: u64, steps: &mut Steps<L>) -> u32 {
        let gone = aged(&self.limits, &self.rows, moment, steps);
        drop_front(&mut self.rows, gone);
        gone as u32
    }

    fn find<L: Ledger>(&self, ip: &Ip, steps: &mut Steps<L>) -> Option<Row> {
        let place = place_of(&self.rows, ip, steps);
        row_at(&self.rows, place, steps)
    }

    fn newer_than<L: Ledger>(&self, ip: Option<&Ip>, steps: &mut Steps<L>) -> Option<Row> {
        match ip {
            None => row_at(&self.rows, 0, steps),
            Some(ip) => {
                let place = place_of(&self.rows, ip, steps);
                row_at(&self.rows, place + 1, steps)
            }
        }
    }

    fn len(&self) -> u32 {
        self.rows.len() as u32
    }

    fn newest(&self) -> Option<Row> {
        self.rows.last().copied()
    }

    fn limits(&self) -> Limits {
        self.limits
    }
}

/// Takes an arrival in, within the room that there is.
fn arrive<L: Ledger>(
    limits: &Limits,
    rows: &mut Vec<Row>,
    visit: &Visit,
    stamp: u64,
    steps: &mut Steps<L>,
) -> Touched
    requires kept { AreRows limits.now rows.old.items }
    requires room { limits.now.maxdepth ≤ vec_capacity rows.old }
    ensures touched { IsTouched limits.now rows.old.items visit.now stamp result rows.new.items }
    ensures capacity { vec_capacity rows.old ≤ vec_capacity rows.new }
    ensures cost { steps.new ≡ steps.old
        + min (place_of rows.old.items visit.now.ip + 1) (length rows.old.items) + 1 }
{
    let place = place_of(rows, &visit.ip, steps);
    if place < rows.len() {
        steps.tick();
        move_to_end(rows, place, visit, stamp);
        return Touched::Known;
    }
    let answer = admission(limits, rows, stamp, steps);
    admit(rows, &answer, new_row(visit, stamp));
    answer
}

/// Drops so many of the first rows.
fn drop_front(rows: &mut Vec<Row>, count: usize)
    requires { count ≤ vec_len rows.old }
    ensures items { rows.new.items ≡ drop count rows.old.items }
    ensures capacity { vec_capacity rows.new ≡ vec_capacity rows.old }
{
    let left = rows.len() - count;
    rows.rotate_left(count);
    rows.truncate(left);
}

/// Takes the row at a place out, and adds it at the end as an arrival changes it.
fn move_to_end(rows: &mut Vec<Row>, place: usize, visit: &Visit, stamp: u64)
    requires place { place < vec_len rows.old }
    requires room { vec_len rows.old ≤ vec_capacity rows.old }
    ensures items { IfSome (slice_get rows.old.items place) (λ row.
        rows.new.items ≡ remove rows.old.items place ++ row_after row visit.now stamp ∷ []) }
    ensures capacity { vec_capacity rows.old ≤ vec_capacity rows.new }
{
    let row = rows.remove(place);
    rows.push_reserved(row_after(&row, visit, stamp));
}

/// Follows the answer to a client without a row.
fn admit(rows: &mut Vec<Row>, answer: &Touched, row: Row)
    requires room { HasRoom answer.now (vec_len rows.old) (vec_capacity rows.old) }
    ensures items { rows.new.items ≡ admitted answer.now rows.old.items row }
    ensures capacity { vec_capacity rows.old ≤ vec_capacity rows.new }
{
    match answer {
        Touched::Known | Touched::Untracked => {}
        Touched::Added => rows.push_reserved(row),
        Touched::Replaced(_) => {
            rows.remove(0);
            rows.push_reserved(row);
        }
    }
}

/// Keeps with a client when it was told to slow down.
fn tell_in(rows: &mut Vec<Row>, ip: &Ip, stamp: u64)
    ensures items { rows.new.items ≡ told_rows rows.old.items ip.now stamp }
    ensures capacity { vec_capacity rows.new ≡ vec_capacity rows.old }
{
    for place in 0..rows.len() {
        tell_row(&mut rows[place], ip, stamp);
    }
}

/// Keeps in a client's row when it was told to slow down, and leaves another's.
fn tell_row(row: &mut Row, ip: &Ip, stamp: u64)
    ensures { row.new ≡ told_row ip.now stamp row.old }
{
    if is_same_ip(&row.ip, ip) {
        row.told = Some(stamp);
    }
}
