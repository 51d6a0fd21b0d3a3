ghost use Rattle.std.specs.Prelude.{◌<◌, List};
ghost use Rattle.recency.specs.Arrivals.{touched_rows};
ghost use Rattle.recency.specs.Rows.{AreBefore, IsClientList, told_rows};
ghost use Rattle.recency.specs.Sweeps.{swept_rows};
ghost use Rattle.recency.specs.declared.row.Row.{Row};

use crate::limits::Limits;
use crate::visit::Visit;
use net_addr::Ip;

/// A client list up to a stamp may take in an arrival at any later one.
pub fn later_stamps_are_after(limits: &Limits, before: u64, stamp: u64)
    ghost rows: { List Row }
    requires list { IsClientList limits.now rows before }
    requires later { before < stamp }
    ensures { AreBefore stamp rows }
{}

/// An arrival at a later stamp leaves a client list, up to that stamp.
pub fn touches_keep(limits: &Limits, before: u64, visit: &Visit, stamp: u64)
    ghost rows: { List Row }
    requires list { IsClientList limits.now rows before }
    requires later { before < stamp }
    ensures { IsClientList limits.now (touched_rows limits.now rows visit.now stamp) stamp }
{}

/// A sweep at any moment leaves a client list, up to the same stamp.
pub fn sweeps_keep(limits: &Limits, stamp: u64, moment: u64)
    ghost rows: { List Row }
    requires { IsClientList limits.now rows stamp }
    ensures { IsClientList limits.now (swept_rows limits.now rows moment) stamp }
{}

/// A client told at any stamp leaves a client list, up to the same stamp.
pub fn tellings_keep(limits: &Limits, stamp: u64, ip: &Ip, told: u64)
    ghost rows: { List Row }
    requires { IsClientList limits.now rows stamp }
    ensures { IsClientList limits.now (told_rows rows ip.now told) stamp }
{}
