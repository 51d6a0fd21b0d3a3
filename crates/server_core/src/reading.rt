ghost use Rattle.std.specs.Prelude.{◌≡◌, ◌≤◌, ◌<◌, ◌-◌, ◌^◌, IfOk, OnOk, OnErr};
ghost use Rattle.mru_read.specs.Pages.{page_of};
ghost use Rattle.sys_vars.specs.Status.{system_status_of};
ghost use Rattle.server_core.specs.ReadReplies.{IsTellableRead, page_reply, read_reply, read_stamp};

use crate::class::ReadAsk;
use crate::read_reply::ReadReply;
use access_rules::{IGNORE, NOMRULIST, NOQUERY, flags_for, has_flag};
use mru_read::{PageFault, page};
use recency::{Recency, Steps};
use std::alloc::{AllocError, Global};
use std::sync::ledger::{Blank, Ledger};
use sys_vars::{Record, system_status};

/// Takes a read of the client list that came at this moment: the stamp moves on where there is a
/// page.
pub(crate) fn read_list<R: Recency, L: Ledger>(
    alloc: Global,
    list: &R,
    stamp: &mut u64,
    rec: &Record,
    ask: &ReadAsk,
    moment: u64,
    blank: Blank,
) -> Result<ReadReply, AllocError>
    requires room { stamp.old < 2 ^ 64 - 1 }
    requires name { blank.name ≡ L.name }
    requires parts { blank.parts ≡ L.parts }
    requires some { 0 < blank.parts }
    ensures reply { IfOk result (λ reply. reply
        ≡ read_reply rec.now (R.rows list.now) stamp.old ask.now moment) }
    ensures tellable { IfOk result IsTellableRead }
    ensures stamp { OnOk result (stamp.new ≡ read_stamp
        (read_reply rec.now (R.rows list.now) stamp.old ask.now moment) stamp.old moment) }
    ensures later { stamp.old ≤ stamp.new }
    ensures stamp_kept { OnErr result (stamp.new ≡ stamp.old) }
{
    let flags = flags_for(&rec.rules, &ask.from.ip);
    if has_flag(flags, IGNORE) {
        return Ok(ReadReply::Ignored);
    }
    if has_flag(flags, NOQUERY) {
        return Ok(ReadReply::Ignored);
    }
    if has_flag(flags, NOMRULIST) {
        return Ok(ReadReply::Prohibited);
    }
    let drawn = moment.max(*stamp + 1);
    let reply = page_reply::<R, L>(alloc, list, rec, ask, drawn, blank)?;
    if let ReadReply::Page { .. } = &reply {
        *stamp = drawn;
    }
    Ok(reply)
}

/// The page of a read at this time, or that there is none.
fn page_reply<R: Recency, L: Ledger>(
    alloc: Global,
    list: &R,
    rec: &Record,
    ask: &ReadAsk,
    now: u64,
    blank: Blank,
) -> Result<ReadReply, AllocError>
    requires name { blank.name ≡ L.name }
    requires parts { blank.parts ≡ L.parts }
    requires some { 0 < blank.parts }
    ensures reply { IfOk result (λ reply. reply ≡ page_reply (system_status_of rec.now.system)
        (page_of (R.rows list.now) ask.now.request now)) }
    ensures tellable { IfOk result IsTellableRead }
{
    let mut steps = Steps::<L>::begin(blank);
    match page(alloc, list, &ask.request, now, &mut steps) {
        Ok(page) => Ok(ReadReply::Page {
            status: system_status(&rec.system),
            page,
        }),
        Err(PageFault::NoneInPlace) => Ok(ReadReply::Refused),
        Err(PageFault::NoMemory) => Err(AllocError),
    }
}
