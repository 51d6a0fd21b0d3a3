ghost use Rattle.std.specs.Prelude.{◌≡◌, ◌≤◌, ◌<◌, ◌-◌, ◌^◌, true, false, IfOk, OnOk, OnErr, IsSome, None};
ghost use Rattle.access_rules.specs.Flags.{has_flag};
ghost use Rattle.recency.specs.Arrivals.{touched_row};
ghost use Rattle.recency.specs.Rows.{AreBefore, AreRows, IsClientList, find_row};
ghost use Rattle.server_core.specs.Verdicts.{arrival_rows, arrival_stamp, arrival_verdict, flags_on, is_ignored, rows_at, rows_told, verdict_at, visit_of};

use crate::class::Ask;
use crate::verdict::{Verdict, judge};
use access_rules::{IGNORE, LIMITED, flags_for, has_flag};
use ntp_packet::MODE_CLIENT;
use recency::{Recency, Row, Steps, Touched, Visit};
use std::alloc::AllocError;
use std::sync::ledger::{Blank, Ledger};
use sys_vars::Record;

/// Takes a request for the time that came at this moment: the client list gains it, and the stamp
/// moves on, but for a client that is ignored.
pub(crate) fn arrive<R: Recency, L: Ledger>(
    list: &mut R,
    stamp: &mut u64,
    rec: &Record,
    ask: &Ask,
    moment: u64,
    blank: Blank,
) -> Result<Verdict, AllocError>
    requires listed { IsClientList (R.limits list.old) (R.rows list.old) stamp.old }
    requires room { stamp.old < 2 ^ 64 - 1 }
    requires name { blank.name ≡ L.name }
    requires parts { blank.parts ≡ L.parts }
    requires some { 0 < blank.parts }
    ensures verdict { IfOk result (λ verdict. verdict
        ≡ arrival_verdict rec.now (R.limits list.old) (R.rows list.old) stamp.old ask.now moment) }
    ensures rows { OnOk result (R.rows list.new
        ≡ arrival_rows rec.now (R.limits list.old) (R.rows list.old) stamp.old ask.now moment) }
    ensures stamp { OnOk result (stamp.new ≡ arrival_stamp rec.now stamp.old ask.now moment) }

    // It wants memory for a new client only, and then all stays.
    ensures new { OnErr result (is_ignored rec.now ask.now ≡ false) }
    ensures unlisted { OnErr result (find_row (R.rows list.old) ask.now.from.ip ≡ None) }
    ensures rows_kept { OnErr result (R.rows list.new ≡ R.rows list.old) }
    ensures stamp_kept { OnErr result (stamp.new ≡ stamp.old) }

    ensures limits { R.limits list.new ≡ R.limits list.old }
    ensures listed { IsClientList (R.limits list.new) (R.rows list.new) stamp.new }
{
    let flags = flags_for(&rec.rules, &ask.from.ip);
    if has_flag(flags, IGNORE) {
        return Ok(Verdict::Ignored);
    }
    let drawn = moment.max(*stamp + 1);
    let verdict = touch_and_judge::<R, L>(list, rec, flags, ask, drawn, blank)?;
    *stamp = drawn;
    Ok(verdict)
}

/// Puts a request that drew this stamp into the client list, and judges it.
fn touch_and_judge<R: Recency, L: Ledger>(
    list: &mut R,
    rec: &Record,
    flags: u16,
    ask: &Ask,
    stamp: u64,
    blank: Blank,
) -> Result<Verdict, AllocError>
    requires flags { flags ≡ flags_on rec.now ask.now }
    requires before { AreBefore stamp (R.rows list.old) }
    requires name { blank.name ≡ L.name }
    requires parts { blank.parts ≡ L.parts }
    requires some { 0 < blank.parts }
    ensures verdict { IfOk result (λ verdict. verdict
        ≡ verdict_at rec.now (R.limits list.old) (R.rows list.old) stamp ask.now) }
    ensures rows { OnOk result (R.rows list.new
        ≡ rows_at rec.now (R.limits list.old) (R.rows list.old) stamp ask.now) }
    ensures unlisted { OnErr result (find_row (R.rows list.old) ask.now.from.ip ≡ None) }
    ensures rows_kept { OnErr result (R.rows list.new ≡ R.rows list.old) }
    ensures limits { R.limits list.new ≡ R.limits list.old }
    ensures kept { AreRows (R.limits list.new) (R.rows list.new) }
{
    let mut steps = Steps::<L>::begin(blank);
    let touched = list.touch(&visit_of(rec, flags, ask), stamp, &mut steps)?;
    let row = row_to_judge(list, flags, &touched);
    let verdict = judge(rec, flags, ask, stamp, row);
    tell(list, &verdict, ask, stamp);
    Ok(verdict)
}

/// The row of a client whose rate is limited, once its request has touched the list. That of another
/// is not wanted.
fn row_to_judge<R: Recency>(list: &R, flags: u16, touched: &Touched) -> Option<Row>
    ensures limited { has_flag flags LIMITED ≡ true
        → result ≡ touched_row touched.now (R.rows list.now) }
    ensures other { has_flag flags LIMITED ≡ false → result ≡ None }
{
    if !has_flag(flags, LIMITED) {
        return None;
    }
    match touched {
        Touched::Known | Touched::Added | Touched::Replaced(_) => list.newest(),
        Touched::Untracked => None,
    }
}

/// Keeps with a client that gets the kiss code when it was told.
fn tell<R: Recency>(list: &mut R, verdict: &Verdict, ask: &Ask, stamp: u64)
    requires listed { verdict.now ≡ Verdict.Rate
        → IsSome (find_row (R.rows list.old) ask.now.from.ip) }
    requires kept { AreRows (R.limits list.old) (R.rows list.old) }
    ensures rows { R.rows list.new ≡ rows_told verdict.now (R.rows list.old) ask.now stamp }
    ensures limits { R.limits list.new ≡ R.limits list.old }
    ensures kept { AreRows (R.limits list.new) (R.rows list.new) }
{
    match verdict {
        Verdict::Rate => list.tell(&ask.from.ip, stamp),
        Verdict::Ignored | Verdict::Limited | Verdict::Served(_) => {}
    }
}

/// What the client list keeps of a request.
fn visit_of(rec: &Record, flags: u16, ask: &Ask) -> Visit
    requires flags { flags ≡ flags_on rec.now ask.now }
    ensures { result ≡ visit_of rec.now ask.now }
{
    Visit {
        ip: ask.from.ip,
        port: ask.from.port,
        mv: MODE_CLIENT + 8 * ask.version,
        flags,
        rate: rec.rate,
    }
}
