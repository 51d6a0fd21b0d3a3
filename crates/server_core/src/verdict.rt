ghost use Rattle.std.specs.Prelude.{◌≡◌, Some, IsSome, if◌then◌else◌};
ghost use Rattle.server_core.specs.Verdicts.{basis_of, is_denied, is_due, is_over_rate, is_to_be_told, rate_verdict};

use crate::class::Ask;
use crate::reply::Basis;
use access_rules::{KOD, LIMITED, NOSERVE, NOTRUST, Rate, VERSION, has_flag, over};
use ntp_packet::CURRENT_VERSION;
use recency::Row;
use sys_vars::Record;

/// What becomes of a request for the time.
#[derive(Clone, Copy, Debug, PartialEq, Eq)]
pub enum Verdict {
    /// No answer: the restrict flags of the client refuse it.
    Ignored,
    /// No answer: the client is over its rate.
    Limited,
    /// The kiss code RATE: the client is over its rate, and is told so.
    Rate,
    /// The time, from these values.
    Served(Basis),
}

/// The verdict on a request of a client with these flags that drew this stamp. The row is the
/// client's after it, None where the client is not listed or its rate is not limited.
pub(crate) fn judge(rec: &Record, flags: u16, ask: &Ask, stamp: u64, row: Option<Row>) -> Verdict
    ensures value { result ≡ (if is_denied flags ask.now then Verdict.Ignored
        else rate_verdict rec.now flags stamp row) }
    ensures told { result ≡ Verdict.Rate → IsSome row }
{
    if is_denied(flags, ask) {
        return Verdict::Ignored;
    }
    match row {
        Some(row) => judge_rate(rec, flags, stamp, &row),
        None => Verdict::Served(basis_of(rec)),
    }
}

/// The verdict on a client that is listed and may have the time.
fn judge_rate(rec: &Record, flags: u16, stamp: u64, row: &Row) -> Verdict
    ensures { result ≡ rate_verdict rec.now flags stamp (Some row.now) }
{
    if !is_over_rate(flags, &rec.rate, row) {
        return Verdict::Served(basis_of(rec));
    }
    if is_to_be_told(flags, &rec.rate, stamp, row) {
        Verdict::Rate
    } else {
        Verdict::Limited
    }
}

/// What a reply is made of.
fn basis_of(rec: &Record) -> Basis
    ensures { result ≡ basis_of rec.now }
{
    Basis {
        system: rec.system,
        clock: rec.clock,
    }
}

/// Whether the flags refuse the time: to all, to other versions, or to those without a good MAC.
fn is_denied(flags: u16, ask: &Ask) -> bool
    ensures { result ≡ is_denied flags ask.now }
{
    if has_flag(flags, NOSERVE) {
        return true;
    }
    if has_flag(flags, VERSION) && ask.version != CURRENT_VERSION {
        return true;
    }
    has_flag(flags, NOTRUST) && !ask.auth.is_good()
}

/// Whether the flags limit the client's rate, and it is over.
fn is_over_rate(flags: u16, rate: &Rate, row: &Row) -> bool
    ensures { result ≡ is_over_rate flags rate.now row.now }
{
    has_flag(flags, LIMITED) && over(rate, row.score)
}

/// Whether a client that is over its rate is told so.
fn is_to_be_told(flags: u16, rate: &Rate, stamp: u64, row: &Row) -> bool
    ensures { result ≡ is_to_be_told flags rate.now stamp row.now }
{
    has_flag(flags, KOD) && is_due(rate.spacing, stamp, row.told)
}

/// Whether a client was not told yet, or so long ago.
fn is_due(spacing: u64, stamp: u64, told: Option<u64>) -> bool
    ensures { result ≡ is_due spacing stamp told }
{
    match told {
        Some(told) => stamp.saturating_sub(told) >= spacing,
        None => true,
    }
}
