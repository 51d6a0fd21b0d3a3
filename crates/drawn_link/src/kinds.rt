ghost use Rattle.std.specs.Prelude.{◌≡◌};
ghost use Rattle.worker.specs.Acts.{is_ignored, kind_by, kind_of_read, kind_of_verdict};

use server_core::{ReadReply, Reply, Verdict};
use sys_vars::Answer;
use worker::{ActKind, ReadKind, VerdictKind};

/// The kind of an act whose datagram was entered at this place, got this reply there, and is
/// answered at this time.
pub(crate) fn kind_by(place: u64, xmt: u64, reply: &Reply) -> ActKind
    ensures { result ≡ kind_by place xmt reply.now }
{
    match reply {
        Reply::Time(verdict) => ActKind::Time {
            place,
            xmt,
            verdict: kind_of_verdict(verdict),
        },
        Reply::Looked(answer) => ActKind::Control {
            mark: place,
            ignored: is_ignored(answer),
        },
        Reply::Read(reply) => ActKind::Read {
            place,
            reply: kind_of_read(reply),
        },
        Reply::Published | Reply::Swept(_) | Reply::Stopped => ActKind::Dropped(Some(place)),
    }
}

fn kind_of_verdict(verdict: &Verdict) -> VerdictKind
    ensures { result ≡ kind_of_verdict verdict.now }
{
    match verdict {
        Verdict::Ignored => VerdictKind::Ignored,
        Verdict::Limited => VerdictKind::Limited,
        Verdict::Rate => VerdictKind::Rate,
        Verdict::Served(_) => VerdictKind::Served,
    }
}

fn kind_of_read(reply: &ReadReply) -> ReadKind
    ensures { result ≡ kind_of_read reply.now }
{
    match reply {
        ReadReply::Ignored => ReadKind::Ignored,
        ReadReply::Prohibited => ReadKind::Prohibited,
        ReadReply::Refused => ReadKind::Refused,
        ReadReply::Page { .. } => ReadKind::Page,
    }
}

fn is_ignored(answer: &Answer) -> bool
    ensures { result ≡ is_ignored answer.now }
{
    match answer {
        Answer::Ignored => true,
        Answer::Given { .. } => false,
    }
}
