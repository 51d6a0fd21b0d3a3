ghost use Rattle.std.specs.Prelude.{◌≡◌, drop};
ghost use Rattle.std.specs.Vec.Iter.{into_iter_items};
ghost use Rattle.planned_link.specs.Fates.{first_fate};

use std::marker::Model;
use std::vec::IntoIter;

/// What becomes of a datagram of an answer.
#[derive(Clone, Copy, Debug, PartialEq, Eq)]
pub enum Fate {
    /// It is lost.
    Lost,
    /// It is queued twice, at the end.
    Twice,
    /// It is queued at the front.
    Front,
    /// It is queued at the end.
    Last,
}

/// The fates of the datagrams of answers, in the order of these.
#[derive(Drop)]
pub struct Fates {
    kept: Vec<Fate>,
}

impl Model for Fates {
    ghost use Rattle.std.specs.Prelude.{List};
    ghost use Rattle.planned_link.specs.declared.fate.Fate.{Fate};

    ghost Value = { List Fate };

    ghost view = { λ f. f.kept.items };
}

impl Fates {
    /// These fates.
    pub fn of(fates: Vec<Fate>) -> Fates
        ensures { result ≡ fates.items }
    {
        Fates { kept: fates }
    }

    /// The fates, one after another.
    pub(crate) fn in_turn(self) -> IntoIter<Fate>
        ensures { into_iter_items result ≡ self }
    {
        self.kept.into_iter()
    }
}

/// The next fate: `Last` where there is none any more.
pub(crate) fn next_fate(fates: &mut IntoIter<Fate>) -> Fate
    ensures first { result ≡ first_fate (into_iter_items fates.old) }
    ensures rest { into_iter_items fates.new ≡ drop 1 (into_iter_items fates.old) }
{
    match fates.next() {
        Some(fate) => fate,
        None => Fate::Last,
    }
}
