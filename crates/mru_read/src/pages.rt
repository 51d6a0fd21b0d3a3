ghost use Rattle.std.specs.Prelude.{◌≡◌, ◌<◌, length, slice_index_or};

use mru_items::Pair;
use recency::Row;
use std::alloc::AllocError;
use std::marker::Model;

/// Rows of a client list, oldest arrival first.
#[derive(Drop)]
pub struct Rows {
    kept: Vec<Row>,
}

impl Model for Rows {
    ghost use Rattle.std.specs.Prelude.{List};
    ghost use Rattle.recency.specs.declared.row.Row.{Row};

    ghost Value = { List Row };

    ghost view = { λ r. r.kept.items };
}

impl Rows {
    /// These rows.
    pub fn of(rows: Vec<Row>) -> Rows
        ensures { result ≡ rows.items }
    {
        Rows { kept: rows }
    }

    /// How many rows there are.
    pub fn len(&self) -> usize
        ensures { result ≡ length self.now }
    {
        self.kept.len()
    }

    /// The row at a place, from 0.
    pub fn get(&self, place: usize) -> &Row
        requires { place < length self.now }
        ensures { result.now ≡ slice_index_or self.now place result.now }
    {
        &self.kept[place]
    }

    /// The rows, first to last.
    pub fn as_slice(&self) -> &[Row]
        ensures { result.now ≡ self.now }
    {
        self.kept.as_slice()
    }
}

/// A page of the client list. Stamps are in 32.32 seconds after the server's origin.
#[derive(Drop)]
pub struct Page {
    /// The clients that it shows, oldest arrival first.
    pub rows: Rows,
    /// The named pair behind which it begins; None for the list's beginning.
    pub confirmed: Option<Pair>,
    /// Whether no client that passes the filter is left behind it.
    pub ended: bool,
    /// When it was read.
    pub now: u64,
    /// When the newest client of the list last arrived; None for an empty list.
    pub newest: Option<u64>,
}

/// Why there is no page.
#[derive(Clone, Copy, Debug, PartialEq, Eq)]
pub enum PageFault {
    /// Pairs are named, and none stands in the list.
    NoneInPlace,
    /// Memory was wanting.
    NoMemory,
}

impl From<AllocError> for PageFault {
    ghost use Rattle.std.specs.Prelude.{◌≡◌};
    ghost use Rattle.mru_read.specs.declared.pages.PageFault.TheVariants.{NoMemory};

    ghost from_gives = { λ _ fault. fault ≡ NoMemory };

    fn from(_: AllocError) -> PageFault {
        PageFault::NoMemory
    }
}
