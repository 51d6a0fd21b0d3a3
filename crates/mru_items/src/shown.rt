ghost use Rattle.std.specs.Prelude.{◌≡◌, ◌<◌, length, slice_index_or};

use net_addr::Addr;
use std::marker::Model;

/// What a page tells of a client. Times are timestamps of 32.32 seconds.
#[derive(Clone, Copy, Debug, PartialEq, Eq)]
pub struct ShownRow {
    /// The client, and the port of its last arrival.
    pub addr: Addr,
    /// When it last arrived.
    pub last: u64,
    /// When it first arrived.
    pub first: u64,
    /// How often it arrived.
    pub count: u32,
    /// The mode of its last arrival, and 8 times the version.
    pub mv: u8,
    /// The restrict flags that its last arrival had.
    pub flags: u16,
}

/// What is told of clients, oldest arrival first.
#[derive(Drop)]
pub struct Shown {
    kept: Vec<ShownRow>,
}

impl Model for Shown {
    ghost use Rattle.std.specs.Prelude.{List};
    ghost use Rattle.mru_items.specs.declared.shown.ShownRow.{ShownRow};

    ghost Value = { List ShownRow };

    ghost view = { λ s. s.kept.items };
}

impl Shown {
    /// These rows.
    pub fn of(rows: Vec<ShownRow>) -> Shown
        ensures { result ≡ rows.items }
    {
        Shown { kept: rows }
    }

    /// How many rows there are.
    pub fn len(&self) -> usize
        ensures { result ≡ length self.now }
    {
        self.kept.len()
    }

    /// The row at a place, from 0.
    pub fn get(&self, place: usize) -> &ShownRow
        requires { place < length self.now }
        ensures { result.now ≡ slice_index_or self.now place result.now }
    {
        &self.kept[place]
    }

    /// The rows, first to last.
    pub fn as_slice(&self) -> &[ShownRow]
        ensures { result.now ≡ self.now }
    {
        self.kept.as_slice()
    }
}
