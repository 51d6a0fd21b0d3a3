ghost use Rattle.std.specs.Prelude.{◌≡◌, ◌<◌, length, slice_index_or};

use edge_traits::Text;
use std::alloc::{AllocError, AllocFailed};
use std::marker::Model;

/// A name, and its value where it has one.
#[derive(Drop)]
pub struct Item {
    pub name: Text,
    pub value: Option<Text>,
}

/// Items in the order of their text.
#[derive(Drop)]
pub struct Items {
    kept: Vec<Item>,
}

impl Model for Items {
    ghost use Rattle.std.specs.Prelude.{List};
    ghost use Rattle.mode6_frame.specs.declared.items.Item.{Item};

    ghost Value = { List Item };

    ghost view = { λ i. i.kept.items };
}

impl Items {
    /// These items.
    pub fn of(items: Vec<Item>) -> Items
        ensures { result ≡ items.items }
    {
        Items { kept: items }
    }

    /// How many items there are.
    pub fn len(&self) -> usize
        ensures { result ≡ length self.now }
    {
        self.kept.len()
    }

    /// The item at a place, from 0.
    pub fn get(&self, i: usize) -> &Item
        requires { i < length self.now }
        ensures { result.now ≡ slice_index_or self.now i result.now }
    {
        &self.kept[i]
    }
}

/// Why a text has no items.
#[derive(Clone, Copy, Debug, PartialEq, Eq)]
pub enum ItemFault {
    /// So many octets stand before the first one at which no text of items goes on.
    At { place: u32 },
    /// Memory was wanting.
    NoMemory,
}

impl From<AllocError> for ItemFault {
    ghost use Rattle.std.specs.Prelude.{◌≡◌};
    ghost use Rattle.mode6_frame.specs.declared.items.ItemFault.TheVariants.{NoMemory};

    ghost from_gives = { λ _ fault. fault ≡ NoMemory };

    fn from(_: AllocError) -> ItemFault {
        ItemFault::NoMemory
    }
}

impl<T: Drop> From<AllocFailed<T>> for ItemFault {
    ghost use Rattle.std.specs.Prelude.{◌≡◌};
    ghost use Rattle.mode6_frame.specs.declared.items.ItemFault.TheVariants.{NoMemory};

    ghost from_gives = { λ _ fault. fault ≡ NoMemory };

    fn from(_: AllocFailed<T>) -> ItemFault {
        ItemFault::NoMemory
    }
}
