ghost use Rattle.std.specs.Prelude.{◌≡◌, ◌≤◌, ◌<◌, List, [], ◌∷◌, ◌++◌, None, length, take, IsTrue, OnOk, OnErr, slice_get};
ghost use Rattle.std.specs.Option.{option_copied};
ghost use Rattle.mac_keys.specs.Tables.{IsKeyTable, key_of, place_of, with_key};
ghost use Rattle.mac_keys.specs.declared.tables.TheConstants.{MAX_KEYS};

use crate::keys::Key;
use std::alloc::{AllocError, Global};
use std::marker::Model;

/// The most keys of a table.
pub const MAX_KEYS: usize = 1024;

/// At most 1,024 keys with distinct ids, ascending by id.
#[derive(Drop)]
pub struct KeyTable {
    keys: Vec<Key>,
}

impl Model for KeyTable {
    ghost use Rattle.std.specs.Prelude.{List};
    ghost use Rattle.mac_keys.specs.declared.keys.Key.{Key};
    ghost use Rattle.mac_keys.specs.Tables.{IsKeyTable};

    ghost Value = { List Key };

    ghost view = { λ t. t.keys.items };

    ghost invariant = { λ t. IsKeyTable t.keys.items };
}

impl KeyTable {
    /// No keys.
    pub fn new(alloc: Global) -> KeyTable
        ensures { result ≡ [] }
    {
        KeyTable {
            keys: Vec::new(alloc),
        }
    }

    /// How many keys there are.
    pub fn len(&self) -> usize
        ensures len { result ≡ length self.now }
        ensures table { IsKeyTable self.now }
    {
        self.keys.len()
    }

    /// The key at a place, counted from 0 in the order of the ids.
    pub fn get(&self, place: usize) -> &Key
        requires { place < length self.now }
        ensures key { slice_get self.now place ≡ Some result.now }
        ensures table { IsKeyTable self.now }
    {
        &self.keys[place]
    }

    /// The key with this id, found by halving.
    pub fn find(&self, id: u32) -> Option<&Key>
        ensures { option_copied result ≡ key_of self.now id }
    {
        let place = self.place(id);
        let key = self.keys.get(place)?;
        if key.id == id { Some(key) } else { None }
    }

    /// Adds a key at the place of its id.
    pub fn add(&mut self, key: Key) -> Result<(), AllocError>
        requires room { length self.old < MAX_KEYS }
        requires new { key_of self.old key.id ≡ None }
        ensures added { OnOk result (self.new ≡ with_key self.old key) }
        ensures no_memory { OnErr result (self.new ≡ self.old) }
    {
        let place = self.place(key.id);
        self.keys.insert(place, key)?;
        Ok(())
    }

    /// How many keys have a lower id.
    fn place(&self, id: u32) -> usize
        ensures place { result ≡ place_of self.now id }
        ensures within { result ≤ length self.now }
        ensures table { IsKeyTable self.now }
    {
        self.keys.as_slice().partition_point(|key| key.id < id)
    }
}

#[cfg(test)]
mod tests {
    use super::*;
    use crate::keys::{Algorithm, Secret};
    use std::test::Fail;

    fn key(id: u32) -> Key
        ensures { result.id ≡ id }
    {
        Key {
            id,
            algorithm: Algorithm::Md5,
            secret: Secret::of(b"s"),
        }
    }

    #[test]
    fn keys_stand_by_id_and_are_found(rt: HostRuntime) -> Result<(), Fail> {
        let mut keys = KeyTable::new(rt.alloc());
        for id in [7, 1, 65535, 3] {
            assert!(rt; keys.find(id).is_none());
            assert!(rt; keys.len() < 4);
            keys.add(key(id))?;
        }
        assert_eq!(rt; keys.len(), 4);
        for (place, id) in [(0, 1), (1, 3), (2, 7), (3, 65535)] {
            assert!(rt; place < keys.len());
            assert_eq!(rt; keys.get(place).id, id);
            assert_eq!(rt; keys.find(id).map(|key| key.id), Some(id));
        }
        assert!(rt; keys.find(2).is_none());
        Ok(())
    }
}
