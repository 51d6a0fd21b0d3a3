ghost use Rattle.std.specs.Prelude.{◌≡◌, ◌≢◌, ℕ, ◌+◌, ◌-◌, ◌<◌, ◌≤◌, ◌++◌, ◌↔◌, [], IfSome, IsOk, is_ok, length, replicate, slice_index_or, slice_set, if◌then◌else◌};
ghost use Rattle.wheel.specs.DueTimes.{IsFirstDue, IsNoneDue, due_at, without};
ghost use Rattle.wheel.specs.Passing.{IsFirstOf, earlier_of, is_sooner_than};

use std::alloc::{AllocError, Global};
use std::marker::Model;

/// Due times, one a key at most; a key is a number for which room was made.
#[derive(Drop)]
pub struct Wheel {
    due: Vec<Option<u64>>,
}

impl Model for Wheel {
    ghost use Rattle.std.specs.Prelude.{ℕ, ◌<◌, ◌^◌, List, Option, length};

    ghost Value = { List (Option ℕ) };

    ghost view = { λ w. w.due.items };

    ghost invariant = { λ w. length w.due.items < 2 ^ 32 };
}

impl Wheel {
    /// A wheel without room.
    pub fn new(alloc: Global) -> Self
        ensures { result ≡ [] }
    {
        Wheel {
            due: Vec::new(alloc),
        }
    }

    /// Makes room for the keys below `keys`; no due time changes. Memory is wanting only where
    /// there was no room.
    pub fn reserve(&mut self, keys: u32) -> Result<(), AllocError>
        ensures room { self.new ≡ (if is_ok result
            then self.old ++ replicate (keys - length self.old) None
            else self.old) }
        ensures due { (key : ℕ) → due_at self.new key ≡ due_at self.old key }
        ensures succeeds { keys ≤ length self.old → IsOk result }
    {
        let keys = keys as usize;
        if self.due.len() < keys {
            self.due.resize(keys, None)?;
        }
        Ok(())
    }

    /// Gives a key this due time alone, whatever it had before.
    pub fn set(&mut self, key: u32, at: u64)
        requires { key < length self.old }
        ensures { self.new ≡ slice_set self.old key (Some at) }
    {
        self.due[key as usize] = Some(at);
    }

    /// Gives a key this due time alone, or none.
    pub fn put(&mut self, key: u32, at: Option<u64>)
        requires { key < length self.old }
        ensures { self.new ≡ slice_set self.old key at }
    {
        self.due[key as usize] = at;
    }

    /// Gives each key this due time alone.
    pub fn set_all(&mut self, at: u64)
        ensures { self.new ≡ replicate (length self.old) (Some at) }
    {
        self.due.fill(Some(at));
    }

    /// Takes a key's due time away. A key for which there is no room has none. Takes no memory.
    pub fn clear(&mut self, key: u32)
        ensures cleared { due_at self.new key ≡ None }
        ensures others { (other : ℕ) → other ≢ key → due_at self.new other ≡ due_at self.old other }
        ensures room { length self.new ≡ length self.old }
    {
        if let Some(due) = self.due.get_mut(key as usize) {
            *due = None;
        }
    }

    /// Takes out the first key that is due at the moment `now`: the one of least due time, and of
    /// those the least key.
    pub fn take_due(&mut self, now: u64) -> Option<u32>
        ensures first { IfSome result (λ key. IsFirstDue self.old now key) }
        ensures room { IfSome result (λ key. key < length self.old) }
        ensures none { (result ≡ None) ↔ IsNoneDue self.old now }
        ensures after { self.new ≡ without self.old result }
    {
        let first = find_first(&self.due, now)?;
        self.due[first.key] = None;
        Some(first.key as u32)
    }
}

/// A key with its due time.
#[derive(Clone, Copy)]
struct Due {
    key: usize,
    at: u64,
}

/// Whether a due time comes before the first one so far, or is due where there is none.
fn is_sooner(at: u64, first: Option<Due>, now: u64) -> bool
    ensures { result ≡ is_sooner_than at first now }
{
    match first {
        None => at <= now,
        Some(first) => at < first.at,
    }
}

/// The first of the keys before this one, and of this one.
fn earlier(first: Option<Due>, key: usize, at: Option<u64>, now: u64) -> Option<Due>
    ensures { result ≡ earlier_of first key at now }
{
    match at {
        Some(at) if is_sooner(at, first, now) => Some(Due { key, at }),
        _ => first,
    }
}

/// The first key that is due.
fn find_first(due: &[Option<u64>], now: u64) -> Option<Due>
    ensures { IsFirstOf due.now now (length due.now) result }
{
    let mut first = None;
    for key in 0..due.len() {
        first = earlier(first, key, due[key], now);
    }
    first
}

#[cfg(test)]
mod tests {
    use super::*;

    #[test]
    fn keys_come_by_due_time_and_then_by_key(rt: HostRuntime) {
        let mut wheel = Wheel::new(rt.alloc());
        assert_eq!(rt; wheel.reserve(5), Ok(()));
        wheel.set(3, 20);
        wheel.set(1, 20);
        wheel.set(4, 10);
        wheel.set(0, u64::MAX);
        wheel.set(4, 30);
        wheel.set(2, 0);
        wheel.clear(2);
        wheel.clear(5);
        let cases = [
            (19, None),
            (20, Some(1)),
            (u64::MAX, Some(3)),
            (29, None),
            (30, Some(4)),
            (u64::MAX - 1, None),
            (u64::MAX, Some(0)),
            (u64::MAX, None),
        ];
        for (now, key) in cases {
            assert_eq!(rt; wheel.take_due(now), key, "at {now}");
        }
    }

    #[test]
    fn more_room_keeps_the_due_times(rt: HostRuntime) {
        let mut wheel = Wheel::new(rt.alloc());
        assert_eq!(rt; wheel.take_due(u64::MAX), None);
        assert_eq!(rt; wheel.reserve(1), Ok(()));
        wheel.set(0, 0);
        assert_eq!(rt; wheel.reserve(33), Ok(()));
        assert_eq!(rt; wheel.reserve(2), Ok(()));
        wheel.set(32, 0);
        assert_eq!(rt; wheel.take_due(0), Some(0));
        assert_eq!(rt; wheel.take_due(0), Some(32));
        assert_eq!(rt; wheel.take_due(u64::MAX), None);
    }
}
