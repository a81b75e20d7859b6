ghost use Rattle.std.specs.Prelude.{◌≡◌, ◌+◌, ◌-◌, ◌<◌, ◌≤◌, ◌^◌, [], ◌∷◌, ◌++◌, length, slice_get, vec_len, vec_capacity, OnOk, OnErr};
ghost use Rattle.std.specs.Option.{option_copied};

use crate::entries::Entry;
use std::alloc::{AllocError, Global};
use std::marker::Model;

/// A list of entries; places count from 0. Contracts see the entries, and for how many more there is room.
#[derive(Debug, Drop)]
pub struct History {
    entries: Vec<Entry>,
    room: usize,
}

impl Model for History {
    ghost use Rattle.std.specs.Prelude.{ℕ, ◌+◌, ◌≤◌, vec_len, vec_capacity};
    ghost use Rattle.strip_model.specs.Kept.{Kept, kept_code};

    ghost Value = { Kept };

    ghost coded = { kept_code };

    ghost view = { λ h. record { entries = h.entries.items; room = h.room } };

    ghost invariant = { λ h. vec_len h.entries + h.room ≤ vec_capacity h.entries };
}

impl History {
    pub fn new(alloc: Global) -> History
        ensures entries { result.entries ≡ [] }
        ensures room { result.room ≡ 0 }
    {
        History {
            entries: Vec::new(alloc),
            room: 0,
        }
    }

    /// The number of entries. A history has fewer than 2^63.
    pub fn len(&self) -> u64
        ensures value { result ≡ length self.now.entries }
        ensures small { length self.now.entries < 2 ^ 63 }
    {
        self.entries.len() as u64
    }

    /// The entry at a place.
    pub fn get(&self, place: u64) -> Option<&Entry>
        ensures { option_copied result ≡ slice_get self.now.entries place }
    {
        self.entries.get(place as usize)
    }

    /// Makes room for some entries more.
    pub fn reserve(&mut self, room: usize) -> Result<(), AllocError>
        ensures entries { self.new.entries ≡ self.old.entries }
        ensures ok { OnOk result (self.new.room ≡ room) }
        ensures err { OnErr result (self.new.room ≡ self.old.room) }
    {
        self.entries.reserve(room)?;
        self.room = room;
        Ok(())
    }

    /// Adds an entry in the room that was made.
    pub fn push(&mut self, entry: Entry)
        requires { 0 < self.old.room }
        ensures entries { self.new.entries ≡ self.old.entries ++ entry ∷ [] }
        ensures room { self.new.room + 1 ≡ self.old.room }
    {
        push_within(&mut self.entries, entry);
        self.room -= 1;
    }
}

fn push_within(entries: &mut Vec<Entry>, entry: Entry)
    requires { vec_len entries.old < vec_capacity entries.old }
    ensures items { entries.new.items ≡ entries.old.items ++ entry ∷ [] }
    ensures capacity { vec_capacity entries.old ≤ vec_capacity entries.new }
{
    let Ok(()) = entries.push(entry) else {
        unreachable!()
    };
}
