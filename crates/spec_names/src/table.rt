//! A table from names to places, in which the first of a name counts. Main item: `PlaceTable`. It allocates what it
//! is given.

ghost use Rattle.std.specs.Prelude.{◌≡◌, [], OnOk, OnErr, IfOk};
ghost use Rattle.spec_names.specs.Tables.{entry_place, with_place};

use indexmap::IndexMap;
use port_types::NoMemory;
use std::alloc::Global;
use std::marker::Model;

/// Names with their places, each name once. Contracts see the list of pairs.
#[derive(Drop)]
pub struct PlaceTable {
    places: IndexMap<String, u32>,
}

impl Model for PlaceTable {
    ghost use Rattle.std.specs.Prelude.{List, ℕ, map};
    ghost use Rattle.spec_names.specs.Tables.{bytes_of_entry};

    ghost Value = { List (List ℕ × ℕ) };

    ghost view = { λ t. map bytes_of_entry t.places.entries };
}

impl PlaceTable {
    /// A table without names.
    pub fn new(alloc: Global) -> PlaceTable
        ensures { result ≡ [] }
    {
        PlaceTable {
            places: IndexMap::new(alloc),
        }
    }

    /// The place of the first of this name.
    pub fn find(&self, name: &str) -> Option<u32>
        ensures { result ≡ entry_place self.now name.now }
    {
        self.places.get(name).copied()
    }

    /// Puts a name with its place, where it is not there yet. Its only error is want of memory.
    pub fn add(&mut self, alloc: Global, name: &str, place: u32) -> Result<(), NoMemory>
        ensures ok { OnOk result (self.new ≡ with_place self.old name.now place) }
        ensures err { OnErr result (self.new ≡ self.old) }
    {
        if self.find(name).is_none() {
            self.places.insert(String::from_str(alloc, name)?, place)?;
        }
        Ok(())
    }
}
