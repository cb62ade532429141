//! A table from names to places, in which the first of a name counts. It allocates what it keeps.

ghost use Rattle.std.specs.Prelude.{◌≡◌, [], OnOk};
ghost use Rattle.replay.specs.Reading.{place_by_key, with_key};

use indexmap::IndexMap;
use port_types::NoMemory;
use std::alloc::Global;
use std::marker::Model;

/// Names as bytes, with their places, each name once. Contracts see the list of pairs.
#[derive(Drop)]
pub struct PlacesByName {
    places: IndexMap<Vec<u8>, usize>,
}

impl Model for PlacesByName {
    ghost use Rattle.std.specs.Prelude.{List, ℕ, map};
    ghost use Rattle.replay.specs.Reading.{key_and_place};

    ghost Value = { List (List ℕ × ℕ) };

    ghost view = { λ t. map key_and_place t.places.entries };
}

impl PlacesByName {
    pub fn new(alloc: Global) -> PlacesByName
        ensures { result ≡ [] }
    {
        PlacesByName {
            places: IndexMap::new(alloc),
        }
    }

    /// The place of the first of this name.
    pub fn find(&self, name: &[u8]) -> Option<usize>
        ensures { result ≡ place_by_key self.now name.now }
    {
        self.places.get(name).copied()
    }

    /// Puts a name with its place, where it is not there yet.
    pub fn add(&mut self, alloc: Global, name: &[u8], place: usize) -> Result<(), NoMemory>
        ensures { OnOk result (self.new ≡ with_key self.old name.now place) }
    {
        if self.find(name).is_none() {
            self.places.insert(Vec::from_slice(alloc, name)?, place)?;
        }
        Ok(())
    }
}
