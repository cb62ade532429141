//! The enumerators that a refinement sees. Main item: `Visible`. Of the subcomponents and of the components that
//! declare an enumerator of a name it asks those that are fewer. It allocates a set of places.

ghost use Rattle.std.specs.Prelude.{◌≡◌, [], ◌≤◌, IfOk, OnOk, nat_eq};
ghost use Rattle.std.specs.List.{list_any};
ghost use Rattle.spec_names.specs.Enumerators.{HasPlacesOf, HasPlaceOf, KnowsVisible};
ghost use Rattle.spec_names.specs.Refinements.{names_around, sees_in};

use crate::enumerators::EnumeratorIndex;
use crate::refinements::Surroundings;
use indexmap::IndexSet;
use port_types::NoMemory;
use std::alloc::Global;
use std::marker::Model;

/// Places of components, each of them once. Contracts see the list of them.
#[derive(Drop)]
pub(crate) struct PlaceSet {
    places: IndexSet<u32>,
}

impl Model for PlaceSet {
    ghost use Rattle.std.specs.Prelude.{List, ℕ};

    ghost Value = { List ℕ };

    ghost view = { λ s. s.places.keys };
}

impl PlaceSet {
    fn new(alloc: Global) -> PlaceSet
        ensures { result ≡ [] }
    {
        PlaceSet {
            places: IndexSet::new(alloc),
        }
    }

    fn has(&self, place: u32) -> bool
        ensures { result ≡ list_any (nat_eq place) self.now }
    {
        self.places.contains(&place)
    }

    /// Puts the place of a component, if it exists.
    fn add(&mut self, component: Option<u32>) -> Result<(), NoMemory>
        ensures { OnOk result (HasPlaceOf self.old self.new component) }
    {
        match component {
            None => Ok(()),
            Some(place) => {
                let (_place, _added) = self.places.insert_full(place)?;
                Ok(())
            }
        }
    }
}

/// The places of the components that exist, of these.
pub(crate) fn places_of(alloc: Global, components: &[Option<u32>]) -> Result<PlaceSet, NoMemory>
    ensures { IfOk result (HasPlacesOf components.now) }
{
    let mut places = PlaceSet::new(alloc);
    for component in components {
        places.add(*component)?;
    }
    Ok(places)
}

/// What the enumerators that a refinement sees are looked up in: what is around it, the index of all enumerators,
/// and the places of the components of its subcomponents.
#[derive(Clone, Copy)]
pub(crate) struct Visible<'d> {
    pub surroundings: Surroundings<'d>,
    pub index: &'d EnumeratorIndex,
    pub places: &'d PlaceSet,
}

impl<'d> Visible<'d> {
    /// Whether the refinement sees an enumerator of this name.
    pub(crate) fn has(self, name: &str) -> bool
        requires { KnowsVisible (names_around self.surroundings) self.index.now self.places.now }
        ensures { result ≡ sees_in (names_around self.entry.surroundings) name.now }
    {
        let declarers = self.index.declarers(name);
        if self.surroundings.subs.components.len() <= declarers.len() {
            self.surroundings.sees(name)
        } else {
            self.surroundings.own.has_enumerator(name) || self.has_place_among(declarers)
        }
    }

    fn has_place_among(self, places: &[u32]) -> bool
        ensures { result ≡ list_any (λ place. list_any (nat_eq place) self.entry.places.now) places.now }
    {
        places.iter().any(|place| self.places.has(*place))
    }
}
