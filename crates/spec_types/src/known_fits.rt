//! The pairs of ports of which the one was found to be fit as the value of the other: `KnownFits`. So no pair is
//! decided again. Where a pair stands is a hint alone: it is compared before it is believed. It touches memory alone.

ghost use Rattle.std.specs.Prelude.{◌≡◌, ◌&&◌, ◌++◌, ◌∷◌, [], List, true, OnOk};
ghost use Rattle.std.specs.List.{All};
ghost use Rattle.spec_types.specs.Walks.{Interface};
ghost use Rattle.spec_types.specs.Fitting as fitting;

use crate::port_places::PortPlace;
use crate::scope::number;
use indexmap::IndexMap;
use port_types::NoMemory;
use sqlite_items::at;
use std::alloc::Global;

/// A port, and one that may be its value.
#[derive(Clone, Copy)]
pub(crate) struct FittingPorts {
    pub target: PortPlace,
    pub source: PortPlace,
}

/// The pairs that were found to fit, and for the numbers of their types the place of the last one.
#[derive(Drop)]
pub(crate) struct KnownFits {
    pub kept: Vec<FittingPorts>,
    places: IndexMap<(u32, u32), u32>,
}

/// Whether two ports are the same.
fn is_same_port(port: PortPlace, other: PortPlace) -> bool
    ensures { result ≡ fitting.is_same_port port other }
{
    port.component == other.component && port.port == other.port
}

/// Whether this pair is that one.
fn is_pair(pair: FittingPorts, target: PortPlace, source: PortPlace) -> bool
    ensures { result ≡ (fitting.is_same_port pair.target target && fitting.is_same_port pair.source source) }
{
    is_same_port(pair.target, target) && is_same_port(pair.source, source)
}

impl KnownFits {
    pub(crate) fn new(alloc: Global) -> KnownFits
        ensures { result.kept.items ≡ [] }
    {
        KnownFits {
            kept: Vec::new(alloc),
            places: IndexMap::new(alloc),
        }
    }

    /// Whether the pair that is kept at this place is this one.
    fn is_at(&self, place: u32, target: PortPlace, source: PortPlace) -> bool
        ensures { result ≡ true → ((scopes : List Interface) → All (fitting.IsFitting scopes) self.now.kept.items
            → fitting.AreFitting scopes target source) }
    {
        match at(self.kept.as_slice(), place as usize) {
            None => false,
            Some(pair) => is_pair(*pair, target, source),
        }
    }

    /// Whether the pair is kept.
    pub(crate) fn tell(&self, target: PortPlace, source: PortPlace) -> bool
        ensures { result ≡ true → ((scopes : List Interface) → All (fitting.IsFitting scopes) self.now.kept.items
            → fitting.AreFitting scopes target source) }
    {
        match self
            .places
            .get(&(target.type_number, source.type_number))
            .copied()
        {
            None => false,
            Some(place) => self.is_at(place, target, source),
        }
    }

    /// Keeps the pair.
    fn keep(&mut self, target: PortPlace, source: PortPlace) -> Result<(), NoMemory>
        ensures { OnOk result (self.new.kept.items
            ≡ self.old.kept.items ++ record { target = target; source = source } ∷ []) }
    {
        let place = number(self.kept.len())?;
        let _before = self
            .places
            .insert((target.type_number, source.type_number), place)?;
        self.kept.push(FittingPorts { target, source })?;
        Ok(())
    }

    /// Keeps the pair, if it was found to fit.
    pub(crate) fn keep_if(
        &mut self,
        fit: bool,
        target: PortPlace,
        source: PortPlace,
    ) -> Result<(), NoMemory>
        ensures { OnOk result ((scopes : List Interface) → (fit ≡ true → fitting.AreFitting scopes target source)
            → All (fitting.IsFitting scopes) self.old.kept.items → All (fitting.IsFitting scopes) self.new.kept.items) }
    {
        if fit {
            self.keep(target, source)?;
            Ok(())
        } else {
            Ok(())
        }
    }
}
