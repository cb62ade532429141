//! Whether two enumerations share a name, and whether the names of one are all among those of another:
//! `share_name`, `are_names_of`. Tables of names and places where two enumerations have the same name are kept in
//! `Sightings`; what is kept is a hint alone, since the names that stand at its places are looked at before it is
//! believed. It touches memory alone.

ghost use Rattle.std.specs.Prelude.{◌≡◌, ◌+◌, ◌||◌, ◌↔◌, ◌≤◌, true, length, is_some, bytes_eq};
ghost use Rattle.std.specs.Prelude.{IfOk, OnOk, IsTrue};
ghost use Rattle.std.specs.List.{list_any, list_all};
ghost use Rattle.spec_types.specs.TypeFaults as faults;
ghost use Rattle.spec_types.specs.NameTables as specs;

use indexmap::IndexMap;
use port_types::{Name, NoMemory};
use spec_names::PlaceTable;
use sqlite_items::at;
use std::alloc::Global;

/// Lists of at most so many names are walked, and nothing is kept of them.
const SHORT: usize = 16;

/// The names that a pick may be, with the number of the type that declares them, where one does. The types of all
/// ports are numbered through all components.
#[derive(Clone, Copy)]
pub struct NameSet<'a> {
    pub names: &'a [Name],
    pub number: Option<u32>,
}

/// For the numbers of types tables of their names, and for pairs of numbers the places of a name that both have.
#[derive(Drop)]
pub struct Sightings {
    tables: IndexMap<u32, PlaceTable>,
    pairs: IndexMap<(u32, u32), (u32, u32)>,
}

fn same_name(name: &Name, other: &Name) -> bool
    ensures { result ≡ bytes_eq name.now other.now }
{
    name.as_str() == other.as_str()
}

fn is_name_of(names: &[Name], name: &Name) -> bool
    ensures { result ≡ faults.is_name_of names.now name.now }
{
    names.iter().any(|other| same_name(name, other))
}

fn share_by_walks(names: &[Name], others: &[Name]) -> bool
    ensures { result ≡ faults.share_name names.now others.now }
{
    names.iter().any(|name| is_name_of(others, name))
}

fn are_names_by_walks(others: &[Name], names: &[Name]) -> bool
    ensures { result ≡ faults.are_names_of others.now names.now }
{
    names.iter().all(|name| is_name_of(others, name))
}

/// Puts a name with its place into a table.
fn put_name(alloc: Global, table: &mut PlaceTable, name: &Name, place: u32) -> Result<(), NoMemory>
    ensures { OnOk result ((text : _) → specs.is_entry table.new text
        ≡ (specs.is_entry table.old text || bytes_eq text name.now)) }
{
    table.add(alloc, name.as_str(), place)?;
    Ok(())
}

fn next_place(place: u32) -> Result<u32, NoMemory>
    ensures { IfOk result (λ next. next ≡ place + 1) }
{
    place.checked_add(1).ok_or(NoMemory)
}

/// A table of names with their places.
fn name_table(alloc: Global, names: &[Name]) -> Result<PlaceTable, NoMemory>
    ensures { IfOk result (λ table. specs.IsNameTable names.now table) }
{
    let mut table = PlaceTable::new(alloc);
    let mut place = 0;
    for name in names {
        put_name(alloc, &mut table, name, place)?;
        place = next_place(place)?;
    }
    Ok(table)
}

fn is_entry(table: &PlaceTable, name: &Name) -> bool
    ensures { result ≡ specs.is_entry table.now name.now }
{
    table.find(name.as_str()).is_some()
}

fn any_is_entry(table: &PlaceTable, names: &[Name]) -> bool
    ensures { result ≡ list_any (specs.is_entry table.now) names.now }
{
    names.iter().any(|name| is_entry(table, name))
}

fn all_are_entries(table: &PlaceTable, names: &[Name]) -> bool
    ensures { result ≡ list_all (specs.is_entry table.now) names.now }
{
    names.iter().all(|name| is_entry(table, name))
}

fn share_by_table(alloc: Global, names: &[Name], others: &[Name]) -> Result<bool, NoMemory>
    ensures { IfOk result (λ share. share ≡ faults.share_name names.now others.now) }
{
    let table = name_table(alloc, others)?;
    Ok(any_is_entry(&table, names))
}

fn are_names_by_table(alloc: Global, others: &[Name], names: &[Name]) -> Result<bool, NoMemory>
    ensures { IfOk result (λ are. are ≡ faults.are_names_of others.now names.now) }
{
    let table = name_table(alloc, others)?;
    Ok(all_are_entries(&table, names))
}

/// Whether the same name stands at these places.
fn same_at(names: &[Name], place: u32, others: &[Name], other_place: u32) -> bool
    ensures { result ≡ true → faults.share_name names.now others.now ≡ true }
{
    match at(names, place as usize) {
        None => false,
        Some(name) => is_at(others, other_place, name),
    }
}

/// Whether the name stands at this place.
fn is_at(names: &[Name], place: u32, name: &Name) -> bool
    ensures { result ≡ true → faults.is_name_of names.now name.now ≡ true }
{
    match at(names, place as usize) {
        None => false,
        Some(other) => same_name(name, other),
    }
}

/// The first place at which both have the same name.
fn first_same(names: &[Name], others: &[Name]) -> Result<Option<u32>, NoMemory> {
    let mut place = 0;
    for (name, other) in names.iter().zip(others.iter()) {
        if same_name(name, other) {
            return Ok(Some(place));
        }
        place = next_place(place)?;
    }
    Ok(None)
}

fn turned(places: (u32, u32)) -> (u32, u32)
    ensures first { result.0 ≡ places.1 }
    ensures second { result.1 ≡ places.0 }
{
    (places.1, places.0)
}

impl Sightings {
    pub fn new(alloc: Global) -> Sightings {
        Sightings {
            tables: IndexMap::new(alloc),
            pairs: IndexMap::new(alloc),
        }
    }

    /// Where the type with this number has the name, by a table that is made when it is first asked for.
    fn place(
        &mut self,
        alloc: Global,
        number: u32,
        names: &[Name],
        name: &Name,
    ) -> Result<Option<u32>, NoMemory> {
        if self.tables.get(&number).is_none() {
            let _before = self.tables.insert(number, name_table(alloc, names)?)?;
        }
        match self.tables.get(&number) {
            None => Ok(None),
            Some(table) => Ok(table.find(name.as_str())),
        }
    }

    /// Where the first of the names is that the type with this number has, in the list and in the type.
    fn search(
        &mut self,
        alloc: Global,
        names: &[Name],
        number: u32,
        others: &[Name],
    ) -> Result<Option<(u32, u32)>, NoMemory> {
        let mut place = 0;
        for name in names {
            if let Some(other_place) = self.place(alloc, number, others, name)? {
                return Ok(Some((place, other_place)));
            }
            place = next_place(place)?;
        }
        Ok(None)
    }

    /// The same for two types: at the same places, or by a table of the longer list.
    fn search_both(
        &mut self,
        alloc: Global,
        numbers: (u32, u32),
        names: &[Name],
        others: &[Name],
    ) -> Result<Option<(u32, u32)>, NoMemory> {
        if let Some(place) = first_same(names, others)? {
            Ok(Some((place, place)))
        } else if names.len() <= others.len() {
            self.search(alloc, names, numbers.1, others)
        } else {
            let found = self.search(alloc, others, numbers.0, names)?;
            Ok(found.map(turned))
        }
    }

    /// The same, kept for each pair of types.
    fn search_once(
        &mut self,
        alloc: Global,
        numbers: (u32, u32),
        names: &[Name],
        others: &[Name],
    ) -> Result<Option<(u32, u32)>, NoMemory> {
        if let Some(places) = self.pairs.get(&numbers).copied() {
            return Ok(Some(places));
        }
        let found = self.search_both(alloc, numbers, names, others)?;
        if let Some(places) = found {
            let _before = self.pairs.insert(numbers, places)?;
        }
        Ok(found)
    }

    /// Where two lists of names have the same one, if that is found.
    fn places(
        &mut self,
        alloc: Global,
        left: NameSet,
        right: NameSet,
    ) -> Result<Option<(u32, u32)>, NoMemory> {
        match (left.number, right.number) {
            (None, None) => Ok(None),
            (None, Some(number)) => self.search(alloc, left.names, number, right.names),
            (Some(number), None) => {
                let found = self.search(alloc, right.names, number, left.names)?;
                Ok(found.map(turned))
            }
            (Some(number), Some(other)) => {
                self.search_once(alloc, (number, other), left.names, right.names)
            }
        }
    }

    /// Whether a name that both have is found.
    fn show_shared(
        &mut self,
        alloc: Global,
        left: NameSet,
        right: NameSet,
    ) -> Result<bool, NoMemory>
        ensures { IfOk result (λ shown. shown ≡ true
            → faults.share_name left.entry.names.now right.entry.names.now ≡ true) }
    {
        match self.places(alloc, left, right)? {
            None => Ok(false),
            Some((place, other)) => Ok(same_at(left.names, place, right.names, other)),
        }
    }

    /// Whether the name is found in the type with this number: at the place that is tried first, or by the table.
    fn show_member(
        &mut self,
        alloc: Global,
        number: u32,
        names: &[Name],
        name: &Name,
        tried: u32,
    ) -> Result<bool, NoMemory>
        ensures { IfOk result (λ shown. shown ≡ true → faults.is_name_of names.now name.now ≡ true) }
    {
        if is_at(names, tried, name) {
            return Ok(true);
        }
        match self.place(alloc, number, names, name)? {
            None => Ok(false),
            Some(place) => Ok(is_at(names, place, name)),
        }
    }

    /// Whether each name is found in the type with this number.
    fn show_members(
        &mut self,
        alloc: Global,
        number: u32,
        others: &[Name],
        names: &[Name],
    ) -> Result<bool, NoMemory>
        ensures { IfOk result (λ shown. shown ≡ true → faults.are_names_of others.now names.now ≡ true) }
    {
        let mut place = 0;
        for name in names {
            if !self.show_member(alloc, number, others, name, place)? {
                return Ok(false);
            }
            place = next_place(place)?;
        }
        Ok(true)
    }

    /// Whether each name is found among the others.
    fn show_within(
        &mut self,
        alloc: Global,
        others: NameSet,
        names: &[Name],
    ) -> Result<bool, NoMemory>
        ensures { IfOk result (λ shown. shown ≡ true
            → faults.are_names_of others.entry.names.now names.now ≡ true) }
    {
        match others.number {
            None => Ok(false),
            Some(number) => self.show_members(alloc, number, others.names, names),
        }
    }
}

fn are_short(names: &[Name], others: &[Name]) -> bool
    ensures { IsTrue result ↔ ((length names.now ≤ 16) × (length others.now ≤ 16)) }
{
    names.len() <= SHORT && others.len() <= SHORT
}

/// Whether two lists of names share a name.
pub(crate) fn share_name(
    alloc: Global,
    sightings: &mut Sightings,
    left: NameSet,
    right: NameSet,
) -> Result<bool, NoMemory>
    ensures { IfOk result (λ share. share ≡ faults.share_name left.entry.names.now right.entry.names.now) }
{
    if are_short(left.names, right.names) {
        Ok(share_by_walks(left.names, right.names))
    } else if sightings.show_shared(alloc, left, right)? {
        Ok(true)
    } else {
        share_by_table(alloc, left.names, right.names)
    }
}

/// Whether the names are all among the others.
pub(crate) fn are_names_of(
    alloc: Global,
    sightings: &mut Sightings,
    others: NameSet,
    names: &[Name],
) -> Result<bool, NoMemory>
    ensures { IfOk result (λ are. are ≡ faults.are_names_of others.entry.names.now names.now) }
{
    if are_short(others.names, names) {
        Ok(are_names_by_walks(others.names, names))
    } else if sightings.show_within(alloc, others, names)? {
        Ok(true)
    } else {
        are_names_by_table(alloc, others.names, names)
    }
}
