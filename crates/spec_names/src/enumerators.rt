//! Which components declare an enumerator of a name: an index over all components that is made once, so that a
//! refinement with many subcomponents need not ask each of them for each name. Main function: `enumerator_index`.
//! It allocates what it is given.

ghost use Rattle.std.specs.Prelude.{◌≡◌, ◌<◌, ◌++◌, [], ◌∷◌, false, ℕ, List, IfOk, OnOk, length, map, is_some};
ghost use Rattle.std.specs.Prelude.{slice_index_or, slice_set};
ghost use Rattle.std.specs.List.{list_any};
ghost use Rattle.oss_syntax.specs.Trees.{component_trees};
ghost use Rattle.spec_names.specs.Enumerators.{declarers_in, declares, IsIndex, HasDeclarer, HasDeclarerOfAll};
ghost use Rattle.spec_names.specs.Enumerators.{IsIndexOf};
ghost use Rattle.spec_names.specs.Scopes.{is_named};
ghost use Rattle.spec_names.specs.Tables.{entry_place};
ghost use Rattle.spec_names.specs.Words.{word_at};

use crate::table::PlaceTable;
use crate::words::enumerator_words;
use oss_syntax::{TreeComponent, Word};
use port_types::NoMemory;
use sqlite_items::Items;
use std::alloc::Global;

/// A number for each name of an enumerator, and for each number the places of the components that declare it.
#[derive(Drop)]
pub(crate) struct EnumeratorIndex {
    pub numbers: PlaceTable,
    pub declarers: Vec<Items<u32>>,
}

/// Puts the place of a component into a row.
fn put_place(rows: &mut Vec<Items<u32>>, row: usize, place: u32) -> Result<(), NoMemory>
    requires { row < length rows.old.items }
    ensures { OnOk result (rows.new.items ≡ slice_set rows.old.items row
        (slice_index_or rows.old.items row [] ++ place ∷ [])) }
{
    rows[row].push(place)?;
    Ok(())
}

impl EnumeratorIndex {
    fn new(alloc: Global) -> EnumeratorIndex
        ensures index { IsIndex result }
        ensures empty { (text : List ℕ) (place : ℕ) → declares result text place ≡ false }
    {
        EnumeratorIndex {
            numbers: PlaceTable::new(alloc),
            declarers: Vec::new(alloc),
        }
    }

    /// The places of the components that declare an enumerator of this name.
    pub(crate) fn declarers(&self, name: &str) -> &[u32]
        ensures { result.now ≡ declarers_in self.now name.now }
    {
        match self.numbers.find(name) {
            None => &[],
            Some(number) => match self.declarers.get(number as usize) {
                None => &[],
                Some(places) => places.as_slice(),
            },
        }
    }

    /// Puts a name that is not there yet. Where there are 2^32 or more it answers want of memory.
    fn add_new(&mut self, alloc: Global, name: &str, place: u32) -> Result<(), NoMemory>
        requires index { IsIndex self.old }
        requires absent { is_some (entry_place self.old.numbers name.now) ≡ false }
        ensures index { OnOk result (IsIndex self.new) }
        ensures declarer { OnOk result (HasDeclarer self.old self.new name.now place) }
    {
        let number = self.declarers.as_slice().len();
        if number > u32::MAX as usize {
            return Err(NoMemory);
        }
        self.numbers.add(alloc, name, number as u32)?;
        self.declarers.push(Items::from_slice(alloc, &[place])?)?;
        Ok(())
    }

    /// Puts the component at a place, which declares an enumerator of this name.
    fn add(&mut self, alloc: Global, name: &str, place: u32) -> Result<(), NoMemory>
        requires { IsIndex self.old }
        ensures index { OnOk result (IsIndex self.new) }
        ensures declarer { OnOk result (HasDeclarer self.old self.new name.now place) }
    {
        match self.numbers.find(name) {
            None => self.add_new(alloc, name, place),
            Some(number) => {
                put_place(&mut self.declarers, number as usize, place)?;
                Ok(())
            }
        }
    }

    /// Puts the component at a place, which declares enumerators of these names.
    fn add_all(&mut self, alloc: Global, words: &[&Word], place: u32) -> Result<(), NoMemory>
        requires { IsIndex self.old }
        ensures index { OnOk result (IsIndex self.new) }
        ensures declarer { OnOk result (HasDeclarerOfAll self.old self.new
            (λ text. list_any (is_named text) (map word_at words.now)) place) }
    {
        for word in words {
            self.add(alloc, word.text.as_str(), place)?;
        }
        Ok(())
    }
}

/// The index of the enumerators of all components. Where there are 2^32 or more components it answers want of memory.
pub(crate) fn enumerator_index(
    alloc: Global,
    components: &[TreeComponent],
) -> Result<EnumeratorIndex, NoMemory>
    ensures { IfOk result (IsIndexOf (component_trees components.now)) }
{
    if components.len() > u32::MAX as usize {
        return Err(NoMemory);
    }
    let mut index = EnumeratorIndex::new(alloc);
    for (place, component) in components.iter().enumerate() {
        let words = enumerator_words(alloc, component.interface.as_slice())?;
        index.add_all(alloc, words.as_slice(), place as u32)?;
    }
    Ok(index)
}
