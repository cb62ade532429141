//! The names of an interface: tables of its ports, contracts and enumerators, and the faults of these names. Main
//! function: `interface_tables`. It allocates these tables.

ghost use Rattle.std.specs.Prelude.{◌≡◌, ◌++◌, [], ◌∷◌, IfOk, OnOk, map, filter_map, flat_map, false, option_map};
ghost use Rattle.std.specs.Prelude.{is_some};
ghost use Rattle.std.specs.List.{cons_option};
ghost use Rattle.std.specs.Option.{option_map_or};
ghost use Rattle.oss_syntax.specs.Trees.{item_tree};
ghost use Rattle.spec_names.specs.Directory.{IsInterface};
ghost use Rattle.spec_names.specs.Interfaces.{directed_in, is_known_in, input_of_item, uses_of_item, clash_by};
ghost use Rattle.spec_names.specs.Interfaces.{enumerator_faults};
ghost use Rattle.spec_names.specs.NamesFaults.{interface_faults, lacking, clash_with, one_site, again, same_name};
ghost use Rattle.spec_names.specs.NamesFaults.{start_of, use_means, use_start, item_uses};
ghost use Rattle.spec_names.specs.Scopes.{contract_scope};
ghost use Rattle.spec_names.specs.Noting.{noted};
ghost use Rattle.spec_names.specs.Tables.{IsPlaceTable, entry_place};
ghost use Rattle.spec_names.specs.Uses.{use_at};
ghost use Rattle.spec_names.specs.Words.{word_at};

use crate::again::{note_again, table_of};
use crate::noting::{note, note_unless};
use crate::table::PlaceTable;
use crate::uses::{NameUse, put_uses};
use crate::words::{InterfaceWord, enumerator_words, interface_words, item_enumerators, put_all};
use oss_base::{FaultKind, FirstSite};
use oss_syntax::{InterfaceItem, Word};
use port_types::NoMemory;
use std::alloc::Global;

/// The names of an interface: its ports by their places, which of them are inputs, its contracts by their
/// places, and the enumerators of its port types.
#[derive(Drop)]
pub struct InterfaceTables {
    pub ports: PlaceTable,
    pub inputs: Vec<bool>,
    pub contracts: PlaceTable,
    pub enumerators: PlaceTable,
}

impl InterfaceTables {
    /// Whether the first port of this name is there and has this direction.
    pub(crate) fn has_directed(&self, input: bool, name: &str) -> bool
        ensures { result ≡ directed_in input self.now name.now }
    {
        match self.ports.find(name) {
            Some(place) => match self.inputs.get(place as usize) {
                Some(is_input) => *is_input == input,
                None => false,
            },
            None => false,
        }
    }

    pub(crate) fn has_port(&self, name: &str) -> bool
        ensures { result ≡ is_some (entry_place self.now.ports name.now) }
    {
        self.ports.find(name).is_some()
    }

    pub(crate) fn has_contract(&self, name: &str) -> bool
        ensures { result ≡ is_some (entry_place self.now.contracts name.now) }
    {
        self.contracts.find(name).is_some()
    }

    pub(crate) fn has_enumerator(&self, name: &str) -> bool
        ensures { result ≡ is_some (entry_place self.now.enumerators name.now) }
    {
        self.enumerators.find(name).is_some()
    }

    /// Whether a name means something in a formula of this interface.
    fn is_known(&self, name: NameUse<'_>) -> bool
        ensures { result ≡ is_known_in self.now (use_at name.entry) }
    {
        match name {
            NameUse::Bare(name) => {
                self.has_port(name.text.as_str()) || self.has_enumerator(name.text.as_str())
            }
            NameUse::OfSub(_, _) => false,
            NameUse::Wanted(port) => self.has_port(port.text.as_str()),
        }
    }
}

/// Puts whether the port that an item declares, if it does, is an input.
fn put_input(inputs: &mut Vec<bool>, item: &InterfaceItem) -> Result<(), NoMemory>
    ensures { OnOk result (inputs.new.items ≡ inputs.old.items ++ cons_option (input_of_item item.now) []) }
{
    match item {
        InterfaceItem::Port { input, .. } => {
            inputs.push(*input)?;
            Ok(())
        }
        InterfaceItem::Contract { .. } => Ok(()),
    }
}

/// Which ports are inputs.
fn inputs_of(alloc: Global, items: &[InterfaceItem]) -> Result<Vec<bool>, NoMemory>
    ensures { IfOk result (λ inputs. inputs.items ≡ filter_map input_of_item items.now) }
{
    let mut inputs = Vec::new(alloc);
    for item in items {
        put_input(&mut inputs, item)?;
    }
    Ok(inputs)
}

/// Notes a port whose name is an enumerator, at the later of the two.
fn note_clash(table: &PlaceTable, names: &[&Word], port: &Word, first: &mut FirstSite)
    ensures { first.new ≡ noted (one_site (clash_by table.now (map word_at names.now) port.now)) first.old }
{
    if let Some(place) = table.find(port.text.as_str()) {
        if let Some(name) = names.get(place as usize) {
            note(first, FaultKind::F9, port.span.start.max(name.span.start));
        }
    }
}

/// Notes each port whose name is an enumerator.
fn note_clashes(table: &PlaceTable, names: &[&Word], ports: &[&Word], first: &mut FirstSite)
    requires { IsPlaceTable (map word_at names.now) table.now }
    ensures { first.new ≡ noted (filter_map (clash_with (map word_at names.now)) (map word_at ports.now)) first.old }
{
    for port in ports {
        note_clash(table, names, port, first);
    }
}

/// Notes each enumerator that stands twice in one type.
fn note_enumerators(alloc: Global, names: &[Word], first: &mut FirstSite) -> Result<(), NoMemory>
    ensures { OnOk result (first.new ≡ noted (again FaultKind.F18 same_name start_of names.now) first.old) }
{
    let mut words = Vec::new(alloc);
    put_all(&mut words, names)?;
    let table = table_of(alloc, &words)?;
    note_again(FaultKind::F18, &table, &words, first);
    Ok(())
}

fn note_types(alloc: Global, items: &[InterfaceItem], first: &mut FirstSite) -> Result<(), NoMemory>
    ensures { OnOk result (first.new ≡ noted (flat_map enumerator_faults items.now) first.old) }
{
    for item in items {
        note_enumerators(alloc, item_enumerators(item), first)?;
    }
    Ok(())
}

/// Puts the names that the formulas of an item use at the end.
fn put_item_uses<'t>(uses: &mut Vec<NameUse<'t>>, item: &'t InterfaceItem) -> Result<(), NoMemory>
    ensures { OnOk result (map use_at uses.new.items ≡ map use_at uses.old.items ++ item_uses (item_tree item.now)) }
{
    match item {
        InterfaceItem::Port { .. } => Ok(()),
        InterfaceItem::Contract {
            assume,
            guarantee,
            ..
        } => {
            put_uses(uses, assume)?;
            put_uses(uses, guarantee)
        }
    }
}

fn uses_of<'t>(alloc: Global, items: &'t [InterfaceItem]) -> Result<Vec<NameUse<'t>>, NoMemory>
    ensures { IfOk result (λ uses. map use_at uses.items ≡ flat_map uses_of_item items.now) }
{
    let mut uses = Vec::new(alloc);
    for item in items {
        put_item_uses(&mut uses, item)?;
    }
    Ok(uses)
}

/// Notes each use of a name that means nothing.
fn note_unknown(tables: &InterfaceTables, uses: &[NameUse<'_>], first: &mut FirstSite)
    ensures { first.new ≡ noted (lacking FaultKind.F13 (is_known_in tables.now) use_start (map use_at uses.now))
        first.old }
{
    for name in uses {
        note_unless(
            first,
            tables.is_known(*name),
            FaultKind::F13,
            name.word().span.start,
        );
    }
}

/// The names of an interface, with their faults noted.
pub(crate) fn interface_tables(
    alloc: Global,
    items: &[InterfaceItem],
    first: &mut FirstSite,
) -> Result<InterfaceTables, NoMemory>
    ensures tables { IfOk result (λ tables. IsInterface (map item_tree items.now) tables) }
    ensures noted { OnOk result (first.new ≡ noted (interface_faults (map item_tree items.now)) first.old) }
{
    let port_name_words = interface_words(alloc, items, InterfaceWord::Port)?;
    let ports = table_of(alloc, &port_name_words)?;
    note_again(FaultKind::F9, &ports, &port_name_words, first);
    let contract_words = interface_words(alloc, items, InterfaceWord::Contract)?;
    let contracts = table_of(alloc, &contract_words)?;
    note_again(FaultKind::F9, &contracts, &contract_words, first);
    let names = enumerator_words(alloc, items)?;
    let enumerators = table_of(alloc, &names)?;
    note_clashes(&enumerators, &names, &port_name_words, first);
    note_types(alloc, items, first)?;
    let inputs = inputs_of(alloc, items)?;
    let tables = InterfaceTables {
        ports,
        inputs,
        contracts,
        enumerators,
    };
    let uses = uses_of(alloc, items)?;
    note_unknown(&tables, &uses, first);
    Ok(tables)
}
