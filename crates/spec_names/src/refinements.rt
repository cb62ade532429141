//! The names of a refinement: a table of its subcomponents with their components, and the faults of the names of
//! subcomponents, targets and refined contracts. Main item: `Surroundings`. It allocates lists of what it is given.

ghost use Rattle.std.specs.Prelude.{◌≡◌, ◌++◌, [], Some, None, IfOk, OnOk, map, filter_map, flat_map, is_some};
ghost use Rattle.std.specs.Prelude.{MatchOption};
ghost use Rattle.std.specs.List.{cons_option, list_any};
ghost use Rattle.oss_syntax.specs.declared.words.PartWord.{PartWord};
ghost use Rattle.spec_names.specs.NamesFaults.{lacking, again, same_dotted, dotted_start, start_of, target_start};
ghost use Rattle.spec_names.specs.NamesFaults.{words_of_part};
ghost use Rattle.spec_names.specs.Refinements.{names_around, found_in, sub_directed_in, is_driven_in, is_listed_in};
ghost use Rattle.spec_names.specs.Refinements.{tests_in};
ghost use Rattle.spec_names.specs.Refinements.{component_of_item, sees_in, has_enumerator_in, interface_in, is_read_in};
ghost use Rattle.spec_names.specs.Refinements.{faults_of_item};
ghost use Rattle.spec_names.specs.Noting.{noted};
ghost use Rattle.spec_names.specs.Tables.{entry_place};
ghost use Rattle.spec_names.specs.Uses.{use_at};

use crate::interfaces::InterfaceTables;
use crate::noting::note_unless;
use crate::pairs::note_pairs_again;
use crate::table::PlaceTable;
use crate::uses::NameUse;
use oss_base::{FaultKind, FirstSite};
use oss_syntax::{PartWord, RefinementItem, TargetTree};
use port_types::NoMemory;
use std::alloc::Global;

/// The subcomponents of a refinement by their places, and for each of them the place of its component, where
/// that one exists.
#[derive(Drop)]
pub struct RefinementTables {
    pub subs: PlaceTable,
    pub components: Vec<Option<u32>>,
}

/// What the names of a refinement are looked up in: its own interface, its subcomponents, and the interfaces
/// of all components.
#[derive(Clone, Copy)]
pub(crate) struct Surroundings<'d> {
    pub components: &'d PlaceTable,
    pub own: &'d InterfaceTables,
    pub subs: &'d RefinementTables,
    pub interfaces: &'d [InterfaceTables],
}

impl<'d> Surroundings<'d> {
    /// The interface of the component of the first subcomponent of this name.
    fn sub_interface(self, sub: &str) -> Option<&'d InterfaceTables>
        ensures { MatchOption result (found_in (names_around self.entry) sub.now ≡ None)
            (λ tables. found_in (names_around self.entry) sub.now ≡ Some tables.now) }
    {
        match self.subs.subs.find(sub) {
            None => None,
            Some(place) => match self.subs.components.get(place as usize) {
                None => None,
                Some(None) => None,
                Some(Some(component)) => self.interfaces.get(*component as usize),
            },
        }
    }

    /// Whether the port of this direction of the subcomponent is there.
    fn has_sub_port(self, input: bool, sub: &str, port: &str) -> bool
        ensures { result ≡ sub_directed_in input (names_around self.entry) sub.now port.now }
    {
        match self.sub_interface(sub) {
            None => false,
            Some(tables) => tables.has_directed(input, port),
        }
    }

    /// Whether a connection may drive the target.
    fn may_drive(self, target: &TargetTree) -> bool
        ensures { result ≡ is_driven_in (names_around self.entry) target.now }
    {
        match target {
            TargetTree::Own(port) => self.own.has_directed(false, port.text.as_str()),
            TargetTree::OfSub(sub, port) => {
                self.has_sub_port(true, sub.text.as_str(), port.text.as_str())
            }
        }
    }

    fn has_sub(self, part: &PartWord) -> bool
        ensures { result ≡ is_some (entry_place (names_around self.entry).subs.subs part.now.sub.text) }
    {
        self.subs.subs.find(part.sub.text.as_str()).is_some()
    }

    /// Whether the part is a contract of the component of its subcomponent.
    fn has_listed(self, part: &PartWord) -> bool
        ensures { result ≡ is_listed_in (names_around self.entry) part.now }
    {
        match self.sub_interface(part.sub.text.as_str()) {
            None => false,
            Some(tables) => tables.has_contract(part.contract.text.as_str()),
        }
    }

    /// Whether the refinement sees an enumerator of this name: one of the own interface, or of the component of a
    /// subcomponent.
    pub(crate) fn sees(self, name: &str) -> bool
        ensures { result ≡ sees_in (names_around self.entry) name.now }
    {
        self.own.has_enumerator(name) || self.has_enumerator_among(&self.subs.components, name)
    }

    /// Whether some of these components has an enumerator of this name.
    fn has_enumerator_among(self, components: &[Option<u32>], name: &str) -> bool
        ensures { result ≡ list_any (λ component. has_enumerator_in name.now
            (interface_in (names_around self.entry) component)) components.now }
    {
        components
            .iter()
            .any(|component| self.has_enumerator_at(*component, name))
    }

    fn has_enumerator_at(self, component: Option<u32>, name: &str) -> bool
        ensures { result ≡ has_enumerator_in name.now (interface_in (names_around self.entry) component) }
    {
        match component {
            None => false,
            Some(place) => match self.interfaces.get(place as usize) {
                None => false,
                Some(tables) => tables.has_enumerator(name),
            },
        }
    }

    /// Whether a use of a name means something in a connection, where `seen` says whether it is an enumerator
    /// that the refinement sees.
    pub(crate) fn is_read(self, name: NameUse<'_>, seen: bool) -> bool
        ensures { result ≡ is_read_in (names_around self.entry) (use_at name.entry) seen }
    {
        match name {
            NameUse::Bare(name) => {
                if self.own.has_port(name.text.as_str()) {
                    self.own.has_directed(true, name.text.as_str())
                } else {
                    seen
                }
            }
            NameUse::OfSub(sub, port) => {
                self.has_sub_port(false, sub.text.as_str(), port.text.as_str())
            }
            NameUse::Wanted(port) => self.own.has_directed(true, port.text.as_str()),
        }
    }
}

fn note_missing_subs(surroundings: Surroundings<'_>, parts: &[PartWord], first: &mut FirstSite)
    ensures { first.new ≡ noted (lacking FaultKind.F24 (tests_in (names_around surroundings.entry)).sub
        (λ (part : PartWord). start_of part.sub) parts.now) first.old }
{
    for part in parts {
        note_unless(
            first,
            surroundings.has_sub(part),
            FaultKind::F24,
            part.sub.span.start,
        );
    }
}

fn note_missing_contracts(surroundings: Surroundings<'_>, parts: &[PartWord], first: &mut FirstSite)
    ensures { first.new ≡ noted (lacking FaultKind.F19 (tests_in (names_around surroundings.entry)).listed
        (λ (part : PartWord). start_of part.contract) parts.now) first.old }
{
    for part in parts {
        note_unless(
            first,
            surroundings.has_listed(part),
            FaultKind::F19,
            part.contract.span.start,
        );
    }
}

/// Notes each part that stood before.
fn note_parts_again(
    alloc: Global,
    parts: &[PartWord],
    first: &mut FirstSite,
) -> Result<(), NoMemory>
    ensures { OnOk result (first.new ≡ noted (again FaultKind.F21 same_dotted dotted_start
        (map words_of_part parts.now)) first.old) }
{
    let mut pairs = Vec::new(alloc);
    for part in parts {
        pairs.push((&part.sub, &part.contract))?;
    }
    note_pairs_again(alloc, FaultKind::F21, &pairs, first)
}

/// Notes the faults of an item's own names.
fn note_part(
    alloc: Global,
    surroundings: Surroundings<'_>,
    item: &RefinementItem,
    first: &mut FirstSite,
) -> Result<(), NoMemory>
    ensures { OnOk result (first.new ≡ noted (faults_of_item (names_around surroundings.entry) item.now) first.old) }
{
    match item {
        RefinementItem::Sub { component, .. } => {
            let is_there = surroundings
                .components
                .find(component.text.as_str())
                .is_some();
            note_unless(first, is_there, FaultKind::F10, component.span.start);
            Ok(())
        }
        RefinementItem::Connection { target, .. } => {
            let is_target = surroundings.may_drive(target);
            note_unless(first, is_target, FaultKind::F14, start_of_target(target));
            Ok(())
        }
        RefinementItem::Contract { name, parts } => {
            let is_own = surroundings.own.has_contract(name.text.as_str());
            note_unless(first, is_own, FaultKind::F19, name.span.start);
            let parts = parts.as_slice();
            note_missing_subs(surroundings, parts, first);
            note_missing_contracts(surroundings, parts, first);
            note_parts_again(alloc, parts, first)?;
            Ok(())
        }
    }
}

fn start_of_target(target: &TargetTree) -> u32
    ensures { result ≡ target_start target.now }
{
    match target {
        TargetTree::Own(port) => port.span.start,
        TargetTree::OfSub(sub, _) => sub.span.start,
    }
}

/// Notes the faults of the names of each item.
pub(crate) fn note_parts(
    alloc: Global,
    surroundings: Surroundings<'_>,
    items: &[RefinementItem],
    first: &mut FirstSite,
) -> Result<(), NoMemory>
    ensures { OnOk result (first.new ≡ noted (flat_map (faults_of_item (names_around surroundings.entry)) items.now)
        first.old) }
{
    for item in items {
        note_part(alloc, surroundings, item, first)?;
    }
    Ok(())
}

/// Puts the place of the component of a subcomponent, if the item is one.
fn put_component(
    list: &mut Vec<Option<u32>>,
    components: &PlaceTable,
    item: &RefinementItem,
) -> Result<(), NoMemory>
    ensures { OnOk result (list.new.items ≡ list.old.items ++ cons_option (component_of_item components.now item.now)
        []) }
{
    match item {
        RefinementItem::Sub { component, .. } => {
            list.push(components.find(component.text.as_str()))?;
            Ok(())
        }
        RefinementItem::Connection { .. } => Ok(()),
        RefinementItem::Contract { .. } => Ok(()),
    }
}

/// The places of the components of the subcomponents.
pub(crate) fn sub_components(
    alloc: Global,
    components: &PlaceTable,
    items: &[RefinementItem],
) -> Result<Vec<Option<u32>>, NoMemory>
    ensures { IfOk result (λ list. list.items ≡ filter_map (component_of_item components.now) items.now) }
{
    let mut list = Vec::new(alloc);
    for item in items {
        put_component(&mut list, components, item)?;
    }
    Ok(list)
}
