//! From refined contracts to the items of a specification, with the places of their names: `items_of`. It touches
//! memory alone.

ghost use Rattle.std.specs.Prelude.{◌≡◌, ◌++◌, [], IfOk, OnOk, filter_map, map, slice_get, option_and_then};
ghost use Rattle.std.specs.List.{cons_option};
ghost use Rattle.architecture.specs.Assembling as making;
ghost use Rattle.architecture.specs.Standing.{place_or_first};
ghost use Rattle.oss_syntax.specs.Trees.{component_tree};
ghost use Rattle.spec_names.specs.Scopes.{refinement_parts};

use crate::numbers::number;
use crate::text_places::Cursor;
use oss_base::{ComponentId, ContractId, SubId};
use oss_syntax::{PartWord, RefinementItem, TreeComponent, Word};
use port_types::NoMemory;
use spec_model::{Item, ItemParts, Items};
use spec_names::{Directory, InterfaceTables, RefinementTables, refinement_items};
use sqlite_items::at;
use std::alloc::Global;

/// The place of the contract of a name in the interface of the component at a place.
fn contract_at(interfaces: &[InterfaceTables], component: usize, name: &str) -> Option<u32>
    ensures { result ≡ making.named_contract interfaces.now component name.now }
{
    match at(interfaces, component) {
        Some(own) => own.contracts.find(name),
        None => None,
    }
}

/// The place of the component of a subcomponent.
fn component_at(tables: &RefinementTables, sub: usize) -> Option<u32>
    ensures { result ≡ making.component_of_sub tables.now sub }
{
    match tables.components.get(sub) {
        Some(component) => *component,
        None => None,
    }
}

/// The place of the contract of a name in the interface of the component of a subcomponent.
fn contract_of_sub(
    interfaces: &[InterfaceTables],
    tables: &RefinementTables,
    name: &str,
    sub: u32,
) -> Option<(u32, u32)>
    ensures { result ≡ making.contract_of_sub interfaces.now tables.now name.now sub }
{
    match component_at(tables, sub as usize) {
        Some(component) => match contract_at(interfaces, component as usize, name) {
            Some(contract) => Some((sub, contract)),
            None => None,
        },
        None => None,
    }
}

/// The places of the subcomponent and of the contract of a listed part.
fn part_places(
    interfaces: &[InterfaceTables],
    tables: &RefinementTables,
    part: &PartWord,
) -> Option<(u32, u32)>
    ensures { result ≡ making.part_by interfaces.now tables.now part.now }
{
    match tables.subs.find(part.sub.text.as_str()) {
        Some(sub) => contract_of_sub(interfaces, tables, part.contract.text.as_str(), sub),
        None => None,
    }
}

/// The same in the refinement of the component with this number.
fn places_in(directory: &Directory, number: usize, part: &PartWord) -> Option<(u32, u32)>
    ensures { result ≡ option_and_then (λ tables. making.part_by directory.now.interfaces.items tables part.now)
        (slice_get directory.now.refinements.items number) }
{
    match at(directory.refinements.as_slice(), number) {
        Some(tables) => part_places(directory.interfaces.as_slice(), tables, part),
        None => None,
    }
}

/// A listed part in the refinement of the component with this number. A name that means nothing counts as the first.
fn part_of(directory: &Directory, number: usize, part: &PartWord) -> (SubId, ContractId)
    ensures { result ≡ making.part_in directory.now number part.now }
{
    match places_in(directory, number, part) {
        Some((sub, contract)) => (SubId(sub), ContractId(contract)),
        None => (SubId(0), ContractId(0)),
    }
}

/// The parts that are listed for a refined contract.
#[tactic(auto, using(crate::proofs::Building::mapped_more))]
fn parts_of(
    alloc: Global,
    directory: &Directory,
    number: usize,
    listed: &[PartWord],
) -> Result<ItemParts, NoMemory>
    ensures { IfOk result (λ parts. parts ≡ map (making.part_in directory.now number) listed.now) }
{
    let mut parts = ItemParts::new(alloc);
    for part in listed {
        parts.push(part_of(directory, number, part))?;
    }
    Ok(parts)
}

/// The refined contract of this name, and the cursor at its place in the text.
fn refined(
    alloc: Global,
    bytes: &[u8],
    cursor: Cursor,
    directory: &Directory,
    place: usize,
    name: &Word,
    listed: &[PartWord],
) -> Result<(Item, Cursor), NoMemory>
    requires { making.IsAt bytes.now cursor }
    ensures item { IfOk result (λ made. made.0
        ≡ making.refined_by bytes.now directory.now place name.now listed.now) }
    ensures cursor { IfOk result (λ made. making.IsAt bytes.now made.1) }
{
    let cursor = cursor.to(bytes, name.span.start as usize)?;
    let interfaces = directory.interfaces.as_slice();
    let contract = contract_at(interfaces, place, name.text.as_str()).unwrap_or(0);
    let component = number(place)?;
    let parts = parts_of(alloc, directory, place, listed)?;
    let item = Item {
        component: ComponentId(component),
        contract: ContractId(contract),
        place: cursor.place,
        parts,
    };
    Ok((item, cursor))
}

/// Puts the contract that an item refines, if it does, and gives the cursor at its place in the text.
fn put_item(
    alloc: Global,
    bytes: &[u8],
    cursor: Cursor,
    items: &mut Items,
    directory: &Directory,
    place: usize,
    item: &RefinementItem,
) -> Result<Cursor, NoMemory>
    requires { making.IsAt bytes.now cursor }
    ensures items { OnOk result (items.new ≡ items.old
        ++ cons_option (making.item_in bytes.now directory.now place item.now) []) }
    ensures cursor { IfOk result (λ cursor. making.IsAt bytes.now cursor) }
{
    match item {
        RefinementItem::Sub { .. } => Ok(cursor),
        RefinementItem::Connection { .. } => Ok(cursor),
        RefinementItem::Contract { name, parts } => {
            let listed = parts.as_slice();
            let (item, cursor) = refined(alloc, bytes, cursor, directory, place, name, listed)?;
            items.push(item)?;
            Ok(cursor)
        }
    }
}

/// Puts the contracts that these items refine.
fn put_items(
    alloc: Global,
    bytes: &[u8],
    cursor: Cursor,
    items: &mut Items,
    directory: &Directory,
    place: usize,
    written: &[RefinementItem],
) -> Result<Cursor, NoMemory>
    requires { making.IsAt bytes.now cursor }
    ensures items { OnOk result (items.new ≡ items.old
        ++ filter_map (making.item_in bytes.now directory.now place) written.now) }
    ensures cursor { IfOk result (λ cursor. making.IsAt bytes.now cursor) }
{
    let mut cursor = cursor;
    for item in written {
        cursor = put_item(alloc, bytes, cursor, items, directory, place, item)?;
    }
    Ok(cursor)
}

/// Puts the contracts that the refinement of a component refines.
fn put_refined(
    alloc: Global,
    bytes: &[u8],
    cursor: Cursor,
    items: &mut Items,
    directory: &Directory,
    place: usize,
    component: &TreeComponent,
) -> Result<Cursor, NoMemory>
    requires { making.IsAt bytes.now cursor }
    ensures items { OnOk result (items.new ≡ items.old ++ filter_map (making.item_by bytes.now directory.now place)
        (refinement_parts (component_tree component.now))) }
    ensures cursor { IfOk result (λ cursor. making.IsAt bytes.now cursor) }
{
    let written = refinement_items(component);
    let cursor = put_items(alloc, bytes, cursor, items, directory, place, written)?;
    Ok(cursor)
}

/// The refined contracts of all components in text order, with their places in the text.
pub(crate) fn items_of(
    alloc: Global,
    bytes: &[u8],
    components: &[TreeComponent],
    directory: &Directory,
) -> Result<Items, NoMemory>
    ensures { IfOk result (λ items. items ≡ making.items_by bytes.now directory.now 0 components.now) }
{
    let mut items = Items::new(alloc);
    let mut cursor = Cursor::new(bytes);
    for (place, component) in components.iter().enumerate() {
        cursor = put_refined(
            alloc, bytes, cursor, &mut items, directory, place, component,
        )?;
    }
    Ok(items)
}
