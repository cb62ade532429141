//! The names of obligations.

ghost use Rattle.std.specs.Prelude.{◌≡◌, ◌++◌, IfOk, OnOk, string_bytes};
ghost use Rattle.obligations.specs.Names.{component_name as name_of_component, contract_name as name_of_contract};
ghost use Rattle.obligations.specs.Names.{sub_name as name_of_sub, part_name as name_of_part};
ghost use Rattle.obligations.specs.Names.{level_name as name_of_level};

use oss_base::{ComponentId, ContractId, ItemId, SubId};
use port_types::{Name, NoMemory};
use spec_model::{Item, Spec};
use sqlite_items::at;
use std::alloc::Global;

/// The name of a question of a level: its item, and for an assumes question the place of the listed
/// contract.
#[derive(Clone, Copy, Debug, PartialEq, Eq)]
pub enum ObligationName {
    Entails { item: ItemId },
    Assumes { item: ItemId, place: u32 },
}

fn append(text: &mut String, piece: &str) -> Result<(), NoMemory>
    ensures { OnOk result (string_bytes text.new ≡ string_bytes text.old ++ piece.now) }
{
    text.push_str(piece)?;
    Ok(())
}

/// The name of a component, the empty one where there is none.
pub fn component_name(spec: &Spec, c: ComponentId) -> &str
    ensures { result.now ≡ name_of_component spec.now c }
{
    match spec.component(c) {
        Some(component) => component.name.as_str(),
        None => "",
    }
}

/// The name of a contract of a component, the empty one where there is none.
pub fn contract_name(spec: &Spec, c: ComponentId, d: ContractId) -> &str
    ensures { result.now ≡ name_of_contract spec.now c d }
{
    match at(spec.contracts_of(c), d.0 as usize) {
        Some(contract) => contract.name.as_str(),
        None => "",
    }
}

/// The name of a subcomponent of a component, the empty one where there is none.
pub fn sub_name(spec: &Spec, c: ComponentId, s: SubId) -> &str
    ensures { result.now ≡ name_of_sub spec.now c s }
{
    match at(spec.subs_of(c), s.0 as usize) {
        Some(sub) => sub.name.as_str(),
        None => "",
    }
}

fn append_level(text: &mut String, spec: &Spec, item: &Item) -> Result<(), NoMemory>
    ensures { OnOk result (string_bytes text.new ≡ string_bytes text.old ++ name_of_level spec.now item.now) }
{
    append(text, component_name(spec, item.component))?;
    append(text, ".")?;
    append(text, contract_name(spec, item.component, item.contract))
}

fn append_part(
    text: &mut String,
    spec: &Spec,
    c: ComponentId,
    part: (SubId, ContractId),
) -> Result<(), NoMemory>
    ensures { OnOk result (string_bytes text.new ≡ string_bytes text.old ++ name_of_part spec.now c part) }
{
    let (s, d) = part;
    append(text, sub_name(spec, c, s))?;
    append(text, ".")?;
    match spec.sub_component(c, s) {
        Some(b) => append(text, contract_name(spec, b, d)),
        None => Ok(()),
    }
}

impl ObligationName {
    ghost use Rattle.obligations.specs.Names.{obligation_text};

    /// The name as it is printed: `C.c entails` or `C.c assumes s.d`.
    pub fn text(&self, alloc: Global, spec: &Spec) -> Result<Name, NoMemory>
        ensures { IfOk result (λ name. name ≡ obligation_text spec.now self.now) }
    {
        let mut text = String::new(alloc);
        match self {
            ObligationName::Entails { item } => {
                if let Some(item) = at(spec.items.as_slice(), item.0 as usize) {
                    append_level(&mut text, spec, item)?;
                    append(&mut text, " entails")?;
                }
            }
            ObligationName::Assumes { item, place } => {
                if let Some(item) = at(spec.items.as_slice(), item.0 as usize) {
                    append_level(&mut text, spec, item)?;
                    append(&mut text, " assumes ")?;
                    if let Some(part) = at(item.parts.as_slice(), *place as usize) {
                        append_part(&mut text, spec, item.component, *part)?;
                    }
                }
            }
        }
        Ok(Name::from_string(text))
    }
}
