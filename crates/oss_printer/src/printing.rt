//! Prints components and specifications. Main function: `print`. Allocates the text, and touches nothing else.

ghost use Rattle.std.specs.Prelude.{◌≡◌, ◌++◌, map, IfOk, OnOk};
ghost use Rattle.std.specs.List.{flat_map};
ghost use Rattle.oss_syntax.specs.Trees.{item_tree, refinement_item_tree, refinement_tree, component_tree};
ghost use Rattle.oss_syntax.specs.Trees.{component_trees};
ghost use Rattle.oss_printer.specs.Canonical.{item_text, refinement_item_text, system_text, refinement_text};
ghost use Rattle.oss_printer.specs.Canonical.{component_text, next_component_text, canonical_text};
ghost use Rattle.oss_printer.specs.Lines.{next_component_line};

use crate::items::{append_item, append_refinement_item};
use crate::words::append_word;
use oss_base::Span;
use oss_syntax::{InterfaceItem, RefinementItem, RefinementItems, SpecTree, TreeComponent};
use port_types::{NoMemory, Text};
use std::alloc::Global;

fn append_items(text: &mut Text, items: &[InterfaceItem]) -> Result<(), NoMemory>
    ensures { OnOk result (text.new ≡ text.old ++ flat_map item_text (map item_tree items.now)) }
{
    for item in items {
        append_item(text, item)?;
    }
    Ok(())
}

fn append_refinement_items(text: &mut Text, items: &[RefinementItem]) -> Result<(), NoMemory>
    ensures { OnOk result (text.new ≡ text.old ++ flat_map refinement_item_text (map refinement_item_tree items.now)) }
{
    for item in items {
        append_refinement_item(text, item)?;
    }
    Ok(())
}

fn append_system(text: &mut Text, system: &Option<Span>) -> Result<(), NoMemory>
    ensures { OnOk result (text.new ≡ text.old ++ system_text system.now) }
{
    match system {
        Some(_) => text.append(b" system"),
        None => Ok(()),
    }
}

fn append_refinement(text: &mut Text, refinement: &Option<RefinementItems>) -> Result<(), NoMemory>
    ensures { OnOk result (text.new ≡ text.old ++ refinement_text (refinement_tree refinement.now)) }
{
    match refinement {
        Some(items) => {
            text.append(b"  REFINEMENT\n")?;
            append_refinement_items(text, items.as_slice())
        }
        None => Ok(()),
    }
}

#[tactic(auto, unfolding(crate::specs::Canonical::component_text))]
fn append_component(text: &mut Text, component: &TreeComponent) -> Result<(), NoMemory>
    ensures { OnOk result (text.new ≡ text.old ++ component_text (component_tree component.now)) }
{
    text.append(b"COMPONENT ")?;
    append_word(text, &component.name)?;
    append_system(text, &component.system)?;
    text.append(b"\n  INTERFACE\n")?;
    append_items(text, component.interface.as_slice())?;
    append_refinement(text, &component.refinement)
}

#[tactic(auto, unfolding(crate::specs::Lines::next_component_line))]
fn append_next_component(text: &mut Text, component: &TreeComponent) -> Result<(), NoMemory>
    ensures { OnOk result (text.new ≡ text.old ++ next_component_line component.now) }
{
    text.append(b"\n")?;
    append_component(text, component)
}

fn append_next_components(text: &mut Text, components: &[TreeComponent]) -> Result<(), NoMemory>
    ensures { OnOk result (text.new ≡ text.old ++ flat_map next_component_text (component_trees components.now)) }
{
    for component in components {
        append_next_component(text, component)?;
    }
    Ok(())
}

fn append_components(text: &mut Text, components: &[TreeComponent]) -> Result<(), NoMemory>
    ensures { OnOk result (text.new ≡ text.old ++ canonical_text (component_trees components.now)) }
{
    match components.split_first() {
        None => Ok(()),
        Some((first, more)) => {
            append_component(text, first)?;
            append_next_components(text, more)
        }
    }
}

/// The canonical text of a specification.
///
/// The answer is the bytes of the text, and the time is linear in their number. The only error is want of memory.
/// Where some text is read as this tree but for its spans, the law `canonical_text_reads_back` says that the canonical
/// text is read as the same tree but for its spans.
pub fn print(alloc: Global, tree: &SpecTree) -> Result<Text, NoMemory>
    ensures { IfOk result (λ text. text ≡ canonical_text (component_trees tree.now)) }
{
    let mut text = Text::new(alloc);
    append_components(&mut text, tree.as_slice())?;
    Ok(text)
}
