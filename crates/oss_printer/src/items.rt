//! Prints types and items. Main functions: `append_item`, `append_refinement_item`. Allocates the text, and touches
//! nothing else.

ghost use Rattle.std.specs.Prelude.{◌≡◌, ◌++◌, OnOk};
ghost use Rattle.std.specs.List.{flat_map};
ghost use Rattle.oss_printer.specs.Canonical.{bound_text, next_name_text, names_text, type_text, direction_text};
ghost use Rattle.oss_printer.specs.Canonical.{target_text, part_text, next_part_text, parts_text};
ghost use Rattle.oss_printer.specs.Lines.{item_line, refinement_item_line};

use crate::expressions::append_expr;
use crate::words::{append_dotted, append_number, append_word};
use oss_syntax::{BoundTree, InterfaceItem, PartWord, RefinementItem, TargetTree, TypeTree, Word};
use port_types::{NoMemory, Text};

fn append_bound(text: &mut Text, bound: BoundTree) -> Result<(), NoMemory>
    ensures { OnOk result (text.new ≡ text.old ++ bound_text bound) }
{
    if bound.negative {
        text.append(b"-")?;
        append_number(text, bound.value)
    } else {
        append_number(text, bound.value)
    }
}

fn append_next_name(text: &mut Text, name: &Word) -> Result<(), NoMemory>
    ensures { OnOk result (text.new ≡ text.old ++ next_name_text name.now) }
{
    text.append(b", ")?;
    append_word(text, name)
}

fn append_next_names(text: &mut Text, names: &[Word]) -> Result<(), NoMemory>
    ensures { OnOk result (text.new ≡ text.old ++ flat_map next_name_text names.now) }
{
    for name in names {
        append_next_name(text, name)?;
    }
    Ok(())
}

fn append_names(text: &mut Text, names: &[Word]) -> Result<(), NoMemory>
    ensures { OnOk result (text.new ≡ text.old ++ names_text names.now) }
{
    match names.split_first() {
        None => Ok(()),
        Some((first, more)) => {
            append_word(text, first)?;
            append_next_names(text, more)
        }
    }
}

fn append_type(text: &mut Text, kind: &TypeTree) -> Result<(), NoMemory>
    ensures { OnOk result (text.new ≡ text.old ++ type_text kind.now) }
{
    match kind {
        TypeTree::Boolean => text.append(b"boolean"),
        TypeTree::Event => text.append(b"event"),
        TypeTree::Range { lo, hi } => {
            append_bound(text, *lo)?;
            text.append(b"..")?;
            append_bound(text, *hi)
        }
        TypeTree::Enum(names) => {
            text.append(b"{")?;
            append_names(text, names.as_slice())?;
            text.append(b"}")
        }
    }
}

fn append_direction(text: &mut Text, input: bool) -> Result<(), NoMemory>
    ensures { OnOk result (text.new ≡ text.old ++ direction_text input) }
{
    if input {
        text.append(b"INPUT")
    } else {
        text.append(b"OUTPUT")
    }
}

/// Puts an item of an interface at the end of a text.
#[tactic(auto, unfolding(crate::specs::Lines::item_line))]
pub(crate) fn append_item(text: &mut Text, item: &InterfaceItem) -> Result<(), NoMemory>
    ensures { OnOk result (text.new ≡ text.old ++ item_line item.now) }
{
    match item {
        InterfaceItem::Port { input, name, kind } => {
            text.append(b"    ")?;
            append_direction(text, *input)?;
            text.append(b" PORT ")?;
            append_word(text, name)?;
            text.append(b": ")?;
            append_type(text, kind)?;
            text.append(b";\n")
        }
        InterfaceItem::Contract {
            name,
            assume,
            guarantee,
        } => {
            text.append(b"    CONTRACT ")?;
            append_word(text, name)?;
            text.append(b"\n      assume: ")?;
            append_expr(text, assume)?;
            text.append(b";\n      guarantee: ")?;
            append_expr(text, guarantee)?;
            text.append(b";\n")
        }
    }
}

fn append_target(text: &mut Text, target: &TargetTree) -> Result<(), NoMemory>
    ensures { OnOk result (text.new ≡ text.old ++ target_text target.now) }
{
    match target {
        TargetTree::Own(name) => append_word(text, name),
        TargetTree::OfSub(sub, port) => append_dotted(text, sub, port),
    }
}

fn append_part(text: &mut Text, part: &PartWord) -> Result<(), NoMemory>
    ensures { OnOk result (text.new ≡ text.old ++ part_text part.now) }
{
    append_dotted(text, &part.sub, &part.contract)
}

fn append_next_part(text: &mut Text, part: &PartWord) -> Result<(), NoMemory>
    ensures { OnOk result (text.new ≡ text.old ++ next_part_text part.now) }
{
    text.append(b", ")?;
    append_part(text, part)
}

fn append_next_parts(text: &mut Text, parts: &[PartWord]) -> Result<(), NoMemory>
    ensures { OnOk result (text.new ≡ text.old ++ flat_map next_part_text parts.now) }
{
    for part in parts {
        append_next_part(text, part)?;
    }
    Ok(())
}

fn append_parts(text: &mut Text, parts: &[PartWord]) -> Result<(), NoMemory>
    ensures { OnOk result (text.new ≡ text.old ++ parts_text parts.now) }
{
    match parts.split_first() {
        None => Ok(()),
        Some((first, more)) => {
            append_part(text, first)?;
            append_next_parts(text, more)
        }
    }
}

/// Puts an item of a refinement at the end of a text.
#[tactic(auto, unfolding(crate::specs::Lines::refinement_item_line))]
pub(crate) fn append_refinement_item(text: &mut Text, item: &RefinementItem) -> Result<(), NoMemory>
    ensures { OnOk result (text.new ≡ text.old ++ refinement_item_line item.now) }
{
    match item {
        RefinementItem::Sub { name, component } => {
            text.append(b"    SUB ")?;
            append_word(text, name)?;
            text.append(b": ")?;
            append_word(text, component)?;
            text.append(b";\n")
        }
        RefinementItem::Connection { target, source } => {
            text.append(b"    CONNECTION ")?;
            append_target(text, target)?;
            text.append(b" := ")?;
            append_expr(text, source)?;
            text.append(b";\n")
        }
        RefinementItem::Contract { name, parts } => {
            text.append(b"    CONTRACT ")?;
            append_word(text, name)?;
            text.append(b" REFINEDBY ")?;
            append_parts(text, parts.as_slice())?;
            text.append(b";\n")
        }
    }
}
