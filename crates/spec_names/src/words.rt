//! The words of one kind that stand in a specification, in text order. Main functions: `interface_words`,
//! `refinement_words`. They are lists of references to the tree, and allocate nothing else.

ghost use Rattle.std.specs.Prelude.{◌≡◌, ◌++◌, [], OnOk, IfOk, map, filter_map, flat_map, option_map, option_copied};
ghost use Rattle.std.specs.List.{cons_option};
ghost use Rattle.oss_syntax.specs.declared.component.TreeComponent.{TreeComponent as Component};
ghost use Rattle.spec_names.specs.Words.{word_at, pair_at, word_of_item, word_of_part, enumerators_of_item};
ghost use Rattle.spec_names.specs.Words.{sub_target_of_item};

use oss_syntax::{InterfaceItem, RefinementItem, TargetTree, TreeComponent, TypeTree, Word};
use port_types::NoMemory;
use std::alloc::Global;

/// A kind of name that an interface declares.
#[derive(Clone, Copy)]
pub(crate) enum InterfaceWord {
    Port,
    Contract,
}

/// A kind of name in a refinement: a subcomponent, an own port that a connection drives, or a contract that
/// is refined.
#[derive(Clone, Copy)]
pub(crate) enum RefinementWord {
    Sub,
    OwnTarget,
    Refined,
}

/// Puts a word at the end, if there is one.
fn put<'t>(words: &mut Vec<&'t Word>, word: Option<&'t Word>) -> Result<(), NoMemory>
    ensures { OnOk result (map word_at words.new.items ≡ map word_at words.old.items ++ cons_option
        (option_copied word.entry) []) }
{
    if let Some(word) = word {
        words.push(word)?;
    }
    Ok(())
}

/// The names of components.
pub(crate) fn component_words<'t>(
    alloc: Global,
    components: &'t [TreeComponent],
) -> Result<Vec<&'t Word>, NoMemory>
    ensures { IfOk result (λ words. map word_at words.items ≡ map (λ (c : Component). c.name) components.now) }
{
    let mut words = Vec::new(alloc);
    for component in components {
        words.push(&component.name)?;
    }
    Ok(words)
}

fn word_in_interface(item: &InterfaceItem, kind: InterfaceWord) -> Option<&Word>
    ensures { option_copied result ≡ word_of_item kind item.now }
{
    match item {
        InterfaceItem::Port { name, .. } => match kind {
            InterfaceWord::Port => Some(name),
            InterfaceWord::Contract => None,
        },
        InterfaceItem::Contract { name, .. } => match kind {
            InterfaceWord::Port => None,
            InterfaceWord::Contract => Some(name),
        },
    }
}

/// The names of this kind that an interface declares.
pub(crate) fn interface_words<'t>(
    alloc: Global,
    items: &'t [InterfaceItem],
    kind: InterfaceWord,
) -> Result<Vec<&'t Word>, NoMemory>
    ensures { IfOk result (λ words. map word_at words.items ≡ filter_map (word_of_item kind) items.now) }
{
    let mut words = Vec::new(alloc);
    for item in items {
        put(&mut words, word_in_interface(item, kind))?;
    }
    Ok(words)
}

/// Puts all these words at the end.
pub(crate) fn put_all<'t>(words: &mut Vec<&'t Word>, more: &'t [Word]) -> Result<(), NoMemory>
    ensures { OnOk result (map word_at words.new.items ≡ map word_at words.old.items ++ more.now) }
{
    for word in more {
        words.push(word)?;
    }
    Ok(())
}

/// The enumerators of an item: those of a port's type.
pub(crate) fn item_enumerators(item: &InterfaceItem) -> &[Word]
    ensures { result.now ≡ enumerators_of_item item.now }
{
    match item {
        InterfaceItem::Port { kind, .. } => match kind {
            TypeTree::Enum(names) => names.as_slice(),
            TypeTree::Boolean => &[],
            TypeTree::Event => &[],
            TypeTree::Range { .. } => &[],
        },
        InterfaceItem::Contract { .. } => &[],
    }
}

/// The enumerators of the port types of an interface.
pub(crate) fn enumerator_words<'t>(
    alloc: Global,
    items: &'t [InterfaceItem],
) -> Result<Vec<&'t Word>, NoMemory>
    ensures { IfOk result (λ words. map word_at words.items ≡ flat_map enumerators_of_item items.now) }
{
    let mut words = Vec::new(alloc);
    for item in items {
        put_all(&mut words, item_enumerators(item))?;
    }
    Ok(words)
}

fn word_in_refinement(item: &RefinementItem, kind: RefinementWord) -> Option<&Word>
    ensures { option_copied result ≡ word_of_part kind item.now }
{
    match item {
        RefinementItem::Sub { name, .. } => match kind {
            RefinementWord::Sub => Some(name),
            _ => None,
        },
        RefinementItem::Connection { target, .. } => match target {
            TargetTree::Own(port) => match kind {
                RefinementWord::OwnTarget => Some(port),
                _ => None,
            },
            TargetTree::OfSub(_, _) => None,
        },
        RefinementItem::Contract { name, .. } => match kind {
            RefinementWord::Refined => Some(name),
            _ => None,
        },
    }
}

/// The names of this kind in a refinement.
pub(crate) fn refinement_words<'t>(
    alloc: Global,
    items: &'t [RefinementItem],
    kind: RefinementWord,
) -> Result<Vec<&'t Word>, NoMemory>
    ensures { IfOk result (λ words. map word_at words.items ≡ filter_map (word_of_part kind) items.now) }
{
    let mut words = Vec::new(alloc);
    for item in items {
        put(&mut words, word_in_refinement(item, kind))?;
    }
    Ok(words)
}

/// Puts the port of a subcomponent that an item drives at the end, if it does.
fn put_target<'t>(
    pairs: &mut Vec<(&'t Word, &'t Word)>,
    item: &'t RefinementItem,
) -> Result<(), NoMemory>
    ensures { OnOk result (map pair_at pairs.new.items ≡ map pair_at pairs.old.items ++ cons_option
        (sub_target_of_item item.now) []) }
{
    match item {
        RefinementItem::Connection { target, .. } => match target {
            TargetTree::OfSub(sub, port) => {
                pairs.push((sub, port))?;
                Ok(())
            }
            TargetTree::Own(_) => Ok(()),
        },
        RefinementItem::Sub { .. } => Ok(()),
        RefinementItem::Contract { .. } => Ok(()),
    }
}

/// The ports of subcomponents that connections drive.
pub(crate) fn sub_target_words<'t>(
    alloc: Global,
    items: &'t [RefinementItem],
) -> Result<Vec<(&'t Word, &'t Word)>, NoMemory>
    ensures { IfOk result (λ pairs. map pair_at pairs.items ≡ filter_map sub_target_of_item items.now) }
{
    let mut pairs = Vec::new(alloc);
    for item in items {
        put_target(&mut pairs, item)?;
    }
    Ok(pairs)
}
