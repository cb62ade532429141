//! The ports of an interface with their types: `own_ports`. Empty ranges are noted. It touches nothing
//! outside.

ghost use Rattle.std.specs.Prelude.{◌≡◌, ◌++◌, [], IfOk, OnOk, int_le, map};
ghost use Rattle.std.specs.List.{cons_option};
ghost use Rattle.oss_syntax.specs.Trees.{item_tree};
ghost use Rattle.oss_syntax.specs.declared.words.Word.{Word as Written};
ghost use Rattle.spec_names.specs.Noting.{noted};
ghost use Rattle.spec_types.specs.TreeComponents as specs;
ghost use Rattle.spec_types.specs.Making as making;

use oss_base::{FaultKind, FaultSite, FirstSite};
use oss_syntax::{BoundTree, InterfaceItem, TypeTree, Word, Words};
use port_types::{Name, Names, NoMemory, PortType};
use spec_model::{OwnPort, OwnPorts};
use std::alloc::Global;

/// The number that a bound is.
fn signed(bound: BoundTree) -> i64
    ensures { result ≡ specs.bound bound }
{
    let value = i64::from(bound.value);
    if bound.negative { -value } else { value }
}

/// The same in 32 bits; want of memory where it is larger, which no numeral of a text is.
fn bound(bound: BoundTree) -> Result<i32, NoMemory>
    ensures { IfOk result (λ number. number ≡ specs.bound bound) }
{
    match i32::try_from(signed(bound)) {
        Ok(number) => Ok(number),
        Err(_) => Err(NoMemory),
    }
}

#[tactic(auto, using(crate::proofs::Making::mapped_more))]
fn texts_of(alloc: Global, words: &[Word]) -> Result<Vec<Name>, NoMemory>
    ensures { IfOk result (λ names. names.items ≡ map (λ (w : Written). w.text) words.now) }
{
    let mut names = Vec::new(alloc);
    for word in words {
        names.push(word.text.copy()?)?;
    }
    Ok(names)
}

fn enumeration(alloc: Global, words: &Words) -> Result<Names, NoMemory>
    ensures { IfOk result (λ names. names ≡ map (λ (w : Written). w.text) words.now) }
{
    Ok(Names::from_vec(texts_of(alloc, words.as_slice())?))
}

/// The type as it is declared.
fn type_of(alloc: Global, tree: &TypeTree) -> Result<PortType, NoMemory>
    ensures { IfOk result (λ kind. kind ≡ specs.type_of tree.now) }
{
    match tree {
        TypeTree::Boolean => Ok(PortType::Bool),
        TypeTree::Event => Ok(PortType::Bool),
        TypeTree::Range { lo, hi } => {
            let lo = bound(*lo)?;
            let hi = bound(*hi)?;
            Ok(PortType::Range { lo, hi })
        }
        TypeTree::Enum(words) => Ok(PortType::Enum(enumeration(alloc, words)?)),
    }
}

fn at_most(lo: i64, hi: i64) -> bool
    ensures { result ≡ int_le lo hi }
{
    lo <= hi
}

/// Notes an empty range, unless it has a number.
fn note_empty_unless(fits: bool, offset: u32, first: &mut FirstSite)
    ensures { first.new ≡ noted (specs.empty_unless fits offset) first.old }
{
    if !fits {
        first.note(FaultSite {
            kind: FaultKind::F17,
            offset,
        });
    }
}

/// Notes an empty range.
fn note_range(tree: &TypeTree, first: &mut FirstSite)
    ensures { first.new ≡ noted (specs.range_faults tree.now) first.old }
{
    match tree {
        TypeTree::Boolean => {}
        TypeTree::Event => {}
        TypeTree::Range { lo, hi } => {
            note_empty_unless(at_most(signed(*lo), signed(*hi)), lo.span.start, first);
        }
        TypeTree::Enum(_) => {}
    }
}

/// Puts a port with its type at the end, where the item is one.
fn put_port(
    alloc: Global,
    item: &InterfaceItem,
    ports: &mut OwnPorts,
    first: &mut FirstSite,
) -> Result<(), NoMemory>
    ensures ports { OnOk result (ports.new ≡ ports.old ++ cons_option (making.port_in item.now) []) }
    ensures first { OnOk result (first.new ≡ noted (making.range_faults_at item.now) first.old) }
{
    match item {
        InterfaceItem::Port { input, name, kind } => {
            note_range(kind, first);
            let name = name.text.copy()?;
            let kind = type_of(alloc, kind)?;
            ports.push(OwnPort {
                name,
                input: *input,
                kind,
            })
        }
        InterfaceItem::Contract {
            name: _,
            assume: _,
            guarantee: _,
        } => Ok(()),
    }
}

/// The ports of an interface.
pub(crate) fn own_ports(
    alloc: Global,
    items: &[InterfaceItem],
    first: &mut FirstSite,
) -> Result<OwnPorts, NoMemory>
    ensures ports { IfOk result (λ ports. ports ≡ specs.own_ports (map item_tree items.now)) }
    ensures first { OnOk result (first.new ≡ noted (specs.range_faults_in (map item_tree items.now)) first.old) }
{
    let mut ports = OwnPorts::new(alloc);
    for item in items {
        put_port(alloc, item, &mut ports, first)?;
    }
    Ok(ports)
}
