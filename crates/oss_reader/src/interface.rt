//! Reads the items of an interface. Main function: `items`. Allocates the tree.

ghost use Rattle.std.specs.Prelude.{map};
ghost use Rattle.oss_syntax.specs.Steps.{Many};
ghost use Rattle.oss_syntax.specs.Items.{IsItem};
ghost use Rattle.oss_syntax.specs.Trees.{item_tree};
ghost use Rattle.oss_reader.specs.Ahead.{ahead};
ghost use Rattle.oss_reader.specs.Reads.{ReadsAs, Reads, ReadsUntil};
ghost use Rattle.oss_reader.specs.Rules.{BeginsItem, contract_tree, ReadsPort, IsPort, IsContract, NoItem};

use crate::cursor::{after, expect, name};
use crate::expressions::closed;
use crate::halt::Halt;
use crate::rest::Rest;
use crate::types::type_tree;
use oss_syntax::{Expr, InterfaceItem, InterfaceItems, Mark, Role, TypeTree, Word};
use std::alloc::Global;

/// Whether an item of an interface begins there.
fn begins_item(terminals: Rest<'_>) -> bool
    ensures { BeginsItem (ahead terminals.entry) result }
{
    after(terminals, Mark::Input).is_some()
        || after(terminals, Mark::Output).is_some()
        || after(terminals, Mark::Contract).is_some()
}

/// A port's name and type, after its direction.
fn port<'a>(alloc: Global, terminals: Rest<'a>) -> Result<((Word, TypeTree), Rest<'a>), Halt>
    ensures { Reads IsPort (ahead terminals.entry) result }
{
    let called = expect(terminals, Mark::Port)?;
    let (name, typed) = name(alloc, called)?;
    let more = expect(typed, Mark::Colon)?;
    let (kind, closed) = type_tree(alloc, more)?;
    let left = expect(closed, Mark::Semicolon)?;
    Ok(((name, kind), left))
}

/// A contract's name, assumption and guarantee, after its first word.
fn contract<'a>(alloc: Global, terminals: Rest<'a>) -> Result<((Word, Expr, Expr), Rest<'a>), Halt>
    ensures { ReadsAs contract_tree IsContract (ahead terminals.entry) result }
{
    let (name, assuming) = name(alloc, terminals)?;
    let assumed = expect(assuming, Mark::Assume)?;
    let first = expect(assumed, Mark::Colon)?;
    let (assume, guaranteeing) = closed(alloc, Role::Formula, first)?;
    let guaranteed = expect(guaranteeing, Mark::Guarantee)?;
    let second = expect(guaranteed, Mark::Colon)?;
    let (guarantee, left) = closed(alloc, Role::Formula, second)?;
    Ok(((name, assume, guarantee), left))
}

/// A port after its direction.
fn port_item<'a>(
    alloc: Global,
    input: bool,
    terminals: Rest<'a>,
) -> Result<(InterfaceItem, Rest<'a>), Halt>
    ensures { ReadsPort input (ahead terminals.entry) result }
{
    let ((name, kind), left) = port(alloc, terminals)?;
    Ok((InterfaceItem::Port { input, name, kind }, left))
}

/// An item of an interface.
fn item<'a>(alloc: Global, terminals: Rest<'a>) -> Result<(InterfaceItem, Rest<'a>), Halt>
    ensures { ReadsAs item_tree IsItem (ahead terminals.entry) result }
{
    match after(terminals, Mark::Input) {
        Some(ported) => port_item(alloc, true, ported),
        None => match after(terminals, Mark::Output) {
            Some(ported) => port_item(alloc, false, ported),
            None => {
                let more = expect(terminals, Mark::Contract)?;
                let ((name, assume, guarantee), left) = contract(alloc, more)?;
                let item = InterfaceItem::Contract {
                    name,
                    assume,
                    guarantee,
                };
                Ok((item, left))
            }
        },
    }
}

/// The items of an interface.
pub fn items<'a>(alloc: Global, terminals: Rest<'a>) -> Result<(InterfaceItems, Rest<'a>), Halt>
    ensures { ReadsUntil (map item_tree) (Many IsItem) NoItem (ahead terminals.entry) result }
{
    let mut items = InterfaceItems::new(alloc);
    let mut rest = terminals;
    'each: while begins_item(rest) {
        let (next, left) = item(alloc, rest)?;
        items.push(next)?;
        rest = left;
    }
    Ok((items, rest))
}
