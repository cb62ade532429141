//! Reads the items of a refinement. Main function: `items`. Allocates the tree.

ghost use Rattle.oss_syntax.specs.Steps.{Many};
ghost use Rattle.oss_syntax.specs.Items.{IsTarget, IsPart, IsParts, IsRefinementItem};
ghost use Rattle.oss_syntax.specs.Trees.{refinement_item_tree};
ghost use Rattle.oss_reader.specs.Ahead.{ahead};
ghost use Rattle.oss_reader.specs.Reads.{ReadsAs, Reads, ReadsUntil};
ghost use Rattle.oss_reader.specs.Rules.{BeginsRefinementItem, connection_tree, refinement_trees};
ghost use Rattle.oss_reader.specs.Rules.{ReadsFurtherParts, IsSub, IsConnection, IsRefined, NoRefinementItem};

use crate::cursor::{after, expect, name};
use crate::expressions::closed;
use crate::halt::Halt;
use crate::rest::Rest;
use oss_syntax::{
    Expr, Mark, PartWord, PartWords, RefinementItem, RefinementItems, Role, TargetTree, Word,
};
use std::alloc::Global;

/// Whether an item of a refinement begins there.
fn begins_refinement_item(terminals: Rest<'_>) -> bool
    ensures { BeginsRefinementItem (ahead terminals.entry) result }
{
    after(terminals, Mark::Sub).is_some()
        || after(terminals, Mark::Connection).is_some()
        || after(terminals, Mark::Contract).is_some()
}

/// A subcomponent's name and component, after its first word.
fn sub<'a>(alloc: Global, terminals: Rest<'a>) -> Result<((Word, Word), Rest<'a>), Halt>
    ensures { Reads IsSub (ahead terminals.entry) result }
{
    let (sub, made) = name(alloc, terminals)?;
    let more = expect(made, Mark::Colon)?;
    let (component, closed) = name(alloc, more)?;
    let left = expect(closed, Mark::Semicolon)?;
    Ok(((sub, component), left))
}

/// The target of a connection and the sign after it.
fn target<'a>(alloc: Global, terminals: Rest<'a>) -> Result<(TargetTree, Rest<'a>), Halt>
    ensures { Reads IsTarget (ahead terminals.entry) result }
{
    let (first, more) = name(alloc, terminals)?;
    match after(more, Mark::Dot) {
        Some(dotted) => {
            let (port, assigned) = name(alloc, dotted)?;
            let left = expect(assigned, Mark::Assign)?;
            Ok((TargetTree::OfSub(first, port), left))
        }
        None => {
            let own = expect(more, Mark::Assign)?;
            Ok((TargetTree::Own(first), own))
        }
    }
}

/// A connection's target and source, after its first word.
fn connection<'a>(
    alloc: Global,
    terminals: Rest<'a>,
) -> Result<((TargetTree, Expr), Rest<'a>), Halt>
    ensures { ReadsAs connection_tree IsConnection (ahead terminals.entry) result }
{
    let (target, more) = target(alloc, terminals)?;
    let (source, left) = closed(alloc, Role::State, more)?;
    Ok(((target, source), left))
}

/// A contract of a subcomponent.
fn part<'a>(alloc: Global, terminals: Rest<'a>) -> Result<(PartWord, Rest<'a>), Halt>
    ensures { Reads IsPart (ahead terminals.entry) result }
{
    let (sub, dotted) = name(alloc, terminals)?;
    let more = expect(dotted, Mark::Dot)?;
    let (contract, left) = name(alloc, more)?;
    Ok((PartWord { sub, contract }, left))
}

/// This contract, and the further ones of a list, each after a comma.
fn further_parts<'a>(
    alloc: Global,
    first: PartWord,
    terminals: Rest<'a>,
) -> Result<(PartWords, Rest<'a>), Halt>
    ensures { ReadsFurtherParts first (ahead terminals.entry) result }
{
    let mut parts = PartWords::new(alloc);
    parts.push(first)?;
    let mut rest = terminals;
    'further: loop {
        match after(rest, Mark::Comma) {
            None => return Ok((parts, rest)),
            Some(more) => {
                let (next, left) = part(alloc, more)?;
                parts.push(next)?;
                rest = left;
            }
        }
    }
}

/// The contracts that refine one, and the semicolon after them.
fn parts<'a>(alloc: Global, terminals: Rest<'a>) -> Result<(PartWords, Rest<'a>), Halt>
    ensures { Reads IsParts (ahead terminals.entry) result }
{
    let (first, more) = part(alloc, terminals)?;
    let (parts, rest) = further_parts(alloc, first, more)?;
    let left = expect(rest, Mark::Semicolon)?;
    Ok((parts, left))
}

/// A refined contract and those that refine it, after its first word.
fn refined<'a>(alloc: Global, terminals: Rest<'a>) -> Result<((Word, PartWords), Rest<'a>), Halt>
    ensures { Reads IsRefined (ahead terminals.entry) result }
{
    let (name, by) = name(alloc, terminals)?;
    let more = expect(by, Mark::RefinedBy)?;
    let (parts, left) = parts(alloc, more)?;
    Ok(((name, parts), left))
}

/// An item of a refinement.
fn item<'a>(alloc: Global, terminals: Rest<'a>) -> Result<(RefinementItem, Rest<'a>), Halt>
    ensures { ReadsAs refinement_item_tree IsRefinementItem (ahead terminals.entry) result }
{
    match after(terminals, Mark::Sub) {
        Some(more) => {
            let ((name, component), left) = sub(alloc, more)?;
            Ok((RefinementItem::Sub { name, component }, left))
        }
        None => match after(terminals, Mark::Connection) {
            Some(more) => {
                let ((target, source), left) = connection(alloc, more)?;
                Ok((RefinementItem::Connection { target, source }, left))
            }
            None => {
                let more = expect(terminals, Mark::Contract)?;
                let ((name, parts), left) = refined(alloc, more)?;
                Ok((RefinementItem::Contract { name, parts }, left))
            }
        },
    }
}

/// The items of a refinement.
pub fn items<'a>(alloc: Global, terminals: Rest<'a>) -> Result<(RefinementItems, Rest<'a>), Halt>
    ensures { ReadsUntil refinement_trees (Many IsRefinementItem) NoRefinementItem (ahead terminals.entry) result }
{
    let mut items = RefinementItems::new(alloc);
    let mut rest = terminals;
    'each: while begins_refinement_item(rest) {
        let (next, left) = item(alloc, rest)?;
        items.push(next)?;
        rest = left;
    }
    Ok((items, rest))
}
