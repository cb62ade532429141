//! Reads components and whole texts. Main function: `text`. Allocates the tree.

ghost use Rattle.std.specs.Prelude.{MatchBool};
ghost use Rattle.oss_syntax.specs.Texts.{IsRefinement};
ghost use Rattle.oss_syntax.specs.Trees.{refinement_tree, component_tree};
ghost use Rattle.oss_reader.specs.Ahead.{ahead};
ghost use Rattle.oss_reader.specs.Reads.{ReadsMinus, ReadsAs, ReadsUntil};
ghost use Rattle.oss_reader.specs.Rules.{ReadsEnd, ReadsComponents, ReadsHead, ReadsSpec, AtComponent, IsWhole};
ghost use Rattle.oss_reader.specs.Rules.{SystemRead, AtEnd};

use crate::cursor::{after, broken, expect, expect_name, first_mark, is_at_end, minus, name};
use crate::halt::Halt;
use crate::rest::Rest;
use crate::{interface, refinement};
use oss_base::Span;
use oss_syntax::{Mark, RefinementItems, SpecTree, TreeComponent};
use std::alloc::Global;

/// Whether nothing is left, or a component begins there.
fn at_component(terminals: Rest<'_>) -> bool
    ensures { MatchBool result (AtComponent (ahead terminals.entry)) (AtComponent (ahead terminals.entry) → ⊥) }
{
    is_at_end(terminals) || after(terminals, Mark::Component).is_some()
}

/// Wants nothing to be left, or a component to begin there.
fn ended(terminals: Rest<'_>) -> Result<(), Halt>
    ensures { ReadsEnd (ahead terminals.entry) result }
{
    if at_component(terminals) {
        Ok(())
    } else {
        Err(Halt::Broken(broken(terminals, false)))
    }
}

/// The word `system`, where it stands.
fn system<'a>(terminals: Rest<'a>) -> (Option<Span>, Rest<'a>)
    ensures { SystemRead (ahead terminals.entry) result.0 (ahead result.1) }
{
    match first_mark(terminals, Mark::System) {
        None => (None, terminals),
        Some((span, more)) => (Some(span), more),
    }
}

/// The refinement, where there is one.
fn refinement<'a>(
    alloc: Global,
    terminals: Rest<'a>,
) -> Result<(Option<RefinementItems>, Rest<'a>), Halt>
    ensures { ReadsUntil refinement_tree IsRefinement AtComponent (ahead terminals.entry) result }
{
    match after(terminals, Mark::Refinement) {
        None => {
            ended(terminals)?;
            Ok((None, terminals))
        }
        Some(more) => {
            let (items, left) = refinement::items(alloc, more)?;
            ended(left)?;
            Ok((Some(items), left))
        }
    }
}

/// A component, after which nothing is left or another one begins.
fn component<'a>(alloc: Global, terminals: Rest<'a>) -> Result<(TreeComponent, Rest<'a>), Halt>
    ensures { ReadsAs component_tree IsWhole (ahead terminals.entry) result }
{
    let called = expect(terminals, Mark::Component)?;
    let (name, named) = name(alloc, called)?;
    let (system, faced) = system(named);
    let more = expect(faced, Mark::Interface)?;
    let (interface, refined) = interface::items(alloc, more)?;
    let (refinement, left) = refinement(alloc, refined)?;
    let component = TreeComponent {
        name,
        system,
        interface,
        refinement,
    };
    Ok((component, left))
}

/// Whether something is left.
fn has_more(terminals: Rest<'_>) -> bool
    ensures { MatchBool result (AtEnd (ahead terminals.entry) → ⊥) (AtEnd (ahead terminals.entry)) }
{
    !is_at_end(terminals)
}

/// All components.
fn components(alloc: Global, terminals: Rest<'_>) -> Result<SpecTree, Halt>
    ensures { ReadsComponents (ahead terminals.entry) result }
{
    let mut components = SpecTree::new(alloc);
    let mut rest = terminals;
    'each: while has_more(rest) {
        let (next, left) = component(alloc, rest)?;
        components.push(next)?;
        rest = left;
    }
    Ok(components)
}

/// The minus, with which the terminals have to begin.
fn expect_minus<'a>(terminals: Rest<'a>) -> Result<Rest<'a>, Halt>
    ensures { ReadsMinus (ahead terminals.entry) result }
{
    match minus(terminals) {
        Some((_, left)) => Ok(left),
        None => Err(Halt::Broken(broken(terminals, false))),
    }
}

/// What is left after the line `@requires discrete-time`, where it stands.
fn head<'a>(terminals: Rest<'a>) -> Result<Rest<'a>, Halt>
    ensures { ReadsHead (ahead terminals.entry) result }
{
    match after(terminals, Mark::At) {
        None => Ok(terminals),
        Some(at) => {
            let required = expect_name(at, "requires")?;
            let discrete = expect_name(required, "discrete")?;
            let dashed = expect_minus(discrete)?;
            let line = expect_name(dashed, "time")?;
            match after(line, Mark::Semicolon) {
                Some(left) => Ok(left),
                None => Ok(line),
            }
        }
    }
}

/// The whole text.
pub fn text(alloc: Global, terminals: Rest<'_>) -> Result<SpecTree, Halt>
    ensures { ReadsSpec (ahead terminals.entry) result }
{
    let left = head(terminals)?;
    components(alloc, left)
}
