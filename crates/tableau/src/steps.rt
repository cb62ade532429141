//! Steps from one layer to another, under a literal.
//!
//! Main function: `code_layers_step`. Touches the base that it is lent, and nothing else.

ghost use Rattle.std.specs.Prelude.{◌≡◌, ◌<◌, ◌≤◌, ◌++◌, ◌^◌, ℕ, Some, All, OnOk, length, slice_get};
ghost use Rattle.core_ltl.specs.declared.node.NodeId.{NodeId as NodeNumber};
ghost use Rattle.core_ltl.specs.declared.node.Node.TheVariants as form;
ghost use Rattle.state_coding.specs.States.{HasBits};
ghost use Rattle.tableau.specs.Copies.{IsCodedLayer};
ghost use Rattle.tableau.specs.Steps.{same_clauses, same_row_clauses, same_state_clauses, next_clauses, nexts_clauses};
ghost use Rattle.tableau.specs.Steps.{step_clauses};
ghost use Rattle.tableau.specs.TableauStates.{CanBeCoded};
ghost use Rattle.tableau.specs.Parts.{AddsFront, next_operand};

use crate::clauses::add_clauses;
use crate::construction::Tableau;
use crate::layers::Layer;
use cnf::{ClauseBase, Lit};
use core_ltl::{Node, NodeId};
use port_types::NoMemory;
use state_coding::StateBits;

/// Two layers, of which the one steps to the other where `under` holds.
#[derive(Clone, Copy)]
struct Pair<'a> {
    from: &'a Layer,
    to: &'a Layer,
    under: Lit,
}

/// The two literals have the same value where `under` holds.
fn add_same<B: ClauseBase>(base: &mut B, under: Lit, x: Lit, y: Lit) -> Result<(), NoMemory>
    requires under { under.var < B.vars base.old }
    requires left { x.var < B.vars base.old }
    requires right { y.var < B.vars base.old }
    ensures vars { B.vars base.new ≡ B.vars base.old }
    ensures ok { OnOk result (B.clauses base.new ≡ B.clauses base.old ++ same_clauses under x y) }
    ensures front { AddsFront (B.clauses base.old) (B.clauses base.new) (same_clauses under x y) }
{
    let (not_under, not_x, not_y) = (under.negated(), x.negated(), y.negated());
    add_clauses(base, &[[not_under, not_x, y], [not_under, x, not_y]])?;
    Ok(())
}

/// The two rows have the same values where `under` holds.
fn add_same_rows<B: ClauseBase>(
    base: &mut B,
    under: Lit,
    row: &[Lit],
    other: &[Lit],
) -> Result<(), NoMemory>
    requires under { under.var < B.vars base.old }
    requires left { All (λ lit. lit.var < B.vars base.old) row.now }
    requires right { All (λ lit. lit.var < B.vars base.old) other.now }
    requires count { length row.now ≡ length other.now }
    ensures vars { B.vars base.new ≡ B.vars base.old }
    ensures ok { OnOk result (B.clauses base.new ≡ B.clauses base.old ++ same_row_clauses under row.now other.now) }
    ensures front { AddsFront (B.clauses base.old) (B.clauses base.new) (same_row_clauses under row.now other.now) }
{
    for i in 0..row.len() {
        add_same(base, under, row[i], other[i])?;
    }
    Ok(())
}

/// The two valuations are the same where `under` holds.
fn add_same_states<B: ClauseBase>(
    base: &mut B,
    tableau: &Tableau,
    under: Lit,
    bits: &StateBits,
    others: &StateBits,
) -> Result<(), NoMemory>
    requires under { under.var < B.vars base.old }
    requires left { HasBits (B.vars base.old) tableau.now.ports bits.now }
    requires right { HasBits (B.vars base.old) tableau.now.ports others.now }
    ensures vars { B.vars base.new ≡ B.vars base.old }
    ensures ok { OnOk result
        (B.clauses base.new ≡ B.clauses base.old ++ same_state_clauses under bits.now others.now) }
    ensures front { AddsFront (B.clauses base.old) (B.clauses base.new)
        (same_state_clauses under bits.now others.now) }
{
    for i in 0..bits.len() {
        add_same_rows(base, under, bits.row(i), others.row(i))?;
    }
    Ok(())
}

/// The operand of a Next.
fn next_operand(node: Node) -> Option<NodeId>
    ensures { result ≡ next_operand node }
{
    match node {
        Node::Next(k) => Some(k),
        _ => None,
    }
}

/// A Next of the one layer has the value of its operand in the other where `under` holds.
fn add_next<B: ClauseBase>(
    base: &mut B,
    pair: Pair<'_>,
    place: usize,
    node: Node,
) -> Result<(), NoMemory>
    requires under { pair.under.var < B.vars base.old }
    requires from { All (λ lit. lit.var < B.vars base.old) pair.from.now.members }
    requires to { All (λ lit. lit.var < B.vars base.old) pair.to.now.members }
    requires place { place < length pair.from.now.members }
    requires few { place < 2 ^ 32 }
    requires operand { (k : NodeNumber) → next_operand node ≡ Some k → k.0 < length pair.to.now.members }
    ensures vars { B.vars base.new ≡ B.vars base.old }
    ensures ok { OnOk result (B.clauses base.new ≡ B.clauses base.old
        ++ next_clauses pair.entry.under pair.entry.from.now pair.entry.to.now place node) }
    ensures front { AddsFront (B.clauses base.old) (B.clauses base.new)
        (next_clauses pair.entry.under pair.entry.from.now pair.entry.to.now place node) }
{
    match next_operand(node) {
        Some(k) => {
            let now = pair.from.member(NodeId(place as u32));
            add_same(base, pair.under, now, pair.to.member(k))?;
            Ok(())
        }
        None => Ok(()),
    }
}

/// Each Next of the one layer has the value of its operand in the other where `under` holds.
fn add_nexts<B: ClauseBase>(base: &mut B, nodes: &[Node], pair: Pair<'_>) -> Result<(), NoMemory>
    requires under { pair.under.var < B.vars base.old }
    requires from { All (λ lit. lit.var < B.vars base.old) pair.from.now.members }
    requires to { All (λ lit. lit.var < B.vars base.old) pair.to.now.members }
    requires count { length nodes.now ≡ length pair.from.now.members }
    requires few { length nodes.now ≤ 1024 }
    requires operands { (i : ℕ) (k : NodeNumber) → slice_get nodes.now i ≡ Some (form.Next k)
        → k.0 < length pair.to.now.members }
    ensures vars { B.vars base.new ≡ B.vars base.old }
    ensures ok { OnOk result (B.clauses base.new ≡ B.clauses base.old
        ++ nexts_clauses pair.entry.under pair.entry.from.now pair.entry.to.now 0 nodes.now) }
    ensures front { AddsFront (B.clauses base.old) (B.clauses base.new)
        (nexts_clauses pair.entry.under pair.entry.from.now pair.entry.to.now 0 nodes.now) }
{
    for i in 0..nodes.len() {
        add_next(base, pair, i, nodes[i])?;
    }
    Ok(())
}

/// The one layer steps to the other where `under` holds.
pub(crate) fn code_layers_step<B: ClauseBase>(
    base: &mut B,
    tableau: &Tableau,
    from: &Layer,
    to: &Layer,
    under: Lit,
) -> Result<(), NoMemory>
    requires from { IsCodedLayer (B.vars base.old) (B.clauses base.old) tableau.now from.now }
    requires to { IsCodedLayer (B.vars base.old) (B.clauses base.old) tableau.now to.now }
    requires under { under.var < B.vars base.old }
    ensures coded { CanBeCoded tableau.now }
    ensures vars { B.vars base.new ≡ B.vars base.old }
    ensures ok { OnOk result
        (B.clauses base.new ≡ B.clauses base.old ++ step_clauses tableau.now from.now to.now under) }
    ensures front { AddsFront (B.clauses base.old) (B.clauses base.new)
        (step_clauses tableau.now from.now to.now under) }
{
    let nodes = tableau.nodes();
    add_same_states(base, tableau, under, from.next(), to.now())?;
    add_nexts(base, nodes, Pair { from, to, under })?;
    Ok(())
}
