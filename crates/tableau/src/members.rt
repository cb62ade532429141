//! The members of a layer, one after the other, and a whole layer.
//!
//! Main function: `code_layer`. Touches the base that it is lent, and memory.

ghost use Rattle.std.specs.Prelude.{◌≡◌, ◌<◌, ◌≤◌, ◌+◌, ◌++◌, ℕ, [], List, Bool, Some, IfOk, OnOk, length, slice_get};
ghost use Rattle.core_ltl.specs.declared.node.NodeId.{NodeId as NodeNumber};
ghost use Rattle.core_ltl.specs.declared.node.Node.TheVariants as form;
ghost use Rattle.cnf.specs.Clauses.{IsConservative, IsModel};
ghost use Rattle.cnf.specs.Gates.{literal};
ghost use Rattle.state_coding.specs.Coded.{IsCoded};
ghost use Rattle.state_coding.specs.States.{IsCodedState};
ghost use Rattle.state_coding.specs.Reads.{ReadsPorts};
ghost use Rattle.tableau.specs.TableauStates.{CanBeCoded, TableauState, IsTableauState, atom_at};
ghost use Rattle.tableau.specs.Copies.{member_literal, member_coding, next_coding, members_coding, copy_coding};
ghost use Rattle.tableau.specs.Copies.{layer_state, unfilled, IsCodedLayer};
ghost use Rattle.tableau.specs.Parts.{HasPart, EveryStateExtends, IsLayerCoded, is_until, next_of};

use crate::construction::Tableau;
use crate::layers::Layer;
use crate::untils::gate_until;
use cnf::{ClauseBase, Lit, gate_all, gate_and};
use core_ltl::{AtomId, Node, NodeId};
use port_types::NoMemory;
use state_coding::{StateBits, atoms_are_right, code_atom, code_state, states_stay};
use std::alloc::Global;

fn is_until(node: Node) -> bool
    ensures { result ≡ is_until node }
{
    matches!(node, Node::Until(_, _))
}

/// The literal of the variable after that of a literal.
///
/// Answers `NoMemory` where there is no number for it.
fn following(lit: Lit) -> Result<Lit, NoMemory>
    ensures { IfOk result (λ next. next ≡ literal (lit.var + 1)) }
{
    match lit.var.checked_add(1) {
        Some(var) => Ok(Lit {
            var,
            positive: true,
        }),
        None => Err(NoMemory),
    }
}

/// The literal of the Next of a node that has this literal.
fn code_next_of<B: ClauseBase>(base: &mut B, until: bool, lit: Lit) -> Result<Lit, NoMemory>
    ensures grows { IsConservative (B.vars base.old) (B.clauses base.old) (B.vars base.new) (B.clauses base.new) }
    ensures coded { IfOk result (λ next. IsCoded (B.clauses base.old) (B.vars base.new) (B.clauses base.new) next
        (next_of until (B.vars base.old) lit)) }
{
    if until {
        return following(lit);
    }
    let var = base.new_var()?;
    Ok(Lit {
        var,
        positive: true,
    })
}

/// The literal of the Next of a node: the variable after that of an until, else a new one.
fn code_next<B: ClauseBase>(
    base: &mut B,
    tableau: &Tableau,
    layer: &Layer,
    node: NodeId,
) -> Result<Lit, NoMemory>
    requires node { node.0 < length layer.now.members }
    requires count { length layer.now.members ≤ length tableau.now.closure.nodes }
    ensures grows { IsConservative (B.vars base.old) (B.clauses base.old) (B.vars base.new) (B.clauses base.new) }
    ensures coded { IfOk result (λ lit. IsCoded (B.clauses base.old) (B.vars base.new) (B.clauses base.new) lit
        (next_coding (B.vars base.old) (slice_get tableau.now.closure.nodes node.0)
        (member_literal layer.now node.0))) }
{
    let until = is_until(tableau.nodes()[node.0 as usize]);
    let lit = code_next_of(base, until, layer.member(node))?;
    Ok(lit)
}

/// The literal of a member that is an atom, with its clauses.
fn code_fact<B: ClauseBase>(
    alloc: Global,
    base: &mut B,
    tableau: &Tableau,
    layer: &Layer,
    atom: AtomId,
) -> Result<Lit, NoMemory>
    requires atom { atom.0 < length tableau.now.closure.atoms }
    requires reads { ReadsPorts tableau.now.ports (atom_at tableau.now atom) }
    requires now { IsCodedState (B.vars base.old) (B.clauses base.old) tableau.now.ports layer.now.bits }
    requires next { IsCodedState (B.vars base.old) (B.clauses base.old) tableau.now.ports layer.now.next_bits }
    ensures grows { IsConservative (B.vars base.old) (B.clauses base.old) (B.vars base.new) (B.clauses base.new) }
    ensures coded { IfOk result (λ lit. IsCoded (B.clauses base.old) (B.vars base.new) (B.clauses base.new) lit
        (member_coding tableau.now layer.now (B.vars base.old) (form.Atom atom))) }
{
    let lit = code_atom(
        alloc,
        base,
        tableau.ports(),
        layer.now(),
        layer.next(),
        &tableau.atoms()[atom.0 as usize],
    )?;
    Ok(lit)
}

/// The literal of the next member, with its clauses.
fn code_member<B: ClauseBase>(
    alloc: Global,
    base: &mut B,
    tableau: &Tableau,
    layer: &Layer,
    node: Node,
) -> Result<Lit, NoMemory>
    requires coded { CanBeCoded tableau.now }
    requires node { slice_get tableau.now.closure.nodes (length layer.now.members) ≡ Some node }
    requires part { HasPart (B.vars base.old) tableau.now layer.now }
    requires now { IsCodedState (B.vars base.old) (B.clauses base.old) tableau.now.ports layer.now.bits }
    requires next { IsCodedState (B.vars base.old) (B.clauses base.old) tableau.now.ports layer.now.next_bits }
    ensures grows { IsConservative (B.vars base.old) (B.clauses base.old) (B.vars base.new) (B.clauses base.new) }
    ensures coded { IfOk result (λ lit. IsCoded (B.clauses base.old) (B.vars base.new) (B.clauses base.new) lit
        (member_coding tableau.now layer.now (B.vars base.old) node)) }
{
    match node {
        Node::True => gate_all(alloc, base, &[]),
        Node::Atom(atom) => code_fact(alloc, base, tableau, layer, atom),
        Node::Not(k) => Ok(layer.member(k).negated()),
        Node::And(k, l) => gate_and(base, layer.member(k), layer.member(l)),
        Node::Next(k) => code_next(base, tableau, layer, k),
        Node::Until(k, l) => gate_until(base, layer.member(k), layer.member(l)),
    }
}

/// All members, one after the other, over the bits of two valuations.
fn code_members<B: ClauseBase>(
    alloc: Global,
    base: &mut B,
    tableau: &Tableau,
    now: StateBits,
    next: StateBits,
) -> Result<Layer, NoMemory>
    requires now { IsCodedState (B.vars base.old) (B.clauses base.old) tableau.now.ports now }
    requires next { IsCodedState (B.vars base.old) (B.clauses base.old) tableau.now.ports next }
    ensures grows { IsConservative (B.vars base.old) (B.clauses base.old) (B.vars base.new) (B.clauses base.new) }
    ensures coded { IfOk result (λ layer. IsLayerCoded (B.clauses base.old) (B.vars base.new) (B.clauses base.new)
        layer (members_coding tableau.now (unfilled now next) (B.vars base.old) tableau.now.closure.nodes)) }
    ensures every { IfOk result (λ layer. EveryStateExtends (B.vars base.old) (B.clauses base.old) (B.vars base.new)
        (B.clauses base.new) tableau.now (unfilled now next) layer) }
{
    // laws, no code runs
    cnf::gates_are_right();
    atoms_are_right();
    states_stay();
    let nodes = tableau.nodes();
    let mut layer = Layer::unfilled(alloc, now, next);
    for i in 0..nodes.len() {
        let lit = code_member(alloc, base, tableau, &layer, nodes[i])?;
        layer.push(lit)?;
    }
    Ok(layer)
}

/// A whole layer: both valuations, and then the members.
pub(crate) fn code_layer<B: ClauseBase>(
    alloc: Global,
    base: &mut B,
    tableau: &Tableau,
) -> Result<Layer, NoMemory>
    ensures layer { IfOk result (λ layer. IsCodedLayer (B.vars base.new) (B.clauses base.new) tableau.now layer) }
    ensures every { IfOk result (λ layer. (model : List Bool) → IsModel (B.vars base.old) (B.clauses base.old) model
        → (state : TableauState) → IsTableauState tableau.now state
        → (more : List Bool) × IsModel (B.vars base.new) (B.clauses base.new) (model ++ more)
        × (layer_state (model ++ more) tableau.now layer ≡ state)) }
    ensures grows { IsConservative (B.vars base.old) (B.clauses base.old) (B.vars base.new) (B.clauses base.new) }
    ensures coded { IfOk result (λ layer. IsLayerCoded (B.clauses base.old) (B.vars base.new) (B.clauses base.new)
        layer (copy_coding tableau.now (B.vars base.old))) }
{
    // laws, no code runs
    cnf::gates_are_right();
    atoms_are_right();
    states_stay();
    let ports = tableau.ports();
    let now = code_state(alloc, base, ports)?;
    let next = code_state(alloc, base, ports)?;
    let layer = code_members(alloc, base, tableau, now, next)?;
    Ok(layer)
}
