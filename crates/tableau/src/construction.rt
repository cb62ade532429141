//! The tableau of a closure over ports: what its members and its fairness conditions are, and its copies and
//! steps in clauses.
//!
//! Main functions: `Tableau::new`, `Tableau::code_copy`, `Tableau::code_step`. Touches the base that it is
//! lent, and memory.

ghost use Rattle.std.specs.Prelude.{◌≡◌, ◌<◌, ◌≤◌, ◌+◌, ◌++◌, ℕ, List, Bool, true, Some, IfOk, OnOk, All, length, map};
ghost use Rattle.std.specs.Prelude.{slice_get};
ghost use Rattle.typed_ltl.specs.Formulas.{proposition_of};
ghost use Rattle.cnf.specs.declared.lit.Lit.{Lit as LitValue};
ghost use Rattle.cnf.specs.Clauses.{IsConservative, IsModel, clauses_hold, lit_holds};
ghost use Rattle.state_coding.specs.Codes.{IsCodable};
ghost use Rattle.state_coding.specs.Reads.{ReadsPorts};
ghost use Rattle.tableau.specs.TableauStates.{CanBeCoded, TableauState, IsTableauState, IsTableauStep};
ghost use Rattle.tableau.specs.TableauStates.{fairness, until_at, untils_from};
ghost use Rattle.tableau.specs.Copies.{copy_coding, layer_state, IsCodedLayer};
ghost use Rattle.tableau.specs.Steps.{step_clauses};

use crate::layers::Layer;
use crate::members::code_layer;
use crate::steps::code_layers_step;
use cnf::{ClauseBase, Lit};
use core_ltl::{Closure, Node, NodeId};
use port_types::NoMemory;
use std::alloc::Global;
use std::marker::Model;
use typed_ltl::{Atom, Ports};

/// The tableau of a closure over ports. Contracts see the two.
#[derive(Drop)]
pub struct Tableau {
    nodes: Vec<Node>,
    atoms: Vec<Atom>,
    ports: Ports,
    /// The untils with their right sides, in the order of the closure.
    untils: Vec<(NodeId, NodeId)>,
}

impl Model for Tableau {
    ghost use Rattle.std.specs.Prelude.{◌≡◌};
    ghost use Rattle.typed_ltl.specs.contracts.term.Term as term;
    ghost use Rattle.std.specs.Coded.{codes};
    ghost use Rattle.tableau.specs.TableauStates.{ClosureOverPorts, CanBeCoded, untils_from};
    ghost use Rattle.tableau.specs.Parts.{over};

    ghost Value = { ClosureOverPorts };

    ghost coded = { Prim.hlevel (codes, term.the_row.coded) };

    ghost view = { λ t. over t.nodes.items t.atoms.items t.ports };

    ghost invariant = { λ t. CanBeCoded (over t.nodes.items t.atoms.items t.ports)
        × (t.untils.items ≡ untils_from 0 t.nodes.items) };
}

fn copied_atoms(alloc: Global, atoms: &[Atom]) -> Result<Vec<Atom>, NoMemory>
    ensures { IfOk result (λ copies. copies.items ≡ atoms.now) }
{
    let mut copies = Vec::new(alloc);
    for atom in atoms {
        copies.push(atom.copy(alloc)?)?;
    }
    Ok(copies)
}

/// Puts an until with its right side at the end; another node changes nothing.
fn push_until(untils: &mut Vec<(NodeId, NodeId)>, place: u32, node: Node) -> Result<(), NoMemory>
    ensures { OnOk result (untils.new.items ≡ untils.old.items ++ until_at place node) }
{
    match node {
        Node::Until(_, right) => {
            untils.push((NodeId(place), right))?;
            Ok(())
        }
        _ => Ok(()),
    }
}

/// The untils with their right sides, in the order of the nodes.
fn untils_of(alloc: Global, nodes: &[Node]) -> Result<Vec<(NodeId, NodeId)>, NoMemory>
    requires { length nodes.now ≤ 1024 }
    ensures { IfOk result (λ untils. untils.items ≡ untils_from 0 nodes.now) }
{
    let mut untils = Vec::new(alloc);
    for i in 0..nodes.len() {
        push_until(&mut untils, i as u32, nodes[i])?;
    }
    Ok(untils)
}

impl Tableau {
    /// The tableau of a closure of at most 1,024 members, whose atoms read these ports.
    pub fn new(alloc: Global, closure: &Closure, ports: &Ports) -> Result<Tableau, NoMemory>
        requires few { length closure.now.nodes ≤ 1024 }
        requires ports { All IsCodable ports.now }
        requires atoms { All (ReadsPorts ports.now) (map proposition_of closure.now.atoms) }
        ensures closure { IfOk result (λ tableau. tableau.closure ≡ closure.now) }
        ensures ports { IfOk result (λ tableau. tableau.ports ≡ ports.now) }
    {
        let mut nodes = Vec::new(alloc);
        nodes.extend_from_slice(closure.nodes())?;
        let atoms = copied_atoms(alloc, closure.atoms())?;
        let ports = ports.copy()?;
        let untils = untils_of(alloc, closure.nodes())?;
        Ok(Tableau {
            nodes,
            atoms,
            ports,
            untils,
        })
    }

    /// The nodes of the closure.
    pub(crate) fn nodes(&self) -> &[Node]
        ensures nodes { result.now ≡ self.now.closure.nodes }
        ensures coded { CanBeCoded self.now }
    {
        self.nodes.as_slice()
    }

    /// The atoms of the closure.
    pub(crate) fn atoms(&self) -> &[Atom]
        ensures { result.now ≡ self.now.closure.atoms }
    {
        self.atoms.as_slice()
    }

    /// The ports.
    pub fn ports(&self) -> &Ports
        ensures ports { result.now ≡ self.now.ports }
        ensures coded { CanBeCoded self.now }
    {
        &self.ports
    }

    /// The number of members of the closure.
    pub fn members(&self) -> usize
        ensures members { result ≡ length self.now.closure.nodes }
        ensures coded { CanBeCoded self.now }
    {
        self.nodes.len()
    }

    /// The number of fairness conditions, from 1 to 1,024.
    pub fn conditions(&self) -> usize
        ensures conditions { result ≡ length (fairness self.now) }
        ensures some { 0 < result }
        ensures few { result ≤ 1024 }
    {
        if self.untils.is_empty() {
            1
        } else {
            self.untils.len()
        }
    }

    /// The until of a fairness condition and its right side, None for the one condition True.
    pub fn condition(&self, j: usize) -> Option<(NodeId, NodeId)>
        requires { j < length (fairness self.now) }
        ensures { slice_get (fairness self.now) j ≡ Some result }
    {
        if self.untils.is_empty() {
            None
        } else {
            Some(self.untils[j])
        }
    }

    /// Codes a layer: new bits and literals that are a state of the tableau.
    ///
    /// In every model the layer is a state of the tableau, and every older model has one with every such state.
    /// Whatever the answer, each older model is the front of a newer one.
    pub fn code_copy<B: ClauseBase>(&self, alloc: Global, base: &mut B) -> Result<Layer, NoMemory>
        ensures layer { IfOk result (λ layer. IsCodedLayer (B.vars base.new) (B.clauses base.new) self.now layer) }
        ensures state { IfOk result (λ layer. (model : List Bool)
            → IsModel (B.vars base.new) (B.clauses base.new) model
            → IsTableauState self.now (layer_state model self.now layer)) }
        ensures every { IfOk result (λ layer. (model : List Bool) → IsModel (B.vars base.old) (B.clauses base.old) model
            → (state : TableauState) → IsTableauState self.now state
            → (more : List Bool) × IsModel (B.vars base.new) (B.clauses base.new) (model ++ more)
            × (layer_state (model ++ more) self.now layer ≡ state)) }
        ensures grows { IsConservative (B.vars base.old) (B.clauses base.old) (B.vars base.new) (B.clauses base.new) }
        ensures answer { IfOk result (λ layer. layer ≡ (copy_coding self.now (B.vars base.old)).layer) }
        ensures vars { OnOk result (B.vars base.new ≡ (copy_coding self.now (B.vars base.old)).vars) }
        ensures clauses { OnOk result
            (B.clauses base.new ≡ B.clauses base.old ++ (copy_coding self.now (B.vars base.old)).clauses) }
    {
        code_layer(alloc, base, self)
    }

    /// Codes a step: where `under` holds, the one layer steps to the other. Adds no variable.
    ///
    /// After Ok the models are exactly the older ones in which `under` is false or the layers are a step; after
    /// want of memory these at least are left.
    pub fn code_step<B: ClauseBase>(
        &self,
        base: &mut B,
        from: &Layer,
        to: &Layer,
        under: Lit,
    ) -> Result<(), NoMemory>
        requires from { IsCodedLayer (B.vars base.old) (B.clauses base.old) self.now from.now }
        requires to { IsCodedLayer (B.vars base.old) (B.clauses base.old) self.now to.now }
        requires under { under.var < B.vars base.old }
        ensures step { OnOk result ((model : List Bool) → B.vars base.new ≤ length model
            → clauses_hold model (B.clauses base.new) ≡ true → lit_holds model under ≡ true
            → IsTableauStep self.now (layer_state model self.now from.now) (layer_state model self.now to.now)) }
        ensures kept { (model : List Bool) → IsModel (B.vars base.old) (B.clauses base.old) model
            → (lit_holds model under ≡ true
            → IsTableauStep self.now (layer_state model self.now from.now) (layer_state model self.now to.now))
            → IsModel (B.vars base.new) (B.clauses base.new) model }
        ensures more { (added : List (List LitValue)) × (B.clauses base.new ≡ B.clauses base.old ++ added) }
        ensures vars { B.vars base.new ≡ B.vars base.old }
        ensures clauses { OnOk result
            (B.clauses base.new ≡ B.clauses base.old ++ step_clauses self.now from.now to.now under) }
    {
        // a law, no code runs
        cnf::gates_are_right();
        code_layers_step(base, self, from, to, under)?;
        Ok(())
    }
}
