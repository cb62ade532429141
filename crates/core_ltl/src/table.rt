//! A closure as two hashed tables, and the steps that add one node. May touch the allocator.

ghost use Rattle.std.specs.Prelude.{◌≡◌, ◌≤◌, [], length};
ghost use Rattle.typed_ltl.specs.Formulas.{proposition_of};
ghost use Rattle.core_ltl.specs.Order.{after_node, after_atom, after_until};
ghost use Rattle.core_ltl.specs.Steps.{after_not, after_both, after_not_and, after_implication, after_not_until};
ghost use Rattle.core_ltl.specs.Tables.{table_members, Adds};

use crate::node::{AtomId, Node, NodeId};
use crate::stop::ClosureStop;
use indexmap::IndexSet;
use std::alloc::Global;
use typed_ltl::Atom;

/// The nodes and the atoms, each once, in the order in which they came.
#[derive(Drop)]
pub(crate) struct Table {
    pub(crate) nodes: IndexSet<Node>,
    pub(crate) atoms: IndexSet<Atom>,
}

impl Table {
    pub(crate) fn new(alloc: Global) -> Table
        ensures nodes { result.nodes.keys ≡ [] }
        ensures atoms { result.atoms.keys ≡ [] }
    {
        Table {
            nodes: IndexSet::new(alloc),
            atoms: IndexSet::new(alloc),
        }
    }

    /// The node's number; it goes last where it is not there.
    pub(crate) fn put(&mut self, limit: u32, node: Node) -> Result<NodeId, ClosureStop>
        ensures { Adds limit self.old self.new (after_node (table_members self.old) node) result }
    {
        let (place, _) = self.nodes.insert_full(node)?;
        if self.nodes.len() > limit as usize {
            return Err(ClosureStop::TooLarge);
        }
        Ok(NodeId(place as u32))
    }

    /// The node of an atom.
    pub(crate) fn put_atom(
        &mut self,
        alloc: Global,
        limit: u32,
        atom: &Atom,
    ) -> Result<NodeId, ClosureStop>
        requires few { length self.old.atoms.keys ≤ length self.old.nodes.keys }
        requires within { length self.old.nodes.keys ≤ limit }
        ensures { Adds limit self.old self.new (after_atom (table_members self.old) (proposition_of atom.now)) result }
    {
        let copy = atom.copy(alloc)?;
        let (place, _) = self.atoms.insert_full(copy)?;
        self.put(limit, Node::Atom(AtomId(place as u32)))
    }

    pub(crate) fn put_not(&mut self, limit: u32, k: NodeId) -> Result<NodeId, ClosureStop>
        ensures { Adds limit self.old self.new (after_not (table_members self.old) k) result }
    {
        self.put(limit, Node::Not(k))
    }

    pub(crate) fn put_both(
        &mut self,
        limit: u32,
        k: NodeId,
        l: NodeId,
    ) -> Result<NodeId, ClosureStop>
        ensures { Adds limit self.old self.new (after_both (table_members self.old) k l) result }
    {
        self.put(limit, Node::And(k, l))
    }

    fn put_not_and(&mut self, limit: u32, k: NodeId, l: NodeId) -> Result<NodeId, ClosureStop>
        ensures { Adds limit self.old self.new (after_not_and (table_members self.old) k l) result }
    {
        let both = self.put_both(limit, k, l)?;
        self.put_not(limit, both)
    }

    /// The node of k implies l.
    pub(crate) fn put_implication(
        &mut self,
        limit: u32,
        k: NodeId,
        l: NodeId,
    ) -> Result<NodeId, ClosureStop>
        ensures { Adds limit self.old self.new (after_implication (table_members self.old) k l) result }
    {
        let opposite = self.put_not(limit, l)?;
        self.put_not_and(limit, k, opposite)
    }

    /// The node of k until l, and right after a new one its next.
    pub(crate) fn put_until(
        &mut self,
        limit: u32,
        k: NodeId,
        l: NodeId,
    ) -> Result<NodeId, ClosureStop>
        ensures { Adds limit self.old self.new (after_until (table_members self.old) k l) result }
    {
        let until = self.put(limit, Node::Until(k, l))?;
        self.put(limit, Node::Next(until))?;
        Ok(until)
    }

    pub(crate) fn put_not_until(
        &mut self,
        limit: u32,
        k: NodeId,
        l: NodeId,
    ) -> Result<NodeId, ClosureStop>
        ensures { Adds limit self.old self.new (after_not_until (table_members self.old) k l) result }
    {
        let until = self.put_until(limit, k, l)?;
        self.put_not(limit, until)
    }
}
