//! Nodes and their numbers. May touch nothing.

use std::hash::{Hash, Hasher};

/// The number of a node: its place in the list of a closure's nodes.
#[derive(Clone, Copy, Debug, PartialEq, Eq, Hash)]
pub struct NodeId(pub u32);

/// The number of an atom: its place in the list of a closure's atoms.
#[derive(Clone, Copy, Debug, PartialEq, Eq, Hash)]
pub struct AtomId(pub u32);

/// A core formula whose operands are nodes.
#[derive(Clone, Copy, Debug)]
pub enum Node {
    True,
    Atom(AtomId),
    Not(NodeId),
    And(NodeId, NodeId),
    Next(NodeId),
    Until(NodeId, NodeId),
}

impl PartialEq for Node {
    ghost use Rattle.core_ltl.specs.Nodes.{node_eq};
    ghost use Rattle.core_ltl.specs.NodeHash.{node_eq_equivalence};
    ghost use Rattle.std.specs.Cmp.{partial_equiv_from_equiv};

    ghost eq = { node_eq };

    ghost laws = { partial_equiv_from_equiv node_eq_equivalence };

    fn eq(&self, other: &Node) -> bool {
        match (*self, *other) {
            (Node::True, Node::True) => true,
            (Node::Atom(a), Node::Atom(b)) => a.0 == b.0,
            (Node::Not(k), Node::Not(l)) => k.0 == l.0,
            (Node::And(k, l), Node::And(m, n)) => k.0 == m.0 && l.0 == n.0,
            (Node::Next(k), Node::Next(l)) => k.0 == l.0,
            (Node::Until(k, l), Node::Until(m, n)) => k.0 == m.0 && l.0 == n.0,
            _ => false,
        }
    }
}

impl Eq for Node {
    ghost use Rattle.core_ltl.specs.NodeHash.{node_eq_equivalence};

    ghost laws = { node_eq_equivalence };
}

impl Hash for Node {
    ghost use Rattle.core_ltl.specs.NodeHash.{node_writes};
    ghost use Rattle.core_ltl.specs.NodeHash.{node_writes_alike};

    ghost hash_input = { node_writes };

    ghost respects_eq = { node_writes_alike };

    fn hash<H: Hasher>(&self, state: &mut H) {
        match *self {
            Node::True => state.write_u8(0),
            Node::Atom(a) => {
                state.write_u8(1);
                state.write_u32(a.0);
            }
            Node::Not(k) => {
                state.write_u8(2);
                state.write_u32(k.0);
            }
            Node::And(k, l) => {
                state.write_u8(3);
                state.write_u32(k.0);
                state.write_u32(l.0);
            }
            Node::Next(k) => {
                state.write_u8(4);
                state.write_u32(k.0);
            }
            Node::Until(k, l) => {
                state.write_u8(5);
                state.write_u32(k.0);
                state.write_u32(l.0);
            }
        }
    }
}
