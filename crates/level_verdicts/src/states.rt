//! Whether the formulas of a level speak of one position alone: `is_state_level`. Touches nothing.

ghost use Rattle.std.specs.Prelude.{◌≡◌};
ghost use Rattle.std.specs.List.{list_all};
ghost use Rattle.typed_ltl.specs.Formulas.{number_of, choice_of, proposition_of};
ghost use Rattle.level_verdicts.specs.Steps.{is_state_number, is_state_choice, is_state_test};
ghost use Rattle.level_verdicts.specs.Steps.{has_state_test, is_state_node as is_state_form, is_state_closure};

use core_ltl::Node;
use levels::Level;
use typed_ltl::{Atom, Pick, Term};

fn is_state_term(term: &Term) -> bool
    ensures { result ≡ is_state_number (number_of term.now) }
{
    match term {
        Term::Const(_) => true,
        Term::Port { port: _, next } => !*next,
        Term::Plus(a, b) => is_state_term(a.get()) && is_state_term(b.get()),
        Term::Minus(a, b) => is_state_term(a.get()) && is_state_term(b.get()),
        Term::Negate(a) => is_state_term(a.get()),
    }
}

fn is_state_pick(pick: &Pick) -> bool
    ensures { result ≡ is_state_choice (choice_of pick.now) }
{
    match pick {
        Pick::Name(_) => true,
        Pick::Port { port: _, next } => !*next,
    }
}

fn is_state_atom(atom: &Atom) -> bool
    ensures { result ≡ has_state_test atom.now }
{
    match atom {
        Atom::Port { port: _, next } => !*next,
        Atom::Equal(a, b) => is_state_term(a) && is_state_term(b),
        Atom::AtMost(a, b) => is_state_term(a) && is_state_term(b),
        Atom::Same(a, b) => is_state_pick(a) && is_state_pick(b),
    }
}

fn is_state_node(node: &Node) -> bool
    ensures { result ≡ is_state_form node.now }
{
    match node {
        Node::True => true,
        Node::Atom(_) => true,
        Node::Not(_) => true,
        Node::And(_, _) => true,
        Node::Next(_) => false,
        Node::Until(_, _) => false,
    }
}

fn are_state_nodes(nodes: &[Node]) -> bool
    ensures { result ≡ list_all is_state_form nodes.now }
{
    nodes.iter().all(is_state_node)
}

fn are_state_atoms(atoms: &[Atom]) -> bool
    ensures { result ≡ list_all has_state_test atoms.now }
{
    atoms.iter().all(is_state_atom)
}

/// Whether the formulas of a level speak of one position alone. Its closure tells: each temporal operator of a formula
/// has a node there, and each read of a next valuation stands in an atom.
pub(crate) fn is_state_level(level: &Level) -> bool
    ensures { result ≡ is_state_closure level.now.closure }
{
    let closure = level.closure();
    are_state_nodes(closure.nodes()) && are_state_atoms(closure.atoms())
}
