//! The nodes of each form and of the sample's first level, worked by hand.

ghost use Rattle.std.specs.Prelude.{◌≤◌, OnOk, length};

use core_ltl::{AtomId, Closure, ClosureStop, Node, NodeId};
use port_types::{NoMemory, PortId};
use std::alloc::Global;
use std::test::Fail;
use typed_ltl::{Atom, Formula};

/// The nodes of the first level of a chain of stages, A and G and then A, G and their normal form of both parts.
const SAMPLE: [Node; 34] = [
    Node::True,
    Node::Atom(AtomId(0)),
    Node::Atom(AtomId(1)),
    Node::Until(NodeId(0), NodeId(2)),
    Node::Next(NodeId(3)),
    Node::Not(NodeId(3)),
    Node::And(NodeId(1), NodeId(5)),
    Node::Not(NodeId(6)),
    Node::Not(NodeId(7)),
    Node::Until(NodeId(0), NodeId(8)),
    Node::Next(NodeId(9)),
    Node::Not(NodeId(9)),
    Node::Atom(AtomId(2)),
    Node::Until(NodeId(0), NodeId(12)),
    Node::Next(NodeId(13)),
    Node::Not(NodeId(13)),
    Node::And(NodeId(1), NodeId(15)),
    Node::Not(NodeId(16)),
    Node::Not(NodeId(17)),
    Node::Until(NodeId(0), NodeId(18)),
    Node::Next(NodeId(19)),
    Node::Not(NodeId(19)),
    Node::Not(NodeId(21)),
    Node::And(NodeId(0), NodeId(22)),
    Node::Not(NodeId(23)),
    Node::And(NodeId(12), NodeId(5)),
    Node::Not(NodeId(25)),
    Node::Not(NodeId(26)),
    Node::Until(NodeId(0), NodeId(27)),
    Node::Next(NodeId(28)),
    Node::Not(NodeId(28)),
    Node::Not(NodeId(30)),
    Node::And(NodeId(0), NodeId(31)),
    Node::Not(NodeId(32)),
];

/// The forms of formulas, over the ports 7 and 9.
#[derive(Clone, Copy)]
enum Form {
    False,
    Or,
    Implies,
    Iff,
    Then,
    Until,
    Releases,
    Future,
    Always,
    Never,
}

/// Each form with the nodes of its closure.
const FORMS: [(Form, &[Node]); 10] = [
    (Form::False, &[Node::True, Node::Not(NodeId(0))]),
    (
        Form::Or,
        &[
            Node::Atom(AtomId(0)),
            Node::Not(NodeId(0)),
            Node::Atom(AtomId(1)),
            Node::Not(NodeId(2)),
            Node::And(NodeId(1), NodeId(3)),
            Node::Not(NodeId(4)),
        ],
    ),
    (
        Form::Implies,
        &[
            Node::Atom(AtomId(0)),
            Node::Atom(AtomId(1)),
            Node::Not(NodeId(1)),
            Node::And(NodeId(0), NodeId(2)),
            Node::Not(NodeId(3)),
        ],
    ),
    (
        Form::Iff,
        &[
            Node::Atom(AtomId(0)),
            Node::Atom(AtomId(1)),
            Node::Not(NodeId(1)),
            Node::And(NodeId(0), NodeId(2)),
            Node::Not(NodeId(3)),
            Node::Not(NodeId(0)),
            Node::And(NodeId(1), NodeId(5)),
            Node::Not(NodeId(6)),
            Node::And(NodeId(4), NodeId(7)),
        ],
    ),
    (Form::Then, &[Node::Atom(AtomId(0)), Node::Next(NodeId(0))]),
    (
        Form::Until,
        &[
            Node::Atom(AtomId(0)),
            Node::Atom(AtomId(1)),
            Node::Until(NodeId(0), NodeId(1)),
            Node::Next(NodeId(2)),
        ],
    ),
    (
        Form::Releases,
        &[
            Node::Atom(AtomId(0)),
            Node::Not(NodeId(0)),
            Node::Atom(AtomId(1)),
            Node::Not(NodeId(2)),
            Node::Until(NodeId(1), NodeId(3)),
            Node::Next(NodeId(4)),
            Node::Not(NodeId(4)),
        ],
    ),
    (
        Form::Future,
        &[
            Node::True,
            Node::Atom(AtomId(0)),
            Node::Until(NodeId(0), NodeId(1)),
            Node::Next(NodeId(2)),
        ],
    ),
    (
        Form::Always,
        &[
            Node::True,
            Node::Atom(AtomId(0)),
            Node::Not(NodeId(1)),
            Node::Until(NodeId(0), NodeId(2)),
            Node::Next(NodeId(3)),
            Node::Not(NodeId(3)),
        ],
    ),
    (
        Form::Never,
        &[
            Node::True,
            Node::Atom(AtomId(0)),
            Node::Until(NodeId(0), NodeId(1)),
            Node::Next(NodeId(2)),
            Node::Not(NodeId(2)),
        ],
    ),
];

fn port(number: u32) -> Formula {
    Formula::Atom(Atom::Port {
        port: PortId(number),
        next: false,
    })
}

fn formula_of(alloc: Global, form: Form) -> Result<Formula, NoMemory> {
    match form {
        Form::False => Ok(Formula::False),
        Form::Or => Formula::either(alloc, port(7), port(9)),
        Form::Implies => Formula::implication(alloc, port(7), port(9)),
        Form::Iff => Formula::equivalence(alloc, port(7), port(9)),
        Form::Then => Formula::then(alloc, port(7)),
        Form::Until => Formula::until(alloc, port(7), port(9)),
        Form::Releases => Formula::releases(alloc, port(7), port(9)),
        Form::Future => Formula::future(alloc, port(7)),
        Form::Always => Formula::always(alloc, port(7)),
        Form::Never => Formula::never(alloc, port(7)),
    }
}

/// Whether the closure of this formula alone has exactly these nodes.
fn has_nodes(alloc: Global, form: Form, nodes: &[Node]) -> Result<bool, ClosureStop> {
    let formula = formula_of(alloc, form)?;
    let mut closure = Closure::new(alloc);
    closure.desugar_within(alloc, &formula, 64)?;
    Ok(closure.nodes() == nodes)
}

#[test]
fn nodes_of_each_form(rt: HostRuntime) -> Result<(), Fail> {
    for (i, (form, nodes)) in FORMS.iter().enumerate() {
        let right = has_nodes(rt.alloc(), *form, nodes)?;
        assert!(rt; right, "at {i}");
    }
    Ok(())
}

fn add(alloc: Global, closure: &mut Closure, f: Formula) -> Result<NodeId, ClosureStop>
    requires { length closure.old.nodes ≤ 1024 }
    ensures { OnOk result (length closure.new.nodes ≤ 1024) }
{
    closure.desugar_within(alloc, &f, 1024)
}

/// Always, where p holds, q holds then or later.
fn response(alloc: Global, p: u32, q: u32) -> Result<Formula, NoMemory> {
    let answer = Formula::future(alloc, port(q))?;
    Formula::always(alloc, Formula::implication(alloc, port(p), answer)?)
}

/// True implies such a response.
fn normal_form(alloc: Global, p: u32, q: u32) -> Result<Formula, NoMemory> {
    let guarantee = response(alloc, p, q)?;
    Formula::implication(alloc, Formula::True, guarantee)
}

fn add_response(alloc: Global, closure: &mut Closure, p: u32, q: u32) -> Result<(), ClosureStop>
    requires { length closure.old.nodes ≤ 1024 }
    ensures { OnOk result (length closure.new.nodes ≤ 1024) }
{
    let guarantee = response(alloc, p, q)?;
    add(alloc, closure, guarantee)?;
    Ok(())
}

fn add_normal_form(alloc: Global, closure: &mut Closure, p: u32, q: u32) -> Result<(), ClosureStop>
    requires { length closure.old.nodes ≤ 1024 }
    ensures { OnOk result (length closure.new.nodes ≤ 1024) }
{
    let formula = normal_form(alloc, p, q)?;
    add(alloc, closure, formula)?;
    Ok(())
}

fn add_part(alloc: Global, closure: &mut Closure, p: u32, q: u32) -> Result<(), ClosureStop>
    requires { length closure.old.nodes ≤ 1024 }
    ensures { OnOk result (length closure.new.nodes ≤ 1024) }
{
    add(alloc, closure, Formula::True)?;
    add_response(alloc, closure, p, q)?;
    add_normal_form(alloc, closure, p, q)?;
    Ok(())
}

/// The level over the ports req, h.ack and t.ack.
fn sample_level(alloc: Global) -> Result<Closure, ClosureStop> {
    let mut closure = Closure::new(alloc);
    add(alloc, &mut closure, Formula::True)?;
    add_response(alloc, &mut closure, 0, 2)?;
    add_part(alloc, &mut closure, 0, 1)?;
    add_part(alloc, &mut closure, 1, 2)?;
    Ok(closure)
}

/// Whether the members of the level are those above, over three atoms.
fn sample_is_right(alloc: Global) -> Result<bool, ClosureStop> {
    let closure = sample_level(alloc)?;
    Ok(closure.nodes() == SAMPLE.as_slice() && closure.atoms().len() == 3)
}

#[test]
fn members_of_the_first_level(rt: HostRuntime) -> Result<(), Fail> {
    assert!(rt; sample_is_right(rt.alloc())?);
    Ok(())
}

/// The number of the one node of True, where no limit is given.
fn node_of_true(alloc: Global) -> Result<NodeId, NoMemory> {
    let mut closure = Closure::new(alloc);
    let node = closure.desugar(alloc, &Formula::True)?;
    Ok(node)
}

#[test]
fn true_without_a_limit(rt: HostRuntime) -> Result<(), Fail> {
    assert_eq!(rt; node_of_true(rt.alloc())?, NodeId(0));
    Ok(())
}
