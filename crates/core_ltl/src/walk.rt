//! The walk of a formula into the tables of a closure: the main function is `walk`. May touch the allocator.

ghost use Rattle.std.specs.Prelude.{◌≡◌, ◌≤◌, length};
ghost use Rattle.typed_ltl.specs.Formulas.{meaning, proposition_of};
ghost use Rattle.core_ltl.specs.CoreFormulas.{core_form};
ghost use Rattle.core_ltl.specs.CoreFormulas as core;
ghost use Rattle.core_ltl.specs.Nodes.{IsClosure};
ghost use Rattle.core_ltl.specs.Order.{after_formula};
ghost use Rattle.core_ltl.specs.Steps.{unary_core, temporal_core, binary_core, left_core};
ghost use Rattle.core_ltl.specs.Steps.{after_unary, after_temporal, after_left, after_right};
ghost use Rattle.core_ltl.specs.Tables.{table_members, Adds};

use crate::node::{Node, NodeId};
use crate::stop::ClosureStop;
use crate::table::Table;
use std::alloc::Global;
use typed_ltl::{Atom, Formula};

/// The forms with one part and no until.
#[derive(Clone, Copy, Debug)]
enum Unary {
    Not,
    Then,
}

/// The forms that are an until of the truth.
#[derive(Clone, Copy, Debug)]
enum Temporal {
    Future,
    Always,
    Never,
}

/// The forms with two parts.
#[derive(Clone, Copy, Debug)]
enum Binary {
    And,
    Or,
    Implies,
    Iff,
    Until,
    Releases,
}

/// Adds the nodes of the formula's core form, and answers the last one. The depth of the recursion is the
/// formula's height.
#[cycle(walk)]
pub(crate) fn walk(
    table: &mut Table,
    alloc: Global,
    limit: u32,
    f: &Formula,
) -> Result<NodeId, ClosureStop>
    requires closed { IsClosure (table_members table.old) }
    requires within { length table.old.nodes.keys ≤ limit }
    ensures { Adds limit table.old table.new
        (after_formula (table_members table.old) (core_form (meaning f.now))) result }
{
    match f {
        Formula::True => table.put(limit, Node::True),
        Formula::False => put_falsity(table, limit),
        Formula::Atom(atom) => put_atom(table, alloc, limit, atom),
        Formula::Not(f) => walk_unary(table, alloc, limit, Unary::Not, f.get()),
        Formula::And(f, g) => walk_binary(table, alloc, limit, Binary::And, f.get(), g.get()),
        Formula::Or(f, g) => walk_binary(table, alloc, limit, Binary::Or, f.get(), g.get()),
        Formula::Implies(f, g) => walk_binary(
            table,
            alloc,
            limit,
            Binary::Implies,
            f.get(),
            g.get(),
        ),
        Formula::Iff(f, g) => walk_binary(table, alloc, limit, Binary::Iff, f.get(), g.get()),
        Formula::Then(f) => walk_unary(table, alloc, limit, Unary::Then, f.get()),
        Formula::Until(f, g) => walk_binary(table, alloc, limit, Binary::Until, f.get(), g.get()),
        Formula::Releases(f, g) => walk_binary(
            table,
            alloc,
            limit,
            Binary::Releases,
            f.get(),
            g.get(),
        ),
        Formula::Future(f) => walk_temporal(table, alloc, limit, Temporal::Future, f.get()),
        Formula::Always(f) => walk_temporal(table, alloc, limit, Temporal::Always, f.get()),
        Formula::Never(f) => walk_temporal(table, alloc, limit, Temporal::Never, f.get()),
    }
}

fn put_falsity(table: &mut Table, limit: u32) -> Result<NodeId, ClosureStop>
    ensures { Adds limit table.old table.new (after_formula (table_members table.old) (core.Not core.True)) result }
{
    let truth = table.put(limit, Node::True)?;
    table.put_not(limit, truth)
}

fn put_atom(
    table: &mut Table,
    alloc: Global,
    limit: u32,
    atom: &Atom,
) -> Result<NodeId, ClosureStop>
    requires closed { IsClosure (table_members table.old) }
    requires within { length table.old.nodes.keys ≤ limit }
    ensures { Adds limit table.old table.new
        (after_formula (table_members table.old) (core.Atomic (proposition_of atom.now))) result }
{
    table.put_atom(alloc, limit, atom)
}

#[cycle(walk)]
fn walk_unary(
    table: &mut Table,
    alloc: Global,
    limit: u32,
    form: Unary,
    f: &Formula,
) -> Result<NodeId, ClosureStop>
    requires closed { IsClosure (table_members table.old) }
    requires within { length table.old.nodes.keys ≤ limit }
    ensures { Adds limit table.old table.new
        (after_formula (table_members table.old) (unary_core form (core_form (meaning f.now)))) result }
{
    let k = walk(table, alloc, limit, f)?;
    end_unary(table, limit, form, k)
}

fn end_unary(table: &mut Table, limit: u32, form: Unary, k: NodeId) -> Result<NodeId, ClosureStop>
    ensures { Adds limit table.old table.new (after_unary form (table_members table.old) k) result }
{
    match form {
        Unary::Not => table.put_not(limit, k),
        Unary::Then => table.put(limit, Node::Next(k)),
    }
}

#[cycle(walk)]
fn walk_temporal(
    table: &mut Table,
    alloc: Global,
    limit: u32,
    form: Temporal,
    f: &Formula,
) -> Result<NodeId, ClosureStop>
    requires closed { IsClosure (table_members table.old) }
    requires within { length table.old.nodes.keys ≤ limit }
    ensures { Adds limit table.old table.new
        (after_formula (table_members table.old) (temporal_core form (core_form (meaning f.now)))) result }
{
    let truth = table.put(limit, Node::True)?;
    let k = walk(table, alloc, limit, f)?;
    end_temporal(table, limit, form, truth, k)
}

fn end_temporal(
    table: &mut Table,
    limit: u32,
    form: Temporal,
    truth: NodeId,
    k: NodeId,
) -> Result<NodeId, ClosureStop>
    ensures { Adds limit table.old table.new (after_temporal form (table_members table.old) truth k) result }
{
    match form {
        Temporal::Future => table.put_until(limit, truth, k),
        Temporal::Always => {
            let opposite = table.put_not(limit, k)?;
            table.put_not_until(limit, truth, opposite)
        }
        Temporal::Never => table.put_not_until(limit, truth, k),
    }
}

#[cycle(walk)]
fn walk_binary(
    table: &mut Table,
    alloc: Global,
    limit: u32,
    form: Binary,
    f: &Formula,
    g: &Formula,
) -> Result<NodeId, ClosureStop>
    requires closed { IsClosure (table_members table.old) }
    requires within { length table.old.nodes.keys ≤ limit }
    ensures { Adds limit table.old table.new
        (after_formula (table_members table.old)
        (binary_core form (core_form (meaning f.now)) (core_form (meaning g.now)))) result }
{
    let k = walk_left(table, alloc, limit, form, f)?;
    let l = walk(table, alloc, limit, g)?;
    end_binary(table, limit, form, k, l)
}

/// The left part, negated where the form's core form has it so.
#[cycle(walk)]
fn walk_left(
    table: &mut Table,
    alloc: Global,
    limit: u32,
    form: Binary,
    f: &Formula,
) -> Result<NodeId, ClosureStop>
    requires closed { IsClosure (table_members table.old) }
    requires within { length table.old.nodes.keys ≤ limit }
    ensures { Adds limit table.old table.new
        (after_formula (table_members table.old) (left_core form (core_form (meaning f.now)))) result }
{
    let k = walk(table, alloc, limit, f)?;
    end_left(table, limit, form, k)
}

fn end_left(table: &mut Table, limit: u32, form: Binary, k: NodeId) -> Result<NodeId, ClosureStop>
    requires within { length table.old.nodes.keys ≤ limit }
    ensures { Adds limit table.old table.new (after_left form (table_members table.old) k) result }
{
    match form {
        Binary::Or | Binary::Releases => table.put_not(limit, k),
        Binary::And | Binary::Implies | Binary::Iff | Binary::Until => Ok(k),
    }
}

fn end_binary(
    table: &mut Table,
    limit: u32,
    form: Binary,
    k: NodeId,
    l: NodeId,
) -> Result<NodeId, ClosureStop>
    ensures { Adds limit table.old table.new (after_right form (table_members table.old) k l) result }
{
    match form {
        Binary::And => table.put_both(limit, k, l),
        Binary::Or => table.put_implication(limit, k, l),
        Binary::Implies => table.put_implication(limit, k, l),
        Binary::Iff => end_iff(table, limit, k, l),
        Binary::Until => table.put_until(limit, k, l),
        Binary::Releases => end_releases(table, limit, k, l),
    }
}

fn end_iff(table: &mut Table, limit: u32, k: NodeId, l: NodeId) -> Result<NodeId, ClosureStop>
    ensures { Adds limit table.old table.new (after_right Binary.Iff (table_members table.old) k l) result }
{
    let there = table.put_implication(limit, k, l)?;
    let back = table.put_implication(limit, l, k)?;
    table.put_both(limit, there, back)
}

fn end_releases(table: &mut Table, limit: u32, k: NodeId, l: NodeId) -> Result<NodeId, ClosureStop>
    ensures { Adds limit table.old table.new (after_right Binary.Releases (table_members table.old) k l) result }
{
    let opposite = table.put_not(limit, l)?;
    table.put_not_until(limit, k, opposite)
}
