//! Truth of a formula on the word of a lasso: `holds_on`, in the room of a `Bench`. Only `Bench::new`
//! may touch the allocator.

ghost use Rattle.std.specs.Prelude.{◌≡◌, ◌+◌, ◌<◌, ◌≤◌, ◌↔◌, ℕ, IsTrue, IfOk, IfSome, length, max, take, replicate};
ghost use Rattle.std.specs.Prelude.{get_or, []};
ghost use Rattle.typed_ltl.specs.Formulas.{meaning, proposition_of, Ltl};
ghost use Rattle.typed_ltl.specs.Traces.{word};
ghost use Rattle.typed_ltl.specs.Truth.{Holds, IsModerateOn};
ghost use Rattle.typed_ltl.specs.Cells.{cell_count};
ghost use Rattle.typed_ltl.specs.Rows.{truth_row, proposition_row};
ghost use Rattle.typed_ltl.specs.Operators.{unary_row, binary_row};

use crate::atom::Atom;
use crate::formula::Formula;
use crate::lasso::{Lasso, Valuation};
use crate::laws::rows_are_right;
use crate::rows::{Binary, Unary, fill_atom, fill_constant, settle_binary, settle_unary};
use port_types::NoMemory;
use std::alloc::Global;
use std::marker::Model;

/// Room for the truth values of a formula on a lasso. Contracts see the number of its cells.
#[derive(Debug, Drop)]
pub struct Bench {
    cells: Vec<bool>,
}

impl Model for Bench {
    ghost use Rattle.std.specs.Prelude.{ℕ, length};

    ghost Value = { ℕ };

    ghost view = { λ b. length b.cells.items };
}

impl Bench {
    /// A bench for the formula and lassos of at most so many positions.
    pub fn new(alloc: Global, f: &Formula, positions: usize) -> Result<Bench, NoMemory>
        ensures { IfOk result (λ bench. (n : ℕ) → n ≤ positions → cell_count n (meaning f.now) ≤ bench) }
    {
        let Some(cells) = room_for(f, positions) else {
            return Err(NoMemory);
        };
        Ok(Bench {
            cells: vec![in alloc; false; cells]?,
        })
    }
}

/// The number of cells that the formula takes, `None` where it is beyond all numbers of the machine.
#[cycle(room)]
fn room_for(f: &Formula, positions: usize) -> Option<usize>
    ensures { IfSome result (λ cells. cells ≡ cell_count positions (meaning f.now)) }
{
    match f {
        Formula::True => Some(positions),
        Formula::False => Some(positions),
        Formula::Atom(_) => Some(positions),
        Formula::Not(f) => room_above(f.get(), positions),
        Formula::And(f, g) => room_above_both(f.get(), g.get(), positions),
        Formula::Or(f, g) => room_above_both(f.get(), g.get(), positions),
        Formula::Implies(f, g) => room_above_both(f.get(), g.get(), positions),
        Formula::Iff(f, g) => room_above_both(f.get(), g.get(), positions),
        Formula::Then(f) => room_above(f.get(), positions),
        Formula::Until(f, g) => room_above_both(f.get(), g.get(), positions),
        Formula::Releases(f, g) => room_above_both(f.get(), g.get(), positions),
        Formula::Future(f) => room_above(f.get(), positions),
        Formula::Always(f) => room_above(f.get(), positions),
        Formula::Never(f) => room_above(f.get(), positions),
    }
}

#[cycle(room)]
fn room_above(f: &Formula, positions: usize) -> Option<usize>
    ensures { IfSome result (λ cells. cells ≡ positions + cell_count positions (meaning f.now)) }
{
    let cells = room_for(f, positions)?;
    positions.checked_add(cells)
}

#[cycle(room)]
fn room_above_both(f: &Formula, g: &Formula, positions: usize) -> Option<usize>
    ensures { IfSome result (λ cells.
        cells ≡ positions + max (cell_count positions (meaning f.now)) (cell_count positions (meaning g.now))) }
{
    let left = room_for(f, positions)?;
    let right = room_for(g, positions)?;
    positions.checked_add(left.max(right))
}

/// Whether the formula holds at position 0 of the lasso's word.
///
/// It takes no memory, and time in proportion to the number of positions times the size of the formula.
pub fn holds_on(lasso: &Lasso, f: &Formula, bench: &mut Bench) -> bool
    requires room { cell_count (length lasso.now.states) (meaning f.now) ≤ bench.old }
    requires fits { IsModerateOn (word lasso.now.states lasso.now.loop_at) (meaning f.now) }
    ensures truth { IsTrue result ↔ Holds (word lasso.now.states lasso.now.loop_at) (meaning f.now) 0 }
    ensures bench { bench.new ≡ bench.old }
{
    let states = lasso.states.as_slice();
    fill(f, states, lasso.loop_at, bench.cells.as_mut_slice());
    rows_are_right();
    bench.cells[0]
}

/// Writes the truth values of the formula at each state into the first cells.
#[cycle(fill)]
fn fill(f: &Formula, states: &[Valuation], loop_at: usize, cells: &mut [bool])
    requires loop_at { loop_at < length states.now }
    requires room { cell_count (length states.now) (meaning f.now) ≤ length cells.old }
    requires fits { IsModerateOn (word states.now loop_at) (meaning f.now) }
    ensures { take (length states.now) cells.new ≡ truth_row states.now loop_at (meaning f.now) }
{
    match f {
        Formula::True => fill_first(true, states.len(), cells),
        Formula::False => fill_first(false, states.len(), cells),
        Formula::Atom(atom) => fill_atom_first(atom, states, loop_at, cells),
        Formula::Not(f) => fill_unary(Unary::Not, f.get(), states, loop_at, cells),
        Formula::And(f, g) => fill_binary(Binary::And, f.get(), g.get(), states, loop_at, cells),
        Formula::Or(f, g) => fill_binary(Binary::Or, f.get(), g.get(), states, loop_at, cells),
        Formula::Implies(f, g) => fill_binary(
            Binary::Implies,
            f.get(),
            g.get(),
            states,
            loop_at,
            cells,
        ),
        Formula::Iff(f, g) => fill_binary(Binary::Iff, f.get(), g.get(), states, loop_at, cells),
        Formula::Then(f) => fill_unary(Unary::Then, f.get(), states, loop_at, cells),
        Formula::Until(f, g) => fill_binary(
            Binary::Until,
            f.get(),
            g.get(),
            states,
            loop_at,
            cells,
        ),
        Formula::Releases(f, g) => fill_binary(
            Binary::Releases,
            f.get(),
            g.get(),
            states,
            loop_at,
            cells,
        ),
        Formula::Future(f) => fill_unary(Unary::Future, f.get(), states, loop_at, cells),
        Formula::Always(f) => fill_unary(Unary::Always, f.get(), states, loop_at, cells),
        Formula::Never(f) => fill_unary(Unary::Never, f.get(), states, loop_at, cells),
    }
}

fn fill_first(truth: bool, count: usize, cells: &mut [bool])
    requires { count ≤ length cells.old }
    ensures { take count cells.new ≡ replicate count truth }
{
    let (own, _) = cells.split_at_mut(count);
    fill_constant(truth, own);
}

fn fill_atom_first(atom: &Atom, states: &[Valuation], loop_at: usize, cells: &mut [bool])
    requires loop_at { loop_at < length states.now }
    requires room { length states.now ≤ length cells.old }
    requires fits { IsModerateOn (word states.now loop_at) (Ltl.Atomic (proposition_of atom.now)) }
    ensures { take (length states.now) cells.new
        ≡ proposition_row (proposition_of atom.now) (get_or states.now loop_at []) states.now }
{
    let (own, _) = cells.split_at_mut(states.len());
    fill_atom(atom, states, loop_at, own);
}

#[cycle(fill)]
fn fill_unary(form: Unary, f: &Formula, states: &[Valuation], loop_at: usize, cells: &mut [bool])
    requires loop_at { loop_at < length states.now }
    requires room { length states.now + cell_count (length states.now) (meaning f.now) ≤ length cells.old }
    requires fits { IsModerateOn (word states.now loop_at) (meaning f.now) }
    ensures { take (length states.now) cells.new
        ≡ unary_row form loop_at (truth_row states.now loop_at (meaning f.now)) }
{
    fill(f, states, loop_at, cells);
    let (own, rest) = cells.split_at_mut(states.len());
    settle_unary(form, loop_at, own, &mut rest[..states.len()]);
}

#[cycle(fill)]
fn fill_binary(
    form: Binary,
    f: &Formula,
    g: &Formula,
    states: &[Valuation],
    loop_at: usize,
    cells: &mut [bool],
)
    requires loop_at { loop_at < length states.now }
    requires room { let n = length states.now in
        n + max (cell_count n (meaning f.now)) (cell_count n (meaning g.now)) ≤ length cells.old }
    requires left_fits { IsModerateOn (word states.now loop_at) (meaning f.now) }
    requires right_fits { IsModerateOn (word states.now loop_at) (meaning g.now) }
    ensures { take (length states.now) cells.new ≡ binary_row form loop_at
        (truth_row states.now loop_at (meaning f.now)) (truth_row states.now loop_at (meaning g.now)) }
{
    fill(f, states, loop_at, cells);
    let (own, rest) = cells.split_at_mut(states.len());
    fill(g, states, loop_at, rest);
    settle_binary(form, loop_at, own, &mut rest[..states.len()]);
}
