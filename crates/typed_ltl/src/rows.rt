//! Rows of truth values, one for each state of a lasso, and what each form of formula makes of them; the
//! main functions are `fill_atom`, `settle_unary` and `settle_binary`. May touch nothing.

ghost use Rattle.std.specs.Prelude.{◌≡◌, ℕ, ◌+◌, ◌<◌, ◌≤◌, [], false, length, get_or, replicate};
ghost use Rattle.typed_ltl.specs.Formulas.{proposition_of};
ghost use Rattle.typed_ltl.specs.Traces.{assignment, lasso_place, word};
ghost use Rattle.typed_ltl.specs.Truth.{IsModerateProposition};
ghost use Rattle.typed_ltl.specs.Rows.{proposition_row, not_row, and_row, iff_row, then_row, until_back, until_row};
ghost use Rattle.typed_ltl.specs.Rows.{future_row};
ghost use Rattle.typed_ltl.specs.Operators.{unary_row, binary_row};

use crate::atom::Atom;
use crate::lasso::Valuation;

/// The forms with one part.
#[derive(Clone, Copy, Debug)]
pub(crate) enum Unary {
    Not,
    Then,
    Future,
    Always,
    Never,
}

/// The forms with two parts.
#[derive(Clone, Copy, Debug)]
pub(crate) enum Binary {
    And,
    Or,
    Implies,
    Iff,
    Until,
    Releases,
}

/// Writes the same truth value into each cell.
pub(crate) fn fill_constant(truth: bool, cells: &mut [bool])
    ensures { cells.new ≡ replicate (length cells.old) truth }
{
    cells.fill(truth);
}

/// The state that follows state `i` of a lasso with `count` states.
fn successor(i: usize, count: usize, loop_at: usize) -> usize
    requires within { i < count }
    requires loop_at { loop_at < count }
    ensures place { result ≡ lasso_place count loop_at (i + 1) }
    ensures within { result < count }
{
    if i + 1 < count { i + 1 } else { loop_at }
}

/// Writes the truth values of an atom.
pub(crate) fn fill_atom(atom: &Atom, states: &[Valuation], loop_at: usize, cells: &mut [bool])
    requires loop_at { loop_at < length states.now }
    requires room { length cells.old ≡ length states.now }
    requires fits { let w = word states.now loop_at in
        (i : ℕ) → IsModerateProposition (w i) (w (i + 1)) (proposition_of atom.now) }
    ensures { cells.new ≡ proposition_row (proposition_of atom.now) (get_or states.now loop_at []) states.now }
{
    for i in 0..states.len() {
        let next = successor(i, states.len(), loop_at);
        cells[i] = atom.holds(&states[i], &states[next]);
    }
}

/// Negates each cell.
fn negate(cells: &mut [bool])
    ensures { cells.new ≡ not_row cells.old }
{
    for cell in cells.iter_mut() {
        *cell = !*cell;
    }
}

/// Keeps what holds in both rows.
fn conjoin(cells: &mut [bool], others: &[bool])
    requires { length others.now ≡ length cells.old }
    ensures { cells.new ≡ and_row cells.old others.now }
{
    for i in 0..cells.len() {
        cells[i] &= others[i];
    }
}

/// Tells where two rows agree.
fn equate(cells: &mut [bool], others: &[bool])
    requires { length others.now ≡ length cells.old }
    ensures { cells.new ≡ iff_row cells.old others.now }
{
    for i in 0..cells.len() {
        cells[i] = (cells[i] & others[i]) | (!cells[i] & !others[i]);
    }
}

/// Gives each state the truth value of the next one.
fn shift(loop_at: usize, cells: &mut [bool])
    requires { loop_at < length cells.old }
    ensures { cells.new ≡ then_row loop_at cells.old }
{
    let mut later = cells[loop_at];
    let mut i = cells.len();
    while i > 0 {
        i -= 1;
        let own = cells[i];
        cells[i] = later;
        later = own;
    }
}

/// Whether the until holds at the loop's first state by a witness in the loop.
fn until_in_loop(loop_at: usize, lefts: &[bool], rights: &[bool]) -> bool
    requires loop_at { loop_at < length lefts.now }
    requires same { length rights.now ≡ length lefts.now }
    ensures { result ≡ get_or (until_back false lefts.now rights.now) loop_at false }
{
    let mut holds = false;
    let mut i = lefts.len();
    while i > loop_at {
        i -= 1;
        holds = rights[i] | (lefts[i] & holds);
    }
    holds
}

/// Makes the row of the left side into that of the until, from the end backwards.
fn until_backwards(after: bool, cells: &mut [bool], rights: &[bool])
    requires { length rights.now ≡ length cells.old }
    ensures { cells.new ≡ until_back after cells.old rights.now }
{
    let mut holds = after;
    let mut i = cells.len();
    while i > 0 {
        i -= 1;
        holds = rights[i] | (cells[i] & holds);
        cells[i] = holds;
    }
}

/// Makes the row of the left side into that of the until.
fn settle_until(loop_at: usize, cells: &mut [bool], rights: &[bool])
    requires loop_at { loop_at < length cells.old }
    requires same { length rights.now ≡ length cells.old }
    ensures { cells.new ≡ until_row loop_at cells.old rights.now }
{
    let after = until_in_loop(loop_at, cells, rights);
    until_backwards(after, cells, rights);
}

/// Makes a row into that of "in the future".
fn settle_future(loop_at: usize, cells: &mut [bool], spare: &mut [bool])
    requires loop_at { loop_at < length cells.old }
    requires same { length spare.old ≡ length cells.old }
    ensures { cells.new ≡ future_row loop_at cells.old }
{
    spare.copy_from_slice(cells);
    fill_constant(true, cells);
    settle_until(loop_at, cells, spare);
}

fn settle_always(loop_at: usize, cells: &mut [bool], spare: &mut [bool])
    requires loop_at { loop_at < length cells.old }
    requires same { length spare.old ≡ length cells.old }
    ensures { cells.new ≡ not_row (future_row loop_at (not_row cells.old)) }
{
    negate(cells);
    settle_future(loop_at, cells, spare);
    negate(cells);
}

fn settle_never(loop_at: usize, cells: &mut [bool], spare: &mut [bool])
    requires loop_at { loop_at < length cells.old }
    requires same { length spare.old ≡ length cells.old }
    ensures { cells.new ≡ not_row (future_row loop_at cells.old) }
{
    settle_future(loop_at, cells, spare);
    negate(cells);
}

/// Makes the row of the one part into the row of the formula.
pub(crate) fn settle_unary(form: Unary, loop_at: usize, cells: &mut [bool], spare: &mut [bool])
    requires loop_at { loop_at < length cells.old }
    requires same { length spare.old ≡ length cells.old }
    ensures { cells.new ≡ unary_row form loop_at cells.old }
{
    match form {
        Unary::Not => negate(cells),
        Unary::Then => shift(loop_at, cells),
        Unary::Future => settle_future(loop_at, cells, spare),
        Unary::Always => settle_always(loop_at, cells, spare),
        Unary::Never => settle_never(loop_at, cells, spare),
    }
}

fn settle_or(cells: &mut [bool], others: &mut [bool])
    requires { length others.old ≡ length cells.old }
    ensures { cells.new ≡ not_row (and_row (not_row cells.old) (not_row others.old)) }
{
    negate(cells);
    negate(others);
    conjoin(cells, others);
    negate(cells);
}

fn settle_implies(cells: &mut [bool], others: &mut [bool])
    requires { length others.old ≡ length cells.old }
    ensures { cells.new ≡ not_row (and_row cells.old (not_row others.old)) }
{
    negate(others);
    conjoin(cells, others);
    negate(cells);
}

fn settle_releases(loop_at: usize, cells: &mut [bool], others: &mut [bool])
    requires loop_at { loop_at < length cells.old }
    requires same { length others.old ≡ length cells.old }
    ensures { cells.new ≡ not_row (until_row loop_at (not_row cells.old) (not_row others.old)) }
{
    negate(cells);
    negate(others);
    settle_until(loop_at, cells, others);
    negate(cells);
}

/// Makes the row of the left part, with that of the right part, into the row of the formula.
pub(crate) fn settle_binary(form: Binary, loop_at: usize, cells: &mut [bool], others: &mut [bool])
    requires loop_at { loop_at < length cells.old }
    requires same { length others.old ≡ length cells.old }
    ensures { cells.new ≡ binary_row form loop_at cells.old others.old }
{
    match form {
        Binary::And => conjoin(cells, others),
        Binary::Or => settle_or(cells, others),
        Binary::Implies => settle_implies(cells, others),
        Binary::Iff => equate(cells, others),
        Binary::Until => settle_until(loop_at, cells, others),
        Binary::Releases => settle_releases(loop_at, cells, others),
    }
}
