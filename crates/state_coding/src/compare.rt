//! Comparisons of rows and of terms.
//!
//! Main functions: `code_equal`, `code_at_most`. Touches the base that it is lent, and nothing else.

ghost use Rattle.std.specs.Prelude.{◌≡◌, ◌<◌, ◌∷◌, List, Bool, IfOk, All, length, neg_ℤ};
ghost use Rattle.cnf.specs.Clauses.{IsConservative};
ghost use Rattle.state_coding.specs.Coded.{IsCoded, IsTermCoded};
ghost use Rattle.state_coding.specs.Numbers.{plus_row_coding, opposite_offset_row};
ghost use Rattle.state_coding.specs.Atoms.{truth_coding, match_lits, same_rows_coding, is_const_coding};
ghost use Rattle.state_coding.specs.Atoms.{at_most_const_coding, compares_rows, equal_coding, at_most_coding};

use crate::sums::{TermBits, plus, same_places};
use cnf::{
    ClauseBase, Lit, constant_bits, gate_all, gate_at_most_const, gate_le, gate_xor, has_places,
};
use port_types::NoMemory;
use std::alloc::Global;

/// A literal that is this truth value.
pub fn code_truth<B: ClauseBase>(alloc: Global, base: &mut B, truth: bool) -> Result<Lit, NoMemory>
    ensures grows { IsConservative (B.vars base.old) (B.clauses base.old) (B.vars base.new) (B.clauses base.new) }
    ensures coded { IfOk result (λ lit. IsCoded (B.clauses base.old) (B.vars base.new) (B.clauses base.new) lit
        (truth_coding (B.vars base.old) truth)) }
{
    let lit = gate_all(alloc, base, &[])?;
    if truth { Ok(lit) } else { Ok(lit.negated()) }
}

/// The literal, or its opposite where the bit is not set.
fn match_lit(lit: Lit, bit: bool) -> Lit
    ensures { (row : List Lit) → (bits : List Bool)
        → match_lits (lit ∷ row) (bit ∷ bits) ≡ result ∷ match_lits row bits }
{
    if bit { lit } else { lit.negated() }
}

/// The literals that say that a row has these bits.
pub fn match_lits(alloc: Global, row: &[Lit], bits: &[bool]) -> Result<Vec<Lit>, NoMemory>
    requires { length row.now ≡ length bits.now }
    ensures { IfOk result (λ lits. lits.items ≡ match_lits row.now bits.now) }
{
    let mut lits = Vec::new(alloc);
    for i in 0..row.len() {
        lits.push(match_lit(row[i], bits[i]))?;
    }
    Ok(lits)
}

/// A literal that is "the two rows have the same bits".
pub fn code_same_rows<B: ClauseBase>(
    alloc: Global,
    base: &mut B,
    a: &[Lit],
    b: &[Lit],
) -> Result<Lit, NoMemory>
    requires same { length a.now ≡ length b.now }
    requires left { All (λ lit. lit.var < B.vars base.old) a.now }
    requires right { All (λ lit. lit.var < B.vars base.old) b.now }
    ensures grows { IsConservative (B.vars base.old) (B.clauses base.old) (B.vars base.new) (B.clauses base.new) }
    ensures coded { IfOk result (λ lit. IsCoded (B.clauses base.old) (B.vars base.new) (B.clauses base.new) lit
        (same_rows_coding (B.vars base.old) a.now b.now)) }
{
    let mut alike = Vec::new(alloc);
    for i in 0..a.len() {
        let differ = gate_xor(base, a[i], b[i])?;
        alike.push(differ.negated())?;
    }
    let lit = gate_all(alloc, base, &alike)?;
    Ok(lit)
}

/// A literal that is "the number of the row is the constant".
fn code_is_const<B: ClauseBase>(
    alloc: Global,
    base: &mut B,
    row: &[Lit],
    constant: i64,
) -> Result<Lit, NoMemory>
    requires { All (λ lit. lit.var < B.vars base.old) row.now }
    ensures grows { IsConservative (B.vars base.old) (B.clauses base.old) (B.vars base.new) (B.clauses base.new) }
    ensures coded { IfOk result (λ lit. IsCoded (B.clauses base.old) (B.vars base.new) (B.clauses base.new) lit
        (is_const_coding (B.vars base.old) row.now constant)) }
{
    if row.len() == 0 {
        return code_truth(alloc, base, 0 == constant);
    }
    if !has_places(row.len(), constant) {
        return code_truth(alloc, base, false);
    }
    let bits = constant_bits(alloc, constant, row.len())?;
    let lits = match_lits(alloc, row, &bits)?;
    let lit = gate_all(alloc, base, &lits)?;
    Ok(lit)
}

/// A literal that is "the number of the row is at most the constant".
fn code_at_most_const<B: ClauseBase>(
    alloc: Global,
    base: &mut B,
    row: &[Lit],
    constant: i64,
) -> Result<Lit, NoMemory>
    requires { All (λ lit. lit.var < B.vars base.old) row.now }
    ensures grows { IsConservative (B.vars base.old) (B.clauses base.old) (B.vars base.new) (B.clauses base.new) }
    ensures coded { IfOk result (λ lit. IsCoded (B.clauses base.old) (B.vars base.new) (B.clauses base.new) lit
        (at_most_const_coding (B.vars base.old) row.now constant)) }
{
    if row.len() == 0 || !has_places(row.len(), constant) {
        return code_truth(alloc, base, 0 <= constant);
    }
    let bits = constant_bits(alloc, constant, row.len())?;
    let lit = gate_at_most_const(alloc, base, row, &bits)?;
    Ok(lit)
}

/// Whether two terms are compared by their rows.
fn compares_rows(x: &TermBits, y: &TermBits) -> bool
    ensures { result ≡ compares_rows x.now y.now }
{
    x.row().len() > 0 && y.row().len() > 0 && x.offset() == y.offset()
}

/// The difference of two terms, and the constant that its row is compared with where the difference is
/// compared with 0.
fn difference<B: ClauseBase>(
    alloc: Global,
    base: &mut B,
    x: &TermBits,
    y: &TermBits,
) -> Result<(TermBits, i64), NoMemory>
    requires left { All (λ lit. lit.var < B.vars base.old) x.now.row }
    requires right { All (λ lit. lit.var < B.vars base.old) y.now.row }
    ensures grows { IsConservative (B.vars base.old) (B.clauses base.old) (B.vars base.new) (B.clauses base.new) }
    ensures coded { IfOk result (λ found. IsTermCoded (B.clauses base.old) (B.vars base.new)
        (B.clauses base.new) found.0
        (plus_row_coding (B.vars base.old) x.now (opposite_offset_row y.now))) }
    ensures constant { IfOk result (λ found. found.1 ≡ neg_ℤ found.0.offset) }
    ensures known { IfOk result (λ found. All (λ lit. lit.var < B.vars base.new) found.0.row) }
{
    let y = y.opposite(alloc)?;
    let sum = plus(alloc, base, x, &y)?;
    match sum.offset().checked_neg() {
        Some(constant) => Ok((sum, constant)),
        None => Err(NoMemory),
    }
}

/// A literal that is "the two terms are equal".
pub fn code_equal<B: ClauseBase>(
    alloc: Global,
    base: &mut B,
    x: &TermBits,
    y: &TermBits,
) -> Result<Lit, NoMemory>
    requires left { All (λ lit. lit.var < B.vars base.old) x.now.row }
    requires right { All (λ lit. lit.var < B.vars base.old) y.now.row }
    ensures grows { IsConservative (B.vars base.old) (B.clauses base.old) (B.vars base.new) (B.clauses base.new) }
    ensures coded { IfOk result (λ lit. IsCoded (B.clauses base.old) (B.vars base.new) (B.clauses base.new) lit
        (equal_coding (B.vars base.old) x.now y.now)) }
{
    if compares_rows(x, y) {
        let (a, b) = same_places(alloc, x.row(), y.row())?;
        return code_same_rows(alloc, base, a.as_slice(), b.as_slice());
    }
    let (sum, constant) = difference(alloc, base, x, y)?;
    code_is_const(alloc, base, sum.row(), constant)
}

/// A literal that is "the first term is at most the second".
pub fn code_at_most<B: ClauseBase>(
    alloc: Global,
    base: &mut B,
    x: &TermBits,
    y: &TermBits,
) -> Result<Lit, NoMemory>
    requires left { All (λ lit. lit.var < B.vars base.old) x.now.row }
    requires right { All (λ lit. lit.var < B.vars base.old) y.now.row }
    ensures grows { IsConservative (B.vars base.old) (B.clauses base.old) (B.vars base.new) (B.clauses base.new) }
    ensures coded { IfOk result (λ lit. IsCoded (B.clauses base.old) (B.vars base.new) (B.clauses base.new) lit
        (at_most_coding (B.vars base.old) x.now y.now)) }
{
    if compares_rows(x, y) {
        let (a, b) = same_places(alloc, x.row(), y.row())?;
        let lit = gate_le(base, a.as_slice(), b.as_slice())?;
        return Ok(lit);
    }
    let (sum, constant) = difference(alloc, base, x, y)?;
    code_at_most_const(alloc, base, sum.row(), constant)
}
