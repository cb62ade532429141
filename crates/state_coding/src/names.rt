//! Comparisons of names.
//!
//! Main functions: `code_name`, `code_same_ports`. Touches the base that it is lent, and nothing else.

ghost use Rattle.std.specs.Prelude.{◌≡◌, ◌≢◌, ◌+◌, ◌<◌, ◌^◌, ◌++◌, IfOk, OnOk, All, AllPairs, length, map, position};
ghost use Rattle.std.specs.Prelude.{string_bytes};
ghost use Rattle.std.specs.Cmp.Lexicographic.{pointwise};
ghost use Rattle.std.specs.Str.{bytes_eq};
ghost use Rattle.cnf.specs.Clauses.{IsConservative};
ghost use Rattle.cnf.specs.Gates.{literal, all_clauses};
ghost use Rattle.state_coding.specs.Coded.{IsCoded, CommonAdded};
ghost use Rattle.state_coding.specs.Atoms.{place_lits, name_coding, same_ports_coding, common_lits};

use crate::compare::{code_same_rows, code_truth, match_lits};
use cnf::{ClauseBase, Lit, constant_bits, gate_all, gate_any};
use indexmap::IndexSet;
use port_types::{Name, NoMemory};
use std::alloc::Global;

/// The place of a name in a list.
fn place_of(names: &[Name], name: &Name) -> Option<usize>
    ensures { result ≡ position (bytes_eq name.now) names.now }
{
    names
        .iter()
        .position(|other| name.as_str() == other.as_str())
}

/// The literals that say that a row of binary digits is that of a place.
fn place_lits(alloc: Global, row: &[Lit], place: usize) -> Result<Vec<Lit>, NoMemory>
    requires { place < 2 ^ 32 }
    ensures { IfOk result (λ lits. lits.items ≡ place_lits row.now place) }
{
    let digits = constant_bits(alloc, i64::from(place as u32), row.len())?;
    match_lits(alloc, row, &digits)
}

/// A literal that is "a port of these names and these bits has this name".
pub fn code_name<B: ClauseBase>(
    alloc: Global,
    base: &mut B,
    row: &[Lit],
    names: &[Name],
    name: &Name,
) -> Result<Lit, NoMemory>
    requires known { All (λ lit. lit.var < B.vars base.old) row.now }
    requires few { length names.now < 2 ^ 32 }
    ensures grows { IsConservative (B.vars base.old) (B.clauses base.old) (B.vars base.new) (B.clauses base.new) }
    ensures coded { IfOk result (λ lit. IsCoded (B.clauses base.old) (B.vars base.new) (B.clauses base.new) lit
        (name_coding (B.vars base.old) row.now names.now name.now)) }
{
    match place_of(names, name) {
        Some(place) => {
            let lits = place_lits(alloc, row, place)?;
            let lit = gate_all(alloc, base, &lits)?;
            Ok(lit)
        }
        None => code_truth(alloc, base, false),
    }
}

/// The names as a table that has each at its place in the list.
fn table_of(alloc: Global, names: &[Name]) -> Result<IndexSet<String>, NoMemory>
    requires { AllPairs (λ a b. a ≢ b) names.now }
    ensures { IfOk result (λ table. map string_bytes table.keys ≡ names.now) }
{
    let mut table = IndexSet::new(alloc);
    for i in 0..names.len() {
        let text = String::from_str(alloc, names[i].as_str())?;
        table.insert_full(text)?;
    }
    Ok(table)
}

/// The port of an enumeration: its names and its bits.
#[derive(Clone, Copy)]
pub struct NamedBits<'a> {
    pub names: &'a [Name],
    pub row: &'a [Lit],
}

/// A literal that is "both ports have their names at these places".
fn code_both<B: ClauseBase>(
    alloc: Global,
    base: &mut B,
    a: &[Lit],
    i: usize,
    b: &[Lit],
    j: usize,
) -> Result<Lit, NoMemory>
    requires left { All (λ lit. lit.var < B.vars base.old) a.now }
    requires right { All (λ lit. lit.var < B.vars base.old) b.now }
    requires first { i < 2 ^ 32 }
    requires second { j < 2 ^ 32 }
    ensures grows { IsConservative (B.vars base.old) (B.clauses base.old) (B.vars base.new) (B.clauses base.new) }
    ensures answer { IfOk result (λ lit. lit ≡ literal (B.vars base.old)) }
    ensures vars { OnOk result (B.vars base.new ≡ B.vars base.old + 1) }
    ensures clauses { OnOk result (B.clauses base.new
        ≡ B.clauses base.old ++ all_clauses (B.vars base.old) (place_lits a.now i ++ place_lits b.now j)) }
{
    let mut lits = place_lits(alloc, a, i)?;
    let more = place_lits(alloc, b, j)?;
    lits.extend_from_slice(&more)?;
    gate_all(alloc, base, &lits)
}

/// For each common name, in the order of the first names, a literal that says that both ports have it.
fn code_common<B: ClauseBase>(
    alloc: Global,
    base: &mut B,
    x: NamedBits<'_>,
    y: NamedBits<'_>,
) -> Result<Vec<Lit>, NoMemory>
    requires left { All (λ lit. lit.var < B.vars base.old) x.row.now }
    requires right { All (λ lit. lit.var < B.vars base.old) y.row.now }
    requires few { length x.names.now < 2 ^ 32 }
    requires other_few { length y.names.now < 2 ^ 32 }
    requires distinct { AllPairs (λ a b. a ≢ b) y.names.now }
    ensures grows { IsConservative (B.vars base.old) (B.clauses base.old) (B.vars base.new) (B.clauses base.new) }
    ensures added { IfOk result (λ lits. CommonAdded (B.vars base.old) (B.vars base.new) (B.clauses base.old)
        (B.clauses base.new) lits.items
        (common_lits x.entry.row.now y.entry.row.now 0 x.entry.names.now y.entry.names.now)) }
{
    let table = table_of(alloc, y.names)?;
    let mut common = Vec::new(alloc);
    for i in 0..x.names.len() {
        if let Some(j) = table.get_index_of(x.names[i].as_str()) {
            let both = code_both(alloc, base, x.row, i, y.row, j)?;
            common.push(both)?;
        }
    }
    Ok(common)
}

/// Whether the two lists have the same names in the same order.
fn are_same(names: &[Name], others: &[Name]) -> bool
    ensures { result ≡ pointwise bytes_eq names.now others.now }
{
    if names.len() != others.len() {
        return false;
    }
    for i in 0..names.len() {
        if names[i].as_str() != others[i].as_str() {
            return false;
        }
    }
    true
}

/// A literal that is "the two ports have the same name".
pub fn code_same_ports<B: ClauseBase>(
    alloc: Global,
    base: &mut B,
    x: NamedBits<'_>,
    y: NamedBits<'_>,
) -> Result<Lit, NoMemory>
    requires left { All (λ lit. lit.var < B.vars base.old) x.row.now }
    requires right { All (λ lit. lit.var < B.vars base.old) y.row.now }
    requires few { length x.names.now < 2 ^ 32 }
    requires other_few { length y.names.now < 2 ^ 32 }
    requires distinct { AllPairs (λ a b. a ≢ b) y.names.now }
    requires same { x.names.now ≡ y.names.now → length x.row.now ≡ length y.row.now }
    ensures grows { IsConservative (B.vars base.old) (B.clauses base.old) (B.vars base.new) (B.clauses base.new) }
    ensures coded { IfOk result (λ lit. IsCoded (B.clauses base.old) (B.vars base.new) (B.clauses base.new) lit
        (same_ports_coding (B.vars base.old) x.entry.names.now x.entry.row.now y.entry.names.now y.entry.row.now)) }
{
    if are_same(x.names, y.names) {
        return code_same_rows(alloc, base, x.row, y.row);
    }
    let common = code_common(alloc, base, x, y)?;
    let lit = gate_any(alloc, base, &common)?;
    Ok(lit)
}
