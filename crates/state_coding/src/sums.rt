//! Terms as an offset and a row of literals, and their sums.
//!
//! Main functions: `TermBits`, `plus`. Touches the base that it is lent, and nothing else. Where an offset
//! leaves 64 bits the answer is want of memory.

ghost use Rattle.std.specs.Prelude.{◌≡◌, ◌<◌, ◌≤◌, [], IfOk, All, length, map};
ghost use Rattle.cnf.specs.Clauses.{IsConservative, opposite};
ghost use Rattle.state_coding.specs.Coded.{AtCommonPlaces, AreAdded, IsTermCoded};
ghost use Rattle.state_coding.specs.Numbers.{half, signed_row, code_offset_row, opposite_offset_row, widen};
ghost use Rattle.state_coding.specs.Numbers.{plus_row_coding};

use cnf::{Bits, ClauseBase, Lit, adder};
use port_types::NoMemory;
use std::alloc::Global;
use std::marker::Model;

/// A term: an offset, and a row of bits in two's complement whose number is added to it. Contracts see
/// the two.
#[derive(Debug, Drop)]
pub struct TermBits {
    offset: i64,
    row: Bits,
}

impl Model for TermBits {
    ghost use Rattle.state_coding.specs.Numbers.{OffsetRow};

    ghost Value = { OffsetRow };

    ghost view = { λ t. record { offset = t.offset; row = t.row } };
}

/// The opposite of each literal.
fn opposites(alloc: Global, row: &[Lit]) -> Result<Bits, NoMemory>
    ensures { IfOk result (λ others. others ≡ map opposite row.now) }
{
    let mut others = Bits::new(alloc);
    for lit in row {
        others.push(lit.negated())?;
    }
    Ok(others)
}

/// Half of all codes of so many bits, 0 for none.
fn half(places: usize) -> u32
    requires { places ≤ 32 }
    ensures { result ≡ half places }
{
    if places == 0 { 0 } else { 1 << (places - 1) }
}

/// The row with its highest literal negated.
fn signed_row(alloc: Global, bits: &[Lit]) -> Result<Bits, NoMemory>
    ensures { IfOk result (λ row. row ≡ signed_row bits.now) }
{
    if bits.len() == 0 {
        return Ok(Bits::new(alloc));
    }
    let top = bits.len() - 1;
    let mut row = bits.to_vec(alloc)?;
    row[top] = bits[top].negated();
    Ok(Bits::from_vec(row))
}

/// These literals as a row.
fn copied_row(alloc: Global, row: &[Lit]) -> Result<Bits, NoMemory>
    ensures { IfOk result (λ copy. copy ≡ row.now) }
{
    Ok(Bits::from_vec(row.to_vec(alloc)?))
}

impl TermBits {
    /// A number, which has no row.
    pub fn constant(alloc: Global, number: i64) -> TermBits
        ensures offset { result.offset ≡ number }
        ensures row { result.row ≡ [] }
    {
        TermBits {
            offset: number,
            row: Bits::new(alloc),
        }
    }

    /// The least value of a port and the code in these bits.
    pub fn port(alloc: Global, least: i32, bits: &[Lit]) -> Result<TermBits, NoMemory>
        requires { length bits.now ≤ 32 }
        ensures { IfOk result (λ term. term ≡ code_offset_row least bits.now) }
    {
        let row = signed_row(alloc, bits)?;
        Ok(TermBits {
            offset: i64::from(least) + i64::from(half(bits.len())),
            row,
        })
    }

    pub fn offset(&self) -> i64
        ensures { result ≡ self.now.offset }
    {
        self.offset
    }

    pub fn row(&self) -> &[Lit]
        ensures { result.now ≡ self.now.row }
    {
        self.row.as_slice()
    }

    /// The opposite number.
    pub fn opposite(&self, alloc: Global) -> Result<TermBits, NoMemory>
        ensures { IfOk result (λ term. term ≡ opposite_offset_row self.now) }
    {
        if self.row.len() == 0 {
            return match self.offset.checked_neg() {
                Some(offset) => Ok(TermBits::constant(alloc, offset)),
                None => Err(NoMemory),
            };
        }
        let row = opposites(alloc, self.row.as_slice())?;
        match 1i64.checked_sub(self.offset) {
            Some(offset) => Ok(TermBits { offset, row }),
            None => Err(NoMemory),
        }
    }
}

/// The row brought to so many places by repeating its highest literal.
pub fn widen(alloc: Global, row: &[Lit], places: usize) -> Result<Bits, NoMemory>
    requires { length row.now ≤ places }
    ensures { IfOk result (λ wide. wide ≡ widen places row.now) }
{
    let mut wide = copied_row(alloc, row)?;
    if row.len() == 0 {
        return Ok(wide);
    }
    let top = row[row.len() - 1];
    for _ in row.len()..places {
        wide.push(top)?;
    }
    Ok(wide)
}

/// Two rows brought to the same places.
pub fn same_places(alloc: Global, a: &[Lit], b: &[Lit]) -> Result<(Bits, Bits), NoMemory>
    ensures { IfOk result (λ rows. AtCommonPlaces a.now b.now rows.0 rows.1) }
{
    let places = a.len().max(b.len());
    let wide = widen(alloc, a, places)?;
    let other_wide = widen(alloc, b, places)?;
    Ok((wide, other_wide))
}

/// The sum of two rows.
fn plus_rows<B: ClauseBase>(
    alloc: Global,
    base: &mut B,
    a: &[Lit],
    b: &[Lit],
) -> Result<Bits, NoMemory>
    requires left { All (λ lit. lit.var < B.vars base.old) a.now }
    requires right { All (λ lit. lit.var < B.vars base.old) b.now }
    ensures grows { IsConservative (B.vars base.old) (B.clauses base.old) (B.vars base.new) (B.clauses base.new) }
    ensures added { IfOk result (λ sum. AreAdded (B.vars base.old) (B.vars base.new) (B.clauses base.old)
        (B.clauses base.new) a.now b.now sum) }
    ensures known { IfOk result (λ sum. All (λ lit. lit.var < B.vars base.new) sum) }
{
    if a.len() == 0 {
        return copied_row(alloc, b);
    }
    if b.len() == 0 {
        return copied_row(alloc, a);
    }
    let (a, b) = same_places(alloc, a, b)?;
    let sum = adder(alloc, base, a.as_slice(), b.as_slice())?;
    Ok(sum)
}

/// The sum of two terms.
pub fn plus<B: ClauseBase>(
    alloc: Global,
    base: &mut B,
    x: &TermBits,
    y: &TermBits,
) -> Result<TermBits, NoMemory>
    requires left { All (λ lit. lit.var < B.vars base.old) x.now.row }
    requires right { All (λ lit. lit.var < B.vars base.old) y.now.row }
    ensures grows { IsConservative (B.vars base.old) (B.clauses base.old) (B.vars base.new) (B.clauses base.new) }
    ensures coded { IfOk result (λ sum. IsTermCoded (B.clauses base.old) (B.vars base.new) (B.clauses base.new) sum
        (plus_row_coding (B.vars base.old) x.now y.now)) }
    ensures known { IfOk result (λ sum. All (λ lit. lit.var < B.vars base.new) sum.row) }
{
    let offset = match x.offset.checked_add(y.offset) {
        Some(offset) => offset,
        None => return Err(NoMemory),
    };
    let row = plus_rows(alloc, base, x.row.as_slice(), y.row.as_slice())?;
    Ok(TermBits { offset, row })
}
