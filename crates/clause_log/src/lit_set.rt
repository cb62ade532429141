//! Sets of literals: `LitSet`, two marks for each variable, with the number of marks that are set.

ghost use Rattle.std.specs.Prelude.{◌≡◌, ◌<◌, ◌↔◌, true, false, IsTrue, IfOk, length};
ghost use Rattle.cnf.specs.declared.lit.Lit.{Lit};
ghost use Rattle.clause_log.specs.Marks.{sign_mark, with_mark, mark_of, mark_count, SetsMark};

use cnf::Lit;
use port_types::NoMemory;
use std::alloc::Global;
use std::marker::Model;

/// The marks of a variable's two literals.
#[derive(Clone, Copy, Debug, Default, PartialEq, Eq)]
pub struct Signs {
    pub positive: bool,
    pub negative: bool,
}

impl Signs {
    fn has(self, positive: bool) -> bool
        ensures { result ≡ sign_mark self positive }
    {
        if positive {
            self.positive
        } else {
            self.negative
        }
    }

    fn with(self, positive: bool, mark: bool) -> Signs
        ensures { result ≡ with_mark self positive mark }
    {
        if positive {
            Signs {
                positive: mark,
                negative: self.negative,
            }
        } else {
            Signs {
                positive: self.positive,
                negative: mark,
            }
        }
    }
}

fn as_count(mark: bool) -> usize
    ensures { result ≡ mark_count mark }
{
    if mark { 1 } else { 0 }
}

// The most variables, so that all literals can be counted.
const MOST: usize = 1 << 62;

/// A set of literals of the variables below a bound. Contracts see the marks of each variable.
#[derive(Debug, Drop)]
pub struct LitSet {
    marks: Vec<Signs>,
    len: usize,
}

impl Model for LitSet {
    ghost use Rattle.std.specs.Prelude.{List, ◌≡◌, ◌≤◌, ◌^◌, length, sum_by};
    ghost use Rattle.clause_log.specs.declared.lit_set.Signs.{Signs};
    ghost use Rattle.clause_log.specs.Marks.{signs_count};

    ghost Value = { List Signs };

    ghost view = { λ s. s.marks.items };

    ghost invariant = { λ s. (s.len ≡ sum_by signs_count s.marks.items) × (length s.marks.items ≤ 2 ^ 62) };
}

impl LitSet {
    /// The empty set over so many variables.
    pub fn new(alloc: Global, vars: usize) -> Result<LitSet, NoMemory>
        ensures vars { IfOk result (λ set. length set ≡ vars) }
        ensures empty { IfOk result (λ set. (lit : Lit) → mark_of set lit ≡ false) }
    {
        if vars > MOST {
            return Err(NoMemory);
        }
        let none = Signs {
            positive: false,
            negative: false,
        };
        Ok(LitSet {
            marks: vec![in alloc; none; vars]?,
            len: 0,
        })
    }

    pub fn has(&self, lit: Lit) -> bool
        ensures { result ≡ mark_of self.now lit }
    {
        if lit.var < self.marks.len() {
            self.marks[lit.var].has(lit.positive)
        } else {
            false
        }
    }

    /// SetsMarks a literal into the set or takes it out.
    pub fn put(&mut self, lit: Lit, mark: bool)
        requires { lit.var < length self.old }
        ensures vars { length self.new ≡ length self.old }
        ensures put { SetsMark self.old lit mark self.new }
    {
        let signs = self.marks[lit.var];
        let before = as_count(signs.has(lit.positive));
        self.marks[lit.var] = signs.with(lit.positive, mark);
        self.len = self.len + as_count(mark) - before;
    }

    pub fn is_empty(&self) -> bool
        ensures { IsTrue result ↔ ((lit : Lit) → mark_of self.now lit ≡ false) }
    {
        self.len == 0
    }

    /// The number of variables.
    pub fn vars(&self) -> usize
        ensures { result ≡ length self.now }
    {
        self.marks.len()
    }
}
