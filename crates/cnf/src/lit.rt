//! Literals: a variable with a sign.

ghost use Rattle.std.specs.Prelude.{◌≡◌, ◌↔◌, IsTrue};
ghost use Rattle.cnf.specs.Clauses.{opposite};

/// A literal: a variable by its number, or its negation.
#[derive(Clone, Copy, Debug, Default, PartialEq, Eq)]
pub struct Lit {
    pub var: usize,
    pub positive: bool,
}

impl Lit {
    /// The other literal of the same variable.
    pub fn negated(self) -> Lit
        ensures { result ≡ opposite self }
    {
        Lit {
            var: self.var,
            positive: !self.positive,
        }
    }

    /// Whether the two have the same variable and the same sign.
    pub fn same(self, other: Lit) -> bool
        ensures { IsTrue result ↔ (self ≡ other) }
    {
        self.var == other.var && self.positive == other.positive
    }
}
