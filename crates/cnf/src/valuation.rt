//! Models: a truth value for each variable.

ghost use Rattle.std.specs.Prelude.{◌≡◌, ◌<◌, false, length, slice_index_or};

use std::marker::Model;

/// A truth value for each variable, by the variable's number. Contracts see the list of them.
#[derive(Debug, Drop)]
pub struct Model01 {
    values: Vec<bool>,
}

impl Model for Model01 {
    ghost use Rattle.std.specs.Prelude.{List, Bool};

    ghost Value = { List Bool };

    ghost view = { λ m. m.values.items };
}

impl Model01 {
    pub fn from_vec(values: Vec<bool>) -> Model01
        ensures { result ≡ values.items }
    {
        Model01 { values }
    }

    pub fn as_slice(&self) -> &[bool]
        ensures { result.now ≡ self.now }
    {
        self.values.as_slice()
    }

    pub fn len(&self) -> usize
        ensures { result ≡ length self.now }
    {
        self.values.len()
    }

    /// The truth value of a variable.
    pub fn value(&self, var: usize) -> bool
        requires { var < length self.now }
        ensures { result ≡ slice_index_or self.now var false }
    {
        self.values[var]
    }
}
