//! The list of the bits of a state. Touches nothing but what it is lent.

ghost use Rattle.std.specs.Prelude.{◌≡◌, [], ◌∷◌, ◌++◌, OnOk, OnErr, length, slice_index_or};

use cnf::{Bits, Lit};
use port_types::NoMemory;
use std::alloc::Global;
use std::marker::Model;

/// The bits of each port in a state, port by port, lowest bit first. Contracts see the list of the rows.
#[derive(Debug, Drop)]
pub struct StateBits {
    rows: Vec<Bits>,
}

impl Model for StateBits {
    ghost use Rattle.std.specs.Prelude.{List};
    ghost use Rattle.cnf.specs.declared.lit.Lit.{Lit};

    ghost Value = { List (List Lit) };

    ghost view = { λ s. s.rows.items };
}

impl StateBits {
    pub fn new(alloc: Global) -> StateBits
        ensures { result ≡ [] }
    {
        StateBits {
            rows: Vec::new(alloc),
        }
    }

    pub fn as_slice(&self) -> &[Bits]
        ensures { result.now ≡ self.now }
    {
        self.rows.as_slice()
    }

    pub fn len(&self) -> usize
        ensures { result ≡ length self.now }
    {
        self.rows.len()
    }

    /// The bits of a port, none for one that is not there.
    pub fn row(&self, port: usize) -> &[Lit]
        ensures { result.now ≡ slice_index_or self.now port [] }
    {
        match self.rows.get(port) {
            Some(row) => row.as_slice(),
            None => &[],
        }
    }

    /// Puts the bits of the next port at the end.
    pub fn push(&mut self, row: Bits) -> Result<(), NoMemory>
        ensures ok { OnOk result (self.new ≡ self.old ++ row ∷ []) }
        ensures err { OnErr result (self.new ≡ self.old) }
    {
        self.rows.push(row)?;
        Ok(())
    }
}
