//! Layers: the bits and literals of one copy of the tableau's state. Touches nothing but memory.

ghost use Rattle.std.specs.Prelude.{◌≡◌, ◌<◌, OnOk, OnErr, length};
ghost use Rattle.tableau.specs.Copies.{member_literal, unfilled, with_member};

use cnf::{Bits, Lit};
use core_ltl::NodeId;
use port_types::NoMemory;
use state_coding::StateBits;
use std::alloc::Global;
use std::marker::Model;

/// A state of the tableau in clauses: the bits of its valuation and of the next one, and a literal for each
/// member of the closure. Contracts see the three. A layer is used with the base that it was made for.
#[derive(Debug, Drop)]
pub struct Layer {
    bits: StateBits,
    next_bits: StateBits,
    members: Bits,
}

impl Model for Layer {
    ghost use Rattle.tableau.specs.Copies.{LayerLits};

    ghost Value = { LayerLits };

    ghost view = { λ l. record { bits = l.bits; next_bits = l.next_bits; members = l.members } };
}

impl Layer {
    /// A layer with the bits of its valuations and no member yet.
    pub(crate) fn unfilled(alloc: Global, bits: StateBits, next_bits: StateBits) -> Layer
        ensures { result ≡ unfilled bits next_bits }
    {
        Layer {
            bits,
            next_bits,
            members: Bits::new(alloc),
        }
    }

    /// The bits of the valuation.
    pub fn now(&self) -> &StateBits
        ensures { result.now ≡ self.now.bits }
    {
        &self.bits
    }

    /// The bits of the next valuation.
    pub fn next(&self) -> &StateBits
        ensures { result.now ≡ self.now.next_bits }
    {
        &self.next_bits
    }

    /// The literal that stands for a member of the closure.
    pub fn member(&self, node: NodeId) -> Lit
        requires { node.0 < length self.now.members }
        ensures { result ≡ member_literal self.now node.0 }
    {
        self.members.as_slice()[node.0 as usize]
    }

    /// Puts the literal of the next member at the end.
    pub(crate) fn push(&mut self, lit: Lit) -> Result<(), NoMemory>
        ensures ok { OnOk result (self.new ≡ with_member self.old lit) }
        ensures err { OnErr result (self.new ≡ self.old) }
    {
        self.members.push(lit)?;
        Ok(())
    }
}
