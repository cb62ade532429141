//! Rows of literals.

use crate::lit::Lit;
use port_types::ListOf;

/// A row of literals that are the bits of a number in two's complement, lowest bit first.
pub type Bits = ListOf<Lit>;
