//! The types of ports as they are written. Main item: `TypeTree`. No code but the types.

use crate::words::Words;
use oss_base::Span;

/// An end of a range. Its span is that of its first token, the sign or the numeral.
#[derive(Clone, Copy, Debug, PartialEq, Eq)]
pub struct BoundTree {
    pub negative: bool,
    pub value: u32,
    pub span: Span,
}

/// The type of a port, as it is written.
#[derive(Debug, Drop)]
pub enum TypeTree {
    Boolean,
    Event,
    Range { lo: BoundTree, hi: BoundTree },
    Enum(Words),
}
