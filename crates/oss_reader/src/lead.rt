//! A terminal that the reader looks at. Main item: `Lead`. No code but the type.

use oss_base::Span;
use oss_syntax::{BinaryWord, Mark, PortWord, PrefixWord};

/// A terminal where it stands in the text, of which a name is not copied yet.
#[derive(Clone, Copy, Debug)]
pub enum Lead<'a> {
    Name(&'a str, Span),
    Numeral(u32, Span),
    Truth(bool, Span),
    OfPort(PortWord, Span),
    Prefix(PrefixWord, Span),
    Binary(BinaryWord, Span),
    Mark(Mark, Span),
}
