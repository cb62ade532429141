//! Names as they are written. Main items: `Word`, `Words`.

use oss_base::Span;
use port_types::{ListOf, Name};

/// A name as it is written, and the bytes of the text that it covers.
#[derive(Debug, Drop)]
pub struct Word {
    pub text: Name,
    pub span: Span,
}

/// A contract of a subcomponent, `SUB.CONTRACT`, as it is written.
#[derive(Debug, Drop)]
pub struct PartWord {
    pub sub: Word,
    pub contract: Word,
}

/// Names as they are written, in order.
pub type Words = ListOf<Word>;

/// Contracts of subcomponents, in order.
pub type PartWords = ListOf<PartWord>;
