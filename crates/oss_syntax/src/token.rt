//! Tokens. Main items: `Token`, `Tokens`.

use oss_base::Span;
use port_types::ListOf;

/// What a token is.
#[derive(Clone, Copy, Debug, PartialEq, Eq)]
pub enum TokenKind {
    /// A letter or `_`, then letters, digits and `_`.
    Word,
    /// A row of digits.
    Numeral,
    /// A symbol of the table.
    Symbol,
}

/// A token: what it is, and the bytes of the text that it covers.
#[derive(Clone, Copy, Debug, PartialEq, Eq)]
pub struct Token {
    pub kind: TokenKind,
    pub span: Span,
}

/// Tokens in order.
pub type Tokens = ListOf<Token>;
