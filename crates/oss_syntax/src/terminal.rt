//! The reserved words and symbols of the grammar. Main item: `Mark`. No code but the type.

/// The reserved words and symbols that are no part of an expression but brackets, dots and `in`, and
/// those that the grammar knows only to refuse.
#[derive(Clone, Copy, Debug, PartialEq, Eq)]
pub enum Mark {
    Component,
    System,
    Interface,
    Input,
    Output,
    Port,
    Contract,
    Assume,
    Guarantee,
    Refinement,
    Sub,
    Connection,
    RefinedBy,
    Boolean,
    Event,
    In,
    Assign,
    Colon,
    Semicolon,
    Comma,
    Range,
    Dot,
    Open,
    Close,
    OpenBrace,
    CloseBrace,
    At,
    UnsupportedType,
    UnsupportedConstruct,
}
