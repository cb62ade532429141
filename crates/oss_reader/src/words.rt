//! The reserved words and symbols, by their lengths, so that a word is compared with few others. Main functions:
//! `word_lead`, `symbol_lead`. Touches no memory but the text that it is given.

ghost use Rattle.std.specs.Prelude.{◌≡◌};
ghost use Rattle.oss_syntax.specs.Terminals.{word_terminal, symbol_terminal};
ghost use Rattle.oss_reader.specs.Leads.{lead_terminal};
ghost use Rattle.oss_reader.specs.Words.{word_of_length, symbol_of_length};

use crate::lead::Lead;
use oss_base::Span;
use oss_syntax::{BinaryWord, Mark, PortWord, PrefixWord};

/// What a word of one byte is read as.
fn word_of_one<'a>(text: &'a str, span: Span) -> Lead<'a>
    ensures { lead_terminal result ≡ word_of_length 1 text.now span }
{
    match text {
        "G" => Lead::Prefix(PrefixWord::Always, span),
        "F" => Lead::Prefix(PrefixWord::Future, span),
        "X" => Lead::Prefix(PrefixWord::Then, span),
        "U" => Lead::Binary(BinaryWord::Until, span),
        _ => Lead::Name(text, span),
    }
}

/// What a word of two bytes is read as.
fn word_of_two<'a>(text: &'a str, span: Span) -> Lead<'a>
    ensures { lead_terminal result ≡ word_of_length 2 text.now span }
{
    match text {
        "in" => Lead::Mark(Mark::In, span),
        "or" => Lead::Binary(BinaryWord::Or, span),
        _ => Lead::Name(text, span),
    }
}

/// What a word of three bytes is read as.
fn word_of_three<'a>(text: &'a str, span: Span) -> Lead<'a>
    ensures { lead_terminal result ≡ word_of_length 3 text.now span }
{
    match text {
        "SUB" => Lead::Mark(Mark::Sub, span),
        "mod" | "xor" => Lead::Mark(Mark::UnsupportedConstruct, span),
        "not" => Lead::Prefix(PrefixWord::Not, span),
        "and" => Lead::Binary(BinaryWord::And, span),
        "iff" => Lead::Binary(BinaryWord::Iff, span),
        _ => Lead::Name(text, span),
    }
}

/// What a word of four bytes is read as.
fn word_of_four<'a>(text: &'a str, span: Span) -> Lead<'a>
    ensures { lead_terminal result ≡ word_of_length 4 text.now span }
{
    match text {
        "PORT" => Lead::Mark(Mark::Port, span),
        "real" | "word" => Lead::Mark(Mark::UnsupportedType, span),
        "case" => Lead::Mark(Mark::UnsupportedConstruct, span),
        "true" | "TRUE" => Lead::Truth(true, span),
        "next" => Lead::OfPort(PortWord::Next, span),
        "rise" => Lead::OfPort(PortWord::Rise, span),
        "fall" => Lead::OfPort(PortWord::Fall, span),
        "then" => Lead::Prefix(PrefixWord::Then, span),
        _ => Lead::Name(text, span),
    }
}

/// What a word of five bytes is read as.
fn word_of_five<'a>(text: &'a str, span: Span) -> Lead<'a>
    ensures { lead_terminal result ≡ word_of_length 5 text.now span }
{
    match text {
        "INPUT" => Lead::Mark(Mark::Input, span),
        "event" => Lead::Mark(Mark::Event, span),
        "array" => Lead::Mark(Mark::UnsupportedType, span),
        "since" => Lead::Mark(Mark::UnsupportedConstruct, span),
        "false" | "FALSE" => Lead::Truth(false, span),
        "never" => Lead::Prefix(PrefixWord::Never, span),
        "until" => Lead::Binary(BinaryWord::Until, span),
        _ => Lead::Name(text, span),
    }
}

/// What a word of six bytes is read as.
fn word_of_six<'a>(text: &'a str, span: Span) -> Lead<'a>
    ensures { lead_terminal result ≡ word_of_length 6 text.now span }
{
    match text {
        "system" => Lead::Mark(Mark::System, span),
        "OUTPUT" => Lead::Mark(Mark::Output, span),
        "assume" => Lead::Mark(Mark::Assume, span),
        "signed" => Lead::Mark(Mark::UnsupportedType, span),
        "DEFINE" => Lead::Mark(Mark::UnsupportedConstruct, span),
        "change" => Lead::OfPort(PortWord::Change, span),
        "always" => Lead::Prefix(PrefixWord::Always, span),
        _ => Lead::Name(text, span),
    }
}

/// What a word of seven bytes is read as.
fn word_of_seven<'a>(text: &'a str, span: Span) -> Lead<'a>
    ensures { lead_terminal result ≡ word_of_length 7 text.now span }
{
    match text {
        "boolean" => Lead::Mark(Mark::Boolean, span),
        "integer" => Lead::Mark(Mark::UnsupportedType, span),
        "FORMULA" => Lead::Mark(Mark::UnsupportedConstruct, span),
        "implies" => Lead::Binary(BinaryWord::Implies, span),
        _ => Lead::Name(text, span),
    }
}

/// What a word of eight bytes is read as.
fn word_of_eight<'a>(text: &'a str, span: Span) -> Lead<'a>
    ensures { lead_terminal result ≡ word_of_length 8 text.now span }
{
    match text {
        "CONTRACT" => Lead::Mark(Mark::Contract, span),
        "unsigned" => Lead::Mark(Mark::UnsupportedType, span),
        "releases" => Lead::Binary(BinaryWord::Releases, span),
        _ => Lead::Name(text, span),
    }
}

/// What a word of nine bytes is read as.
fn word_of_nine<'a>(text: &'a str, span: Span) -> Lead<'a>
    ensures { lead_terminal result ≡ word_of_length 9 text.now span }
{
    match text {
        "COMPONENT" => Lead::Mark(Mark::Component, span),
        "INTERFACE" => Lead::Mark(Mark::Interface, span),
        "guarantee" => Lead::Mark(Mark::Guarantee, span),
        "REFINEDBY" => Lead::Mark(Mark::RefinedBy, span),
        "PARAMETER" | "OPERATION" => Lead::Mark(Mark::UnsupportedConstruct, span),
        _ => Lead::Name(text, span),
    }
}

/// What a word of ten bytes is read as.
fn word_of_ten<'a>(text: &'a str, span: Span) -> Lead<'a>
    ensures { lead_terminal result ≡ word_of_length 10 text.now span }
{
    match text {
        "REFINEMENT" => Lead::Mark(Mark::Refinement, span),
        "CONNECTION" => Lead::Mark(Mark::Connection, span),
        "continuous" => Lead::Mark(Mark::UnsupportedType, span),
        "time_until" | "previously" => Lead::Mark(Mark::UnsupportedConstruct, span),
        _ => Lead::Name(text, span),
    }
}

/// What a word of twelve bytes is read as.
fn word_of_twelve<'a>(text: &'a str, span: Span) -> Lead<'a>
    ensures { lead_terminal result ≡ word_of_length 12 text.now span }
{
    match text {
        "historically" => Lead::Mark(Mark::UnsupportedConstruct, span),
        _ => Lead::Name(text, span),
    }
}

/// What a word is read as.
pub fn word_lead<'a>(text: &'a str, span: Span) -> Lead<'a>
    ensures { lead_terminal result ≡ word_terminal text.now span }
{
    match text.len() {
        1 => word_of_one(text, span),
        2 => word_of_two(text, span),
        3 => word_of_three(text, span),
        4 => word_of_four(text, span),
        5 => word_of_five(text, span),
        6 => word_of_six(text, span),
        7 => word_of_seven(text, span),
        8 => word_of_eight(text, span),
        9 => word_of_nine(text, span),
        10 => word_of_ten(text, span),
        12 => word_of_twelve(text, span),
        _ => Lead::Name(text, span),
    }
}

/// What a symbol of one byte is read as.
fn symbol_of_one<'a>(text: &'a str, span: Span) -> Lead<'a>
    ensures { lead_terminal result ≡ symbol_of_length 1 text.now span }
{
    match text {
        "=" => Lead::Binary(BinaryWord::Equal, span),
        "<" => Lead::Binary(BinaryWord::Less, span),
        ">" => Lead::Binary(BinaryWord::Greater, span),
        "+" => Lead::Binary(BinaryWord::Plus, span),
        "-" => Lead::Binary(BinaryWord::Minus, span),
        "&" => Lead::Binary(BinaryWord::And, span),
        "|" => Lead::Binary(BinaryWord::Or, span),
        "!" => Lead::Prefix(PrefixWord::Not, span),
        ":" => Lead::Mark(Mark::Colon, span),
        ";" => Lead::Mark(Mark::Semicolon, span),
        "," => Lead::Mark(Mark::Comma, span),
        "." => Lead::Mark(Mark::Dot, span),
        "(" => Lead::Mark(Mark::Open, span),
        ")" => Lead::Mark(Mark::Close, span),
        "{" => Lead::Mark(Mark::OpenBrace, span),
        "}" => Lead::Mark(Mark::CloseBrace, span),
        "@" => Lead::Mark(Mark::At, span),
        "*" | "/" | "[" | "]" => Lead::Mark(Mark::UnsupportedConstruct, span),
        _ => Lead::Name(text, span),
    }
}

/// What a symbol of two bytes is read as.
fn symbol_of_two<'a>(text: &'a str, span: Span) -> Lead<'a>
    ensures { lead_terminal result ≡ symbol_of_length 2 text.now span }
{
    match text {
        "->" => Lead::Binary(BinaryWord::Implies, span),
        "<=" => Lead::Binary(BinaryWord::AtMost, span),
        ">=" => Lead::Binary(BinaryWord::AtLeast, span),
        "!=" => Lead::Binary(BinaryWord::NotEqual, span),
        ":=" => Lead::Mark(Mark::Assign, span),
        ".." => Lead::Mark(Mark::Range, span),
        _ => Lead::Name(text, span),
    }
}

/// What a symbol of three bytes is read as.
fn symbol_of_three<'a>(text: &'a str, span: Span) -> Lead<'a>
    ensures { lead_terminal result ≡ symbol_of_length 3 text.now span }
{
    match text {
        "<->" => Lead::Binary(BinaryWord::Iff, span),
        _ => Lead::Name(text, span),
    }
}

/// What a symbol is read as. A text that is no symbol is read as a name, as no text of a token is.
pub fn symbol_lead<'a>(text: &'a str, span: Span) -> Lead<'a>
    ensures { lead_terminal result ≡ symbol_terminal text.now span }
{
    match text.len() {
        1 => symbol_of_one(text, span),
        2 => symbol_of_two(text, span),
        3 => symbol_of_three(text, span),
        _ => Lead::Name(text, span),
    }
}
