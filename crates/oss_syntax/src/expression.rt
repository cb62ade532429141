//! Expressions as they are written, and the words that stand in them. Main items: `Expr`, `Role`.

ghost use Rattle.std.specs.Prelude.{◌≡◌, IfOk};
ghost use Rattle.oss_syntax.specs.Expressions.{tree, Tree, prefix_level, binary_level, left_level, right_level};
ghost use Rattle.oss_syntax.specs.Expressions.{allows_prefix, allows_binary};

use crate::words::Word;
use oss_base::Span;
use port_types::NoMemory;
use sqlite_items::Boxed;
use std::alloc::Global;

/// The words that want a port in brackets.
#[derive(Clone, Copy, Debug, PartialEq, Eq)]
pub enum PortWord {
    Next,
    Change,
    Rise,
    Fall,
}

/// The operators that stand before their operand.
#[derive(Clone, Copy, Debug, PartialEq, Eq)]
pub enum PrefixWord {
    Minus,
    Not,
    Always,
    Never,
    Future,
    Then,
}

/// The operators that stand between two operands.
#[derive(Clone, Copy, Debug, PartialEq, Eq)]
pub enum BinaryWord {
    Plus,
    Minus,
    Equal,
    NotEqual,
    Less,
    AtMost,
    Greater,
    AtLeast,
    Until,
    Releases,
    And,
    Or,
    Implies,
    Iff,
}

/// What an expression is read as: a formula of a contract, or the state expression of a connection,
/// which has no temporal words and may name ports of subcomponents.
#[derive(Clone, Copy, Debug, PartialEq, Eq)]
pub enum Role {
    Formula,
    State,
}

/// An expression. Its span is that of its first token, for an operator that of the operator's first
/// token.
#[derive(Debug, Drop)]
pub enum Expr {
    Name(Word),
    Dotted(Word, Word),
    Numeral(u32, Span),
    Truth(bool, Span),
    Brackets(Boxed<Expr>, Span),
    OfPort(PortWord, Word, Span),
    Prefix(PrefixWord, Boxed<Expr>, Span),
    Binary(BinaryWord, Boxed<Expr>, Boxed<Expr>, Span),
}

impl PrefixWord {
    /// The level of the word: how tightly it binds.
    pub fn level(self) -> usize
        ensures { result ≡ prefix_level self }
    {
        match self {
            PrefixWord::Minus => 2,
            PrefixWord::Not => 5,
            PrefixWord::Always => 5,
            PrefixWord::Never => 5,
            PrefixWord::Future => 5,
            PrefixWord::Then => 5,
        }
    }

    /// Whether the word may stand in such an expression.
    pub fn is_allowed(self, role: Role) -> bool
        ensures { result ≡ allows_prefix role self }
    {
        match role {
            Role::Formula => true,
            Role::State => match self {
                PrefixWord::Minus => true,
                PrefixWord::Not => true,
                PrefixWord::Always => false,
                PrefixWord::Never => false,
                PrefixWord::Future => false,
                PrefixWord::Then => false,
            },
        }
    }
}

impl BinaryWord {
    /// The level of the operator: how tightly it binds.
    pub fn level(self) -> usize
        ensures { result ≡ binary_level self }
    {
        match self {
            BinaryWord::Plus => 3,
            BinaryWord::Minus => 3,
            BinaryWord::Equal => 4,
            BinaryWord::NotEqual => 4,
            BinaryWord::Less => 4,
            BinaryWord::AtMost => 4,
            BinaryWord::Greater => 4,
            BinaryWord::AtLeast => 4,
            BinaryWord::Until => 6,
            BinaryWord::Releases => 6,
            BinaryWord::And => 7,
            BinaryWord::Or => 8,
            BinaryWord::Implies => 9,
            BinaryWord::Iff => 10,
        }
    }

    /// The loosest level that its left operand may have.
    pub fn left_level(self) -> usize
        ensures { result ≡ left_level self }
    {
        match self {
            BinaryWord::Plus => 3,
            BinaryWord::Minus => 3,
            BinaryWord::Equal => 3,
            BinaryWord::NotEqual => 3,
            BinaryWord::Less => 3,
            BinaryWord::AtMost => 3,
            BinaryWord::Greater => 3,
            BinaryWord::AtLeast => 3,
            BinaryWord::Until => 5,
            BinaryWord::Releases => 5,
            BinaryWord::And => 7,
            BinaryWord::Or => 8,
            BinaryWord::Implies => 8,
            BinaryWord::Iff => 10,
        }
    }

    /// The loosest level that its right operand may have.
    pub fn right_level(self) -> usize
        ensures { result ≡ right_level self }
    {
        match self {
            BinaryWord::Plus => 2,
            BinaryWord::Minus => 2,
            BinaryWord::Equal => 3,
            BinaryWord::NotEqual => 3,
            BinaryWord::Less => 3,
            BinaryWord::AtMost => 3,
            BinaryWord::Greater => 3,
            BinaryWord::AtLeast => 3,
            BinaryWord::Until => 6,
            BinaryWord::Releases => 6,
            BinaryWord::And => 6,
            BinaryWord::Or => 7,
            BinaryWord::Implies => 9,
            BinaryWord::Iff => 9,
        }
    }

    /// Whether the operator may stand in such an expression.
    pub fn is_allowed(self, role: Role) -> bool
        ensures { result ≡ allows_binary role self }
    {
        match role {
            Role::Formula => true,
            Role::State => match self {
                BinaryWord::Until => false,
                BinaryWord::Releases => false,
                _ => true,
            },
        }
    }
}

impl Expr {
    pub fn name(word: Word) -> Expr
        ensures { tree result ≡ Tree.Name word }
    {
        Expr::Name(word)
    }

    pub fn dotted(sub: Word, port: Word) -> Expr
        ensures { tree result ≡ Tree.Dotted sub port }
    {
        Expr::Dotted(sub, port)
    }

    pub fn numeral(value: u32, span: Span) -> Expr
        ensures { tree result ≡ Tree.Numeral value span }
    {
        Expr::Numeral(value, span)
    }

    pub fn truth(truth: bool, span: Span) -> Expr
        ensures { tree result ≡ Tree.Truth truth span }
    {
        Expr::Truth(truth, span)
    }

    pub fn of_port(word: PortWord, port: Word, span: Span) -> Expr
        ensures { tree result ≡ Tree.OfPort word port span }
    {
        Expr::OfPort(word, port, span)
    }

    pub fn brackets(alloc: Global, inside: Expr, span: Span) -> Result<Expr, NoMemory>
        ensures { IfOk result (λ e. tree e ≡ Tree.Brackets (tree inside) span) }
    {
        Ok(Expr::Brackets(Boxed::new(alloc, inside)?, span))
    }

    pub fn prefix(
        alloc: Global,
        word: PrefixWord,
        operand: Expr,
        span: Span,
    ) -> Result<Expr, NoMemory>
        ensures { IfOk result (λ e. tree e ≡ Tree.Prefix word (tree operand) span) }
    {
        Ok(Expr::Prefix(word, Boxed::new(alloc, operand)?, span))
    }

    pub fn binary(
        alloc: Global,
        word: BinaryWord,
        left: Expr,
        right: Expr,
        span: Span,
    ) -> Result<Expr, NoMemory>
        ensures { IfOk result (λ e. tree e ≡ Tree.Binary word (tree left) (tree right) span) }
    {
        let left = Boxed::new(alloc, left)?;
        let right = Boxed::new(alloc, right)?;
        Ok(Expr::Binary(word, left, right, span))
    }
}
