//! Expressions with their level and height. Main item: `MeasuredExpr`. Allocates the nodes of the tree.

ghost use Rattle.std.specs.Prelude.{◌≡◌, ◌<◌, ◌^◌, ◌+◌, max, IfOk};
ghost use Rattle.oss_base.specs.Limits.{most_height};
ghost use Rattle.oss_syntax.specs.Expressions.{Tree, tree, level as level_of, height as height_of};

use oss_base::Span;
use oss_syntax::{BinaryWord, Expr, PortWord, PrefixWord, Word};
use port_types::NoMemory;
use std::alloc::Global;

/// An expression with its level and its height.
#[derive(Debug, Drop)]
pub struct MeasuredExpr {
    pub expr: Expr,
    pub level: usize,
    pub height: usize,
    ghost level_is: { level ≡ level_of (tree expr) },
    ghost height_is: { height ≡ height_of (tree expr) },
}

pub fn name_expr(word: Word) -> MeasuredExpr
    ensures { tree result.expr ≡ Tree.Name word }
{
    MeasuredExpr {
        expr: Expr::name(word),
        level: 1,
        height: 1,
    }
}

pub fn dotted_expr(sub: Word, port: Word) -> MeasuredExpr
    ensures { tree result.expr ≡ Tree.Dotted sub port }
{
    MeasuredExpr {
        expr: Expr::dotted(sub, port),
        level: 1,
        height: 1,
    }
}

pub fn numeral_expr(value: u32, span: Span) -> MeasuredExpr
    ensures { tree result.expr ≡ Tree.Numeral value span }
{
    MeasuredExpr {
        expr: Expr::numeral(value, span),
        level: 1,
        height: 1,
    }
}

pub fn truth_expr(truth: bool, span: Span) -> MeasuredExpr
    ensures { tree result.expr ≡ Tree.Truth truth span }
{
    MeasuredExpr {
        expr: Expr::truth(truth, span),
        level: 1,
        height: 1,
    }
}

pub fn of_port_expr(word: PortWord, port: Word, span: Span) -> MeasuredExpr
    ensures { tree result.expr ≡ Tree.OfPort word port span }
{
    MeasuredExpr {
        expr: Expr::of_port(word, port, span),
        level: 1,
        height: 1,
    }
}

pub fn brackets_expr(
    alloc: Global,
    inside: MeasuredExpr,
    span: Span,
) -> Result<MeasuredExpr, NoMemory>
    requires { height_of (tree inside.expr) < most_height }
    ensures { IfOk result (λ part. tree part.expr ≡ Tree.Brackets (tree inside.expr) span) }
{
    let height = inside.height + 1;
    Ok(MeasuredExpr {
        expr: Expr::brackets(alloc, inside.expr, span)?,
        level: 1,
        height,
    })
}

pub fn prefix_expr(
    alloc: Global,
    word: PrefixWord,
    operand: MeasuredExpr,
    span: Span,
) -> Result<MeasuredExpr, NoMemory>
    requires { height_of (tree operand.expr) < most_height }
    ensures { IfOk result (λ part. tree part.expr ≡ Tree.Prefix word (tree operand.expr) span) }
{
    let height = operand.height + 1;
    Ok(MeasuredExpr {
        expr: Expr::prefix(alloc, word, operand.expr, span)?,
        level: word.level(),
        height,
    })
}

pub fn binary_expr(
    alloc: Global,
    word: BinaryWord,
    left: MeasuredExpr,
    right: MeasuredExpr,
    span: Span,
) -> Result<MeasuredExpr, NoMemory>
    requires left { height_of (tree left.expr) < most_height }
    requires right { height_of (tree right.expr) < most_height }
    ensures { IfOk result (λ part. tree part.expr ≡ Tree.Binary word (tree left.expr) (tree right.expr) span) }
{
    let height = left.height.max(right.height) + 1;
    Ok(MeasuredExpr {
        expr: Expr::binary(alloc, word, left.expr, right.expr, span)?,
        level: word.level(),
        height,
    })
}
