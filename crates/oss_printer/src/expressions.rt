//! Prints expressions. Main function: `append_expr`. Allocates the text, and touches nothing else.

ghost use Rattle.std.specs.Prelude.{◌≡◌, ◌++◌, OnOk};
ghost use Rattle.oss_syntax.specs.Expressions.{tree};
ghost use Rattle.oss_printer.specs.Canonical.{expr_text};

use crate::words::{
    append_binary, append_dotted, append_number, append_of_port, append_prefix, append_truth,
    append_word,
};
use oss_syntax::Expr;
use port_types::{NoMemory, Text};

/// Puts an expression at the end of a text.
#[tactic(auto, unfolding(crate::specs::Canonical::expr_text))]
pub(crate) fn append_expr(text: &mut Text, expr: &Expr) -> Result<(), NoMemory>
    ensures { OnOk result (text.new ≡ text.old ++ expr_text (tree expr.now)) }
{
    match expr {
        Expr::Name(word) => append_word(text, word),
        Expr::Dotted(sub, port) => append_dotted(text, sub, port),
        Expr::Numeral(value, _) => append_number(text, *value),
        Expr::Truth(truth, _) => append_truth(text, *truth),
        Expr::Brackets(inside, _) => {
            text.append(b"(")?;
            append_expr(text, inside.get())?;
            text.append(b")")
        }
        Expr::OfPort(word, port, _) => append_of_port(text, *word, port),
        Expr::Prefix(word, operand, _) => {
            append_prefix(text, *word)?;
            append_expr(text, operand.get())
        }
        Expr::Binary(word, left, right, _) => {
            append_expr(text, left.get())?;
            text.append(b" ")?;
            append_binary(text, *word)?;
            text.append(b" ")?;
            append_expr(text, right.get())
        }
    }
}
