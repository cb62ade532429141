//! The uses of names in an expression, in text order. Main function: `put_uses`. It allocates the list of them.

ghost use Rattle.std.specs.Prelude.{◌≡◌, ◌++◌, OnOk, map};
ghost use Rattle.oss_syntax.specs.Expressions.{tree};
ghost use Rattle.spec_names.specs.NamesFaults.{name_uses};
ghost use Rattle.spec_names.specs.Uses.{use_at, word_of_use};

use oss_syntax::{Expr, Word};
use port_types::NoMemory;

/// A use of a name: alone, as `SUB.PORT`, or in `next` and its kin.
#[derive(Clone, Copy)]
pub(crate) enum NameUse<'t> {
    Bare(&'t Word),
    OfSub(&'t Word, &'t Word),
    Wanted(&'t Word),
}

impl<'t> NameUse<'t> {
    /// The first word of the use.
    pub(crate) fn word(self) -> &'t Word
        ensures { result.now ≡ word_of_use self.entry }
    {
        match self {
            NameUse::Bare(name) => name,
            NameUse::OfSub(sub, _) => sub,
            NameUse::Wanted(port) => port,
        }
    }
}

/// Puts the uses of names in an expression at the end.
pub(crate) fn put_uses<'t>(uses: &mut Vec<NameUse<'t>>, expr: &'t Expr) -> Result<(), NoMemory>
    ensures { OnOk result (map use_at uses.new.items ≡ map use_at uses.old.items ++ name_uses (tree expr.now)) }
{
    match expr {
        Expr::Name(name) => {
            uses.push(NameUse::Bare(name))?;
            Ok(())
        }
        Expr::Dotted(sub, port) => {
            uses.push(NameUse::OfSub(sub, port))?;
            Ok(())
        }
        Expr::Numeral(_, _) => Ok(()),
        Expr::Truth(_, _) => Ok(()),
        Expr::Brackets(inside, _) => put_uses(uses, inside.get()),
        Expr::OfPort(_, port, _) => {
            uses.push(NameUse::Wanted(port))?;
            Ok(())
        }
        Expr::Prefix(_, operand, _) => put_uses(uses, operand.get()),
        Expr::Binary(_, left, right, _) => {
            put_uses(uses, left.get())?;
            put_uses(uses, right.get())
        }
    }
}
