//! Formulas made of their parts, by form: `made_unary`, `made_binary`. May touch the allocator.

ghost use Rattle.std.specs.Prelude.{◌≡◌, IfOk};
ghost use Rattle.typed_ltl.specs.Formulas.{meaning};
ghost use Rattle.connections.specs.Forms.{unary_form, binary_form};

use port_types::NoMemory;
use std::alloc::Global;
use typed_ltl::Formula;

/// The forms with one part.
#[derive(Clone, Copy, Debug)]
pub(crate) enum Unary {
    Not,
    Then,
    Future,
    Always,
    Never,
}

/// The forms with two parts.
#[derive(Clone, Copy, Debug)]
pub(crate) enum Binary {
    And,
    Or,
    Implies,
    Iff,
    Until,
    Releases,
}

pub(crate) fn made_unary(alloc: Global, form: Unary, f: Formula) -> Result<Formula, NoMemory>
    ensures { IfOk result (λ made. meaning made ≡ unary_form form (meaning f)) }
{
    match form {
        Unary::Not => Formula::negation(alloc, f),
        Unary::Then => Formula::then(alloc, f),
        Unary::Future => Formula::future(alloc, f),
        Unary::Always => Formula::always(alloc, f),
        Unary::Never => Formula::never(alloc, f),
    }
}

pub(crate) fn made_binary(
    alloc: Global,
    form: Binary,
    f: Formula,
    g: Formula,
) -> Result<Formula, NoMemory>
    ensures { IfOk result (λ made. meaning made ≡ binary_form form (meaning f) (meaning g)) }
{
    match form {
        Binary::And => Formula::both(alloc, f, g),
        Binary::Or => Formula::either(alloc, f, g),
        Binary::Implies => Formula::implication(alloc, f, g),
        Binary::Iff => Formula::equivalence(alloc, f, g),
        Binary::Until => Formula::until(alloc, f, g),
        Binary::Releases => Formula::releases(alloc, f, g),
    }
}
