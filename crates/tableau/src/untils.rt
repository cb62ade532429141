//! The gate of an until: the until and its Next, by the expansion law.
//!
//! Main function: `gate_until`. Touches the base that it is lent, and nothing else.

ghost use Rattle.std.specs.Prelude.{◌≡◌, ◌<◌, IfOk};
ghost use Rattle.cnf.specs.Clauses.{IsConservative};
ghost use Rattle.state_coding.specs.Coded.{IsCoded};
ghost use Rattle.tableau.specs.Parts.{until_coding};

use crate::clauses::add_clauses;
use cnf::{ClauseBase, Lit};
use port_types::NoMemory;

/// A literal that is "the right side, or both the left side and the variable after this one".
pub(crate) fn gate_until<B: ClauseBase>(
    base: &mut B,
    left: Lit,
    right: Lit,
) -> Result<Lit, NoMemory>
    requires left { left.var < B.vars base.old }
    requires right { right.var < B.vars base.old }
    ensures grows { IsConservative (B.vars base.old) (B.clauses base.old) (B.vars base.new) (B.clauses base.new) }
    ensures coded { IfOk result (λ until. IsCoded (B.clauses base.old) (B.vars base.new) (B.clauses base.new) until
        (until_coding (B.vars base.old) left right)) }
{
    let until = Lit {
        var: base.new_var()?,
        positive: true,
    };
    let next = Lit {
        var: base.new_var()?,
        positive: true,
    };
    let (not_until, not_left, not_next) = (until.negated(), left.negated(), next.negated());
    add_clauses(
        base,
        &[
            [not_until, right, left],
            [not_until, right, next],
            [until, not_left, not_next],
        ],
    )?;
    base.add(&[until, right.negated()])?;
    Ok(until)
}
