//! Typed expressions: a formula, a term with its interval, or a pick with its names. It touches nothing
//! outside.

use crate::enumerations::NameSet;
use port_types::Interval;
use typed_ltl::{Formula, Pick, Term};

/// A formula, a term with the interval of its values, or a pick with the names that it may be.
#[derive(Drop)]
pub enum Typed<'a> {
    Truth(Formula),
    Number(Term, Interval),
    Choice(Pick, NameSet<'a>),
}
