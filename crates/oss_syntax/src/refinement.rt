//! The items of a refinement as they are written. Main items: `RefinementItem`, `RefinementItems`.

use crate::expression::Expr;
use crate::words::{PartWords, Word};
use port_types::ListOf;

/// What a connection gives its value to: an own port, or a port of a subcomponent.
#[derive(Debug, Drop)]
pub enum TargetTree {
    Own(Word),
    OfSub(Word, Word),
}

/// An item of a refinement.
#[derive(Debug, Drop)]
pub enum RefinementItem {
    Sub { name: Word, component: Word },
    Connection { target: TargetTree, source: Expr },
    Contract { name: Word, parts: PartWords },
}

/// The items of a refinement, in order.
pub type RefinementItems = ListOf<RefinementItem>;
