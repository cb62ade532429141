//! The items of an interface as they are written. Main items: `InterfaceItem`, `InterfaceItems`.

use crate::expression::Expr;
use crate::types::TypeTree;
use crate::words::Word;
use port_types::ListOf;

/// An item of an interface.
#[derive(Debug, Drop)]
pub enum InterfaceItem {
    Port {
        input: bool,
        name: Word,
        kind: TypeTree,
    },
    Contract {
        name: Word,
        assume: Expr,
        guarantee: Expr,
    },
}

/// The items of an interface, in order.
pub type InterfaceItems = ListOf<InterfaceItem>;
