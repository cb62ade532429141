//! The refined contracts of a specification. It touches nothing outside.

use crate::lists::ItemParts;
use oss_base::{ComponentId, ContractId, Place};

/// A contract of a component that is refined by contracts of its subcomponents. The place is that of
/// the refined contract's name.
#[derive(Debug, Drop)]
pub struct Item {
    pub component: ComponentId,
    pub contract: ContractId,
    pub place: Place,
    pub parts: ItemParts,
}
