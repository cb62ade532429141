//! What a lasso says of contracts. Judgements have no calls.

use oss_base::{ComponentId, ContractId, SubId};
use port_types::ListOf;

/// Whether the assumption and the guarantee of a contract hold at the first position of a lasso. The component is that
/// of the lasso; where a subcomponent is named, the contract is one of that subcomponent's component.
#[derive(Clone, Copy, Debug, PartialEq, Eq)]
pub struct Judgement {
    pub component: ComponentId,
    pub sub: Option<SubId>,
    pub contract: ContractId,
    pub assume: bool,
    pub guarantee: bool,
}

/// Judgements: of the component's own contracts, then for each subcomponent of those of its component, in text order.
pub type Judgements = ListOf<Judgement>;
