//! The contracts of a component and of its subcomponents, and one of them by its place. Main function: `contracts_at`.
//! It touches nothing outside.

ghost use Rattle.std.specs.Prelude.{◌≡◌};
ghost use Rattle.std.specs.Option.{option_copied};
ghost use Rattle.connections.specs.LevelFormulas.{contracts_at as contracts_by, contract_at as contract_by};

use oss_base::{ComponentId, ContractId, SubId};
use spec_model::{Contract, Spec};
use sqlite_items::at;

/// The contracts of the component itself, or of the component of one of its subcomponents, in text order; none where
/// there is no such subcomponent.
pub fn contracts_at(spec: &Spec, c: ComponentId, sub: Option<SubId>) -> &[Contract]
    ensures { result.now ≡ contracts_by spec.now c sub }
{
    match sub {
        None => spec.contracts_of(c),
        Some(sub) => match spec.sub_component(c, sub) {
            Some(component) => spec.contracts_of(component),
            None => &[],
        },
    }
}

/// A contract of the component itself, or of one of its subcomponents.
pub(crate) fn contract_at(
    spec: &Spec,
    c: ComponentId,
    sub: Option<SubId>,
    contract: ContractId,
) -> Option<&Contract>
    ensures { option_copied result ≡ contract_by spec.now c sub contract }
{
    at(contracts_at(spec, c, sub), contract.0 as usize)
}
