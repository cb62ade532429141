//! Laws about systems and composition, for callers that cite them. The main function is `contracts_compose`; none of
//! these functions has code, and they touch nothing.

ghost use Rattle.obligations.specs.Laws.{ContractsCompose};

/// Composition: where every question of the levels of reached contracts is valid, each system trace
/// whose unrefined reached contracts hold, and whose environment meets the assumption of the system's
/// contract, meets its guarantee and every reached assumption.
pub fn contracts_compose()
    ensures { ContractsCompose }
{
    typed_ltl::truth_is_stable();
    connections::substitution_keeps_truth();
}
