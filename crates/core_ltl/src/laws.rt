//! Laws of core formulas and closures, as functions without code: a caller that wants a law calls its
//! function. May touch nothing.

ghost use Rattle.core_ltl.specs.CoreFormulas.{CoreFormsKeepTruth};
ghost use Rattle.core_ltl.specs.Laws.{NodesStandForFormulas, NodesStandForOneFormula};
ghost use Rattle.core_ltl.specs.Laws.{FormulasHaveOneNode, FormulasAreAddedOnce};

use typed_ltl::truth_is_stable;

/// The core form of a formula has its truth, at each position of each trace.
pub fn core_forms_keep_truth()
    ensures { CoreFormsKeepTruth }
{
    // a law, no code runs
    truth_is_stable();
}

/// In a closure each node stands for exactly one core formula, equal core formulas are one node, and what has
/// a node already adds nothing.
pub fn closure_laws()
    ensures formulas { NodesStandForFormulas }
    ensures one_formula { NodesStandForOneFormula }
    ensures one_node { FormulasHaveOneNode }
    ensures once { FormulasAreAddedOnce }
{}
