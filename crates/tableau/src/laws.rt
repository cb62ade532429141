//! Laws on layers. No code runs in them, and nothing is touched.

ghost use Rattle.tableau.specs.Laws.{LayersStay};

use state_coding::states_stay;

/// A layer stays one where variables and clauses are added.
pub fn layers_stay()
    ensures { LayersStay }
{
    // a law, no code runs
    states_stay();
}
