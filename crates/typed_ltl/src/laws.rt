//! Laws of truth, as functions without code: a caller that wants a law calls its function. May touch nothing.

ghost use Rattle.typed_ltl.specs.Laws.{TruthIsStable, TruthRecurs, WordsRecur, LassoTruthRecurs};
ghost use Rattle.typed_ltl.specs.Laws.{FalseIsCore, OrIsCore, ImpliesIsCore, IffIsCore};
ghost use Rattle.typed_ltl.specs.Laws.{FutureIsCore, AlwaysIsCore, NeverIsCore, ReleasesIsCore};
ghost use Rattle.typed_ltl.specs.Rows.{RowsAreRight};

/// The truth of each formula at each position of each trace equals its double negation.
pub fn truth_is_stable()
    ensures { TruthIsStable }
{}

/// Where a trace repeats itself, so does the truth of each formula. Words of lassos do, from the loop on.
pub fn truth_recurs()
    ensures on_traces { TruthRecurs }
    ensures of_words { WordsRecur }
    ensures on_lassos { LassoTruthRecurs }
{}

/// Each derived form has the truth of its core form, at each position of each trace.
pub fn derived_forms()
    ensures falsity { FalseIsCore }
    ensures disjunction { OrIsCore }
    ensures implication { ImpliesIsCore }
    ensures equivalence { IffIsCore }
    ensures future { FutureIsCore }
    ensures always { AlwaysIsCore }
    ensures never { NeverIsCore }
    ensures releases { ReleasesIsCore }
{}

/// The row that is computed for a formula on a lasso has its truth on the lasso's word.
pub(crate) fn rows_are_right()
    ensures { RowsAreRight }
{}
