//! Laws of lassos that break a question, for callers that cite them. None of these functions has code.

ghost use Rattle.lasso_search.specs.Laws.{BreakingLassosAreTableauLassos, AnswersAreOne};

/// A lasso breaks a question exactly where a lasso of tableau states has its shape and its valuations.
pub fn breaking_lassos()
    ensures { BreakingLassosAreTableauLassos }
{
    // a law, no code runs
    port_types::values_by_kind();
}

/// A question has one answer.
pub fn answers_are_one()
    ensures { AnswersAreOne }
{}
