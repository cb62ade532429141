//! Laws of verdicts, for callers that cite them. None of these functions has code.

ghost use Rattle.level_verdicts.specs.Laws.{VerdictsAreUnique, ProvedIsValid};
ghost use Rattle.level_verdicts.specs.Safety.{ProvedSystemsAreSafe};

/// A level has one list of verdicts.
pub fn verdicts_are_unique()
    ensures { VerdictsAreUnique }
{}

/// A question that is proved has no trace over the free ports that breaks it.
pub fn proved_is_valid()
    ensures { ProvedIsValid }
{
    narrowed_questions::one_state_is_enough();
}

/// Where all questions of all levels are proved, each system trace whose unrefined reached contracts hold, and whose
/// environment meets the assumption of a contract of the system, meets its guarantee and every reached assumption.
pub fn proved_systems_are_safe()
    ensures { ProvedSystemsAreSafe }
{
    proved_is_valid();
    obligations::contracts_compose();
}
