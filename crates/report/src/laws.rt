//! Laws about the answers to all obligations, for callers that cite them. None of these functions has code.

ghost use Rattle.report.specs.AllAnswers.{AnswersAreUnique, SuccessIsSafe};

/// Where all obligations are answered, by lassos of at most so many states, and the status is 0, the system is safe.
pub fn success_is_safe()
    ensures { SuccessIsSafe }
{
    level_verdicts::proved_systems_are_safe();
}

/// A specification has one list of answers, for each number of states.
pub fn answers_are_unique()
    ensures { AnswersAreUnique }
{
    level_verdicts::verdicts_are_unique();
}
