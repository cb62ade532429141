//! Answers to obligations, and the exit status that they lead to.

ghost use Rattle.std.specs.Prelude.{◌≡◌};
ghost use Rattle.std.specs.List.{list_any};
ghost use Rattle.report.specs.Answers.{is_refuted as answers_refuted, is_undecided as answers_undecided};
ghost use Rattle.report.specs.Answers.{status as status_by};

use obligations::ObligationName;
use port_types::ListOf;
use typed_ltl::Verdict;

/// An obligation and its verdict. A lasso of the verdict gives each free port of the obligation's
/// component a value, in the order of the free ports.
#[derive(Debug, Drop)]
pub struct Answer {
    pub name: ObligationName,
    pub verdict: Verdict,
}

/// Answers in the order of the obligations.
pub type Answers = ListOf<Answer>;

fn is_refuted(answer: &Answer) -> bool
    ensures { result ≡ answers_refuted answer.now }
{
    match answer.verdict {
        Verdict::Refuted(_) => true,
        Verdict::Proved => false,
        Verdict::Undecided => false,
    }
}

fn is_undecided(answer: &Answer) -> bool
    ensures { result ≡ answers_undecided answer.now }
{
    match answer.verdict {
        Verdict::Refuted(_) => false,
        Verdict::Proved => false,
        Verdict::Undecided => true,
    }
}

fn some_refuted(answers: &[Answer]) -> bool
    ensures { result ≡ list_any answers_refuted answers.now }
{
    answers.iter().any(is_refuted)
}

fn some_undecided(answers: &[Answer]) -> bool
    ensures { result ≡ list_any answers_undecided answers.now }
{
    answers.iter().any(is_undecided)
}

/// The exit status: 1 where something is refuted, else 2 where something is undecided, else 0.
pub fn status_of(answers: &Answers) -> u8
    ensures { result ≡ status_by answers.now }
{
    if some_refuted(answers.as_slice()) {
        1
    } else if some_undecided(answers.as_slice()) {
        2
    } else {
        0
    }
}
