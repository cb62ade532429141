//! The clauses that a start log refutes.
//!
//! Main function: `start_cnf`. Touches memory alone.

ghost use Rattle.std.specs.Prelude.{◌≡◌, ◌<◌, ◌↔◌, All, IfOk, length};
ghost use Rattle.tableau.specs.Questions.{IsQuestionOver};
ghost use Rattle.counter_cert.specs.StartClauses.{start_coding};
ghost use Rattle.counter_cert.specs.Checking.{HasModel, BreaksStart};

use crate::bounds::Certificate;
use crate::cases::add_some_case;
use crate::clauses::add_clauses;
use crate::literals::{code_question, code_start_cases};
use cnf::Cnf;
use core_ltl::Question;
use port_types::NoMemory;
use std::alloc::Global;
use tableau::Tableau;

/// The clauses that have a model exactly where a state of the tableau has the question and does not meet all entries at
/// progress 0.
pub fn start_cnf(
    alloc: Global,
    tab: &Tableau,
    question: &Question,
    cert: &Certificate,
) -> Result<Cnf, NoMemory>
    requires question { IsQuestionOver tab.now question.now }
    requires guards { All (λ entry. All (λ x. x.node.0 < length tab.now.closure.nodes) entry.guard) cert.now }
    ensures clauses { IfOk result (λ cnf. cnf.clauses ≡ (start_coding tab.now question.now cert.now).clauses) }
    ensures vars { IfOk result (λ cnf. cnf.vars ≡ (start_coding tab.now question.now cert.now).vars) }
    ensures models { IfOk result (λ cnf. HasModel cnf ↔ BreaksStart tab.now question.now cert.now) }
{
    let mut cnf = Cnf::new(alloc);
    let layer = tab.code_copy(alloc, &mut cnf)?;
    let asked = code_question(alloc, &layer, question.as_slice())?;
    add_clauses(&mut cnf, asked.as_slice())?;
    let cases = code_start_cases(alloc, &layer, cert.as_slice())?;
    add_some_case(alloc, &mut cnf, cases.as_slice())?;
    Ok(cnf)
}
