//! The check of a certificate by its logs.
//!
//! Main function: `verify`. Touches memory alone.

ghost use Rattle.std.specs.Prelude.{◌↔◌, ◌<◌, IsTrue, IfOk, All, length};
ghost use Rattle.cnf.specs.Clauses.{HasNoModel};
ghost use Rattle.clause_log.specs.Derivations.{Derives};
ghost use Rattle.tableau.specs.Questions.{IsQuestionOver};
ghost use Rattle.counter_cert.specs.Progress.{most_progress};
ghost use Rattle.counter_cert.specs.Certificates.{MetAtStart, KeptBySteps, IsProgressBound, IsCertificate};
ghost use Rattle.counter_cert.specs.StartClauses.{start_coding};
ghost use Rattle.counter_cert.specs.StepClauses.{step_coding};
ghost use Rattle.counter_cert.specs.Checking.{Checks};

use crate::bounds::{CertLogs, Certificate};
use crate::form::has_form;
use crate::start::start_cnf;
use crate::step::step_cnf;
use clause_log::{ChainLog, Marks, check};
use cnf::{ClauseBase, Cnf};
use core_ltl::Question;
use port_types::NoMemory;
use std::alloc::Global;
use tableau::Tableau;

/// Whether the log derives the empty clause.
fn refutes(alloc: Global, cnf: &Cnf, log: &ChainLog) -> Result<bool, NoMemory>
    ensures derives { IfOk result (λ ok. IsTrue ok ↔ Derives cnf.now.clauses log.now) }
    ensures refutes { IfOk result (λ ok. IsTrue ok → HasNoModel cnf.now.vars cnf.now.clauses) }
{
    let mut marks = Marks::new(alloc, cnf.vars())?;
    let ok = check(cnf, log, &mut marks);
    Ok(ok)
}

/// Whether the log shows that the entries are met at the start.
fn shows_start(
    alloc: Global,
    tab: &Tableau,
    question: &Question,
    cert: &Certificate,
    log: &ChainLog,
) -> Result<bool, NoMemory>
    requires question { IsQuestionOver tab.now question.now }
    requires guards { All (λ entry. All (λ x. x.node.0 < length tab.now.closure.nodes) entry.guard) cert.now }
    ensures derives { IfOk result (λ ok.
        IsTrue ok ↔ Derives (start_coding tab.now question.now cert.now).clauses log.now) }
    ensures met { IfOk result (λ ok. IsTrue ok → MetAtStart tab.now question.now cert.now) }
{
    let cnf = start_cnf(alloc, tab, question, cert)?;
    let ok = refutes(alloc, &cnf, log)?;
    Ok(ok)
}

/// Whether the log shows that each step keeps the entries.
fn shows_step(
    alloc: Global,
    tab: &Tableau,
    k: u8,
    cert: &Certificate,
    log: &ChainLog,
) -> Result<bool, NoMemory>
    requires guards { All (λ entry. All (λ x. x.node.0 < length tab.now.closure.nodes) entry.guard) cert.now }
    requires bounds { All (λ entry. IsProgressBound (most_progress tab.now k) entry.bound) cert.now }
    ensures derives { IfOk result (λ ok. IsTrue ok ↔ Derives (step_coding tab.now k cert.now).clauses log.now) }
    ensures kept { IfOk result (λ ok. IsTrue ok → KeptBySteps tab.now k cert.now) }
{
    let cnf = step_cnf(alloc, tab, k, cert)?;
    let ok = refutes(alloc, &cnf, log)?;
    Ok(ok)
}

/// Whether the entries are guarded bounds for the depth `k` and the width `w`, some has no guard, and both logs derive
/// the empty clause. Where they do, the entries are a certificate of the question.
#[tactic(auto, using(crate::proofs::CheckLaws::guards_of, crate::proofs::CheckLaws::bounds_of))]
pub fn verify(
    alloc: Global,
    tab: &Tableau,
    question: &Question,
    k: u8,
    w: u8,
    cert: &Certificate,
    logs: &CertLogs,
) -> Result<bool, NoMemory>
    requires { IsQuestionOver tab.now question.now }
    ensures exact { IfOk result (λ ok. IsTrue ok ↔ Checks tab.now question.now k w cert.now logs.now) }
    ensures certificate { IfOk result (λ ok. IsTrue ok → IsCertificate tab.now question.now k w cert.now) }
{
    if !has_form(tab, k, w, cert.as_slice()) {
        return Ok(false);
    }
    let met = shows_start(alloc, tab, question, cert, &logs.start)?;
    if !met {
        return Ok(false);
    }
    let kept = shows_step(alloc, tab, k, cert, &logs.step)?;
    Ok(kept)
}
