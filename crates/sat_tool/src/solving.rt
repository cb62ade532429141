//! Solves the clauses of a text. Main function: `solve_text`. It touches memory alone.

ghost use Rattle.std.specs.Prelude.{◌≡◌, ℕ, [], Some, IfOk, is_some};
ghost use Rattle.clause_log.specs.Derivations.{Derives};
ghost use Rattle.sat_tool.specs.SatTasks.{SatTask};
ghost use Rattle.sat_tool.specs.SatOutcomes.{ComesTo, IsOutcomeOf, HasTraceText};

use crate::lines::break_line;
use crate::outcome::SatOutcome;
use clause_log::ChainLog;
use cnf::{ClauseBase, Cnf};
use dimacs::{Stop, read, sat_text, trace_text};
use port_types::{NoMemory, Text};
use sat_core::{Outcome, Solver};
use std::alloc::Global;

/// A solver of these clauses.
fn solver_of(alloc: Global, cnf: &Cnf) -> Result<Solver, NoMemory>
    ensures vars { IfOk result (λ solver. solver.vars ≡ cnf.now.vars) }
    ensures clauses { IfOk result (λ solver. solver.clauses ≡ cnf.now.clauses) }
{
    let mut solver = with_vars(alloc, cnf.vars())?;
    for clause in cnf.clauses() {
        solver.add(clause.as_slice())?;
    }
    Ok(solver)
}

/// A solver of no clauses over so many variables.
fn with_vars(alloc: Global, vars: usize) -> Result<Solver, NoMemory>
    ensures vars { IfOk result (λ solver. solver.vars ≡ vars) }
    ensures none { IfOk result (λ solver. solver.clauses ≡ []) }
{
    let mut solver = Solver::new(alloc);
    for _ in 0..vars {
        solver.new_var()?;
    }
    Ok(solver)
}

/// The trace of a log, where one is asked for.
fn trace_of(
    alloc: Global,
    cnf: &Cnf,
    traced: bool,
    log: &ChainLog,
) -> Result<Option<Text>, NoMemory>
    requires { Derives cnf.now.clauses log.now }
    ensures { IfOk result (λ trace. HasTraceText cnf.now.clauses traced trace) }
{
    if !traced {
        return Ok(None);
    }
    Ok(Some(trace_text(alloc, cnf.clauses(), log.as_slice())?))
}

/// What comes of clauses.
fn solve_clauses(alloc: Global, cnf: &Cnf, traced: bool) -> Result<SatOutcome, NoMemory>
    ensures { IfOk result (IsOutcomeOf cnf.now.vars cnf.now.clauses traced) }
{
    let mut solver = solver_of(alloc, cnf)?;
    match solver.solve(&[])? {
        Outcome::Sat(model) => Ok(SatOutcome::Sat(sat_text(alloc, model.as_slice())?)),
        Outcome::Unsat(log) => Ok(SatOutcome::Unsat(trace_of(alloc, cnf, traced, &log)?)),
    }
}

/// What comes of the text of a file of this name.
pub fn solve_text(alloc: Global, file: &str, traced: bool, bytes: &[u8]) -> SatOutcome
    ensures { (before now : ℕ) → (task : SatTask) → task.file ≡ file.now → is_some task.trace ≡ traced
        → ComesTo (Some bytes.now) before now task result }
{
    match read(alloc, bytes) {
        Ok(cnf) => match solve_clauses(alloc, &cnf, traced) {
            Ok(outcome) => outcome,
            Err(NoMemory) => SatOutcome::NoMemory,
        },
        Err(Stop::Broken(fault)) => match break_line(alloc, file, fault) {
            Ok(line) => SatOutcome::Refused(line),
            Err(NoMemory) => SatOutcome::NoMemory,
        },
        Err(Stop::NoMemory) => SatOutcome::NoMemory,
    }
}
