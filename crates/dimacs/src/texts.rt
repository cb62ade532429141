//! What a solver answers, as text. Main functions: `sat_text`, `unsat_text`, `trace_text`. They touch memory alone.

ghost use Rattle.std.specs.Prelude.{◌≡◌, ◌+◌, ◌∷◌, ◌++◌, [], length, decimal, codes, IfOk, OnOk};
ghost use Rattle.std.specs.List.{flat_map};
ghost use Rattle.dimacs.specs.Dimacs.{literal_word};
ghost use Rattle.dimacs.specs.SolverTexts.{spaced_literal, spaced_number, spaced_step, values_text, sat_text};
ghost use Rattle.dimacs.specs.SolverTexts.{unsat_text};
ghost use Rattle.dimacs.specs.SolverTexts.{trace_line, given_lines, chain_text, chain_lines, trace_text};

use clause_log::{Chain, Pivot};
use cnf::{Clause, Lit};
use itoa::Buffer;
use port_types::{NoMemory, Text};
use std::alloc::Global;

/// The next number. Answers `NoMemory` where none is left.
fn next(number: usize) -> Result<usize, NoMemory>
    ensures { IfOk result (λ n. n ≡ number + 1) }
{
    match number.checked_add(1) {
        Some(next) => Ok(next),
        None => Err(NoMemory),
    }
}

fn append_number(text: &mut Text, number: usize) -> Result<(), NoMemory>
    ensures { OnOk result (text.new ≡ text.old ++ decimal number) }
{
    let mut buffer = Buffer::new();
    text.append(buffer.format(number).as_bytes())?;
    Ok(())
}

/// Appends a blank and a number.
fn append_spaced(text: &mut Text, number: usize) -> Result<(), NoMemory>
    ensures { OnOk result (text.new ≡ text.old ++ spaced_number number) }
{
    text.append(b" ")?;
    append_number(text, number)?;
    Ok(())
}

fn append_literal(text: &mut Text, lit: Lit) -> Result<(), NoMemory>
    ensures { OnOk result (text.new ≡ text.old ++ literal_word lit) }
{
    let number = next(lit.var)?;
    if !lit.positive {
        text.append(b"-")?;
    }
    append_number(text, number)?;
    Ok(())
}

/// Appends a blank and a literal.
fn append_spaced_literal(text: &mut Text, lit: Lit) -> Result<(), NoMemory>
    ensures { OnOk result (text.new ≡ text.old ++ spaced_literal lit) }
{
    text.append(b" ")?;
    append_literal(text, lit)?;
    Ok(())
}

fn append_literals(text: &mut Text, lits: &[Lit]) -> Result<(), NoMemory>
    ensures { OnOk result (text.new ≡ text.old ++ flat_map spaced_literal lits.now) }
{
    for lit in lits {
        append_spaced_literal(text, *lit)?;
    }
    Ok(())
}

fn append_values(text: &mut Text, model: &[bool]) -> Result<(), NoMemory>
    ensures { OnOk result (text.new ≡ text.old ++ values_text 0 model.now) }
{
    for (var, value) in model.iter().enumerate() {
        append_spaced_literal(
            text,
            Lit {
                var,
                positive: *value,
            },
        )?;
    }
    Ok(())
}

/// The answer where there is a model.
#[tactic(auto, unfolding(crate::specs::SolverTexts::sat_text))]
pub fn sat_text(alloc: Global, model: &[bool]) -> Result<Text, NoMemory>
    ensures { IfOk result (λ text. text ≡ sat_text model.now) }
{
    let mut text = Text::new(alloc);
    text.append(b"s SATISFIABLE\nv")?;
    append_values(&mut text, model)?;
    text.append(b" 0\n")?;
    Ok(text)
}

/// The answer where there is no model.
#[tactic(auto, unfolding(crate::specs::SolverTexts::unsat_text))]
pub fn unsat_text() -> &'static [u8]
    ensures { result.now ≡ unsat_text }
{
    b"s UNSATISFIABLE\n"
}

fn append_steps(text: &mut Text, steps: &[Pivot]) -> Result<(), NoMemory>
    ensures { OnOk result (text.new ≡ text.old ++ flat_map spaced_step steps.now) }
{
    for step in steps {
        let number = next(step.clause)?;
        append_spaced(text, number)?;
    }
    Ok(())
}

/// Appends the line of a clause that is given.
fn append_given(text: &mut Text, number: usize, clause: &Clause) -> Result<(), NoMemory>
    ensures { OnOk result (text.new ≡ text.old ++ trace_line number clause.now []) }
{
    append_number(text, number)?;
    append_literals(text, clause.as_slice())?;
    text.append(b" 0 0\n")?;
    Ok(())
}

/// Appends the line of a chain.
fn append_chain(text: &mut Text, number: usize, chain: &Chain) -> Result<(), NoMemory>
    ensures { OnOk result (text.new ≡ text.old ++ trace_line number chain.now.clause (chain_text chain.now)) }
{
    append_number(text, number)?;
    append_literals(text, chain.clause.as_slice())?;
    text.append(b" 0")?;
    let first = next(chain.first)?;
    append_spaced(text, first)?;
    append_steps(text, chain.rest.as_slice())?;
    text.append(b" 0\n")?;
    Ok(())
}

/// Appends the lines of clauses that are given, the first of them with the number 1.
fn append_all_given(text: &mut Text, clauses: &[Clause]) -> Result<(), NoMemory>
    ensures { OnOk result (text.new ≡ text.old ++ given_lines 1 clauses.now) }
{
    for (place, clause) in clauses.iter().enumerate() {
        let number = next(place)?;
        append_given(text, number, clause)?;
    }
    Ok(())
}

/// Appends the lines of chains, the first of them with this number.
fn append_chains(text: &mut Text, first: usize, log: &[Chain]) -> Result<(), NoMemory>
    ensures { OnOk result (text.new ≡ text.old ++ chain_lines first log.now) }
{
    let mut number = first;
    for chain in log {
        append_chain(text, number, chain)?;
        number = next(number)?;
    }
    Ok(())
}

/// The trace of a log over these clauses, where there is no model.
pub fn trace_text(alloc: Global, clauses: &[Clause], log: &[Chain]) -> Result<Text, NoMemory>
    ensures { IfOk result (λ text. text ≡ trace_text clauses.now log.now) }
{
    let mut text = Text::new(alloc);
    append_all_given(&mut text, clauses)?;
    let first = next(clauses.len())?;
    append_chains(&mut text, first, log)?;
    Ok(text)
}
