//! The top call: reads the file that the words ask for, solves its clauses, and writes the answer. Main function:
//! `run`. It touches what it is lent, and memory.

ghost use Rattle.std.specs.Prelude.{◌≡◌, ◌≢◌, ◌≤◌, ◌↔◌, ◌⊎◌, List, ℕ, Bool, Some, None, IfSome, IsSome, OnOk};
ghost use Rattle.std.specs.Io.KnownBytes.{Appends};
ghost use Rattle.dimacs.specs.SolverTexts.{sat_text, unsat_text};
ghost use Rattle.oss_io.specs.Outside.{HasCause, Rose, Says};
ghost use Rattle.sat_tool.specs.SatTasks.{asked};
ghost use Rattle.sat_tool.specs.SatAnswers.{HasThisModel, IsUnsatisfiable, IsTraceOf, IsBreakLine, IsSatStatus};
ghost use Rattle.sat_tool.specs.SatAnswers.{solver_usage, told_read_fault, told_write_fault, told_no_memory};
ghost use Rattle.sat_tool.specs.SatTellings.{task_of_words};
ghost use Rattle.sat_tool.specs.SatOutcomes.{ComesTo};

use crate::lines::{say_no_memory, say_read_fault, say_usage, say_write_fault};
use crate::outcome::SatOutcome;
use crate::solving::solve_text;
use crate::words::{Task, parse_words};
use dimacs::unsat_text;
use oss_io::{Failed, ReadStop, Shelf, Sink, read_all, say, write_all};
use port_types::Text;
use std::alloc::Global;

/// The longest file that is read, in bytes. A longer one is taken for want of memory.
const MOST_BYTES: usize = 536_870_912;

/// Does what the words ask: solves the clauses of a file, writes the answer to `out`, a trace that is asked for to
/// `trace` and a line on what went wrong to `err`, and answers the status that the program ends with.
///
/// The statuses are 10 (there is a model), 20 (there is none), 1 (the file breaks the format), 4 (the words ask for
/// nothing), 5 (the file could not be read), 6 (an output could not be written) and 7 (want of memory).
pub fn run<F: Shelf, O: Sink, E: Sink, T: Sink>(
    alloc: Global,
    words: &[String],
    shelf: &mut F,
    out: &mut O,
    err: &mut E,
    trace: &mut T,
) -> u8
    requires admitted { IfSome (asked words.now) (λ task. F.admits shelf.old task.file) }

    ensures statuses { IsSatStatus result }

    // 10: `out` took the text of a model of the clauses that the file's bytes stand for.
    ensures sat { result ≡ 10 → IfSome (asked words.now) (λ task. (model : List Bool)
        × Appends (O.taken out.old) (O.taken out.new) (sat_text model)
        × IfSome (F.held shelf.old task.file) (λ bytes. HasThisModel bytes model)) }

    // 20: `out` took the line that there is no model, and there is none.
    ensures unsat { result ≡ 20 → Appends (O.taken out.old) (O.taken out.new) unsat_text
        × IfSome (asked words.now) (λ task. IfSome (F.held shelf.old task.file) IsUnsatisfiable) }

    // 20 with `--trace`: `trace` took a derivation of the empty clause.
    ensures traced { result ≡ 20 → IfSome (asked words.now) (λ task. IsSome task.trace → (text : List ℕ)
        × Appends (T.taken trace.old) (T.taken trace.new) text
        × IfSome (F.held shelf.old task.file) (λ bytes. IsTraceOf bytes text)) }
    ensures sat_quiet { result ≡ 10 → err.new ≡ err.old }
    ensures unsat_quiet { result ≡ 20 → err.new ≡ err.old }

    // 1: the file's bytes stand for no clauses, and the line tells where that is seen.
    ensures broken { result ≡ 1 → IfSome (asked words.now) (λ task. (text : List ℕ)
        × Says (E.taken err.old) (E.taken err.new) (E.faults err.old) (E.faults err.new) text
        × IfSome (F.held shelf.old task.file) (λ bytes. IsBreakLine task.file bytes text)) }

    // 4 comes exactly where the words ask for nothing, and the shelf is untouched.
    ensures usage { (result ≡ 4) ↔ (asked words.now ≡ None) }
    ensures usage_shelf { result ≡ 4 → shelf.new ≡ shelf.old }
    ensures usage_told { result ≡ 4 → Says (E.taken err.old) (E.taken err.new) (E.faults err.old) (E.faults err.new)
        solver_usage }

    // 5 and 6 come only where a call on the shelf, or on an output, failed. 7 is free.
    ensures read_fault { result ≡ 5 → Rose (F.faults shelf.old) (F.faults shelf.new) }
    ensures read_fault_told { result ≡ 5 → Says (E.taken err.old) (E.taken err.new) (E.faults err.old)
        (E.faults err.new) told_read_fault }
    ensures write_fault { result ≡ 6 → Rose (O.faults out.old) (O.faults out.new)
        ⊎ Rose (T.faults trace.old) (T.faults trace.new) }
    ensures write_fault_told { result ≡ 6 → Says (E.taken err.old) (E.taken err.new) (E.faults err.old)
        (E.faults err.new) told_write_fault }
    ensures no_memory_told { result ≡ 7 → Says (E.taken err.old) (E.taken err.new) (E.faults err.old)
        (E.faults err.new) told_no_memory }

    // `out` is written to at 10, 20 and 6 alone, and `trace` at 20 and 6 alone, where the words ask for one.
    ensures out_untouched { result ≢ 10 → result ≢ 20 → result ≢ 6 → out.new ≡ out.old }
    ensures trace_untouched { result ≢ 20 → result ≢ 6 → trace.new ≡ trace.old }
    ensures untraced { IfSome (asked words.now) (λ task. task.trace ≡ None → trace.new ≡ trace.old) }

    // What the shelf holds and admits stays as it was, and no count of faults falls.
    ensures held { (n : List ℕ) → F.held shelf.new n ≡ F.held shelf.old n }
    ensures admits { (n : List ℕ) → F.admits shelf.old n ↔ F.admits shelf.new n }
    ensures shelf_later { F.faults shelf.old ≤ F.faults shelf.new }
    ensures out_later { O.faults out.old ≤ O.faults out.new }
    ensures err_later { E.faults err.old ≤ E.faults err.new }
    ensures trace_later { T.faults trace.old ≤ T.faults trace.new }
{
    let Some(task) = parse_words(words) else {
        say_usage(err);
        return 4;
    };
    match outcome_of(alloc, task, shelf) {
        SatOutcome::Sat(text) => match write_all(out, text.as_slice()) {
            Ok(()) => 10,
            Err(Failed) => {
                say_write_fault(err);
                6
            }
        },
        SatOutcome::Unsat(text) => match write_trace(trace, &text) {
            Ok(()) => match write_all(out, unsat_text()) {
                Ok(()) => 20,
                Err(Failed) => {
                    say_write_fault(err);
                    6
                }
            },
            Err(Failed) => {
                say_write_fault(err);
                6
            }
        },
        SatOutcome::Refused(line) => {
            say(err, line.as_slice());
            1
        }
        SatOutcome::ReadFault => {
            say_read_fault(err);
            5
        }
        SatOutcome::NoMemory => {
            say_no_memory(err);
            7
        }
    }
}

/// Writes the trace, if there is one.
fn write_trace<T: Sink>(trace: &mut T, text: &Option<Text>) -> Result<(), Failed>
    ensures whole { OnOk result (IfSome text.now (λ bytes. Appends (T.taken trace.old) (T.taken trace.new) bytes)) }
    ensures untouched { text.now ≡ None → trace.new ≡ trace.old }
    ensures cause { HasCause (T.faults trace.old) (T.faults trace.new) result }
{
    match text {
        Some(text) => write_all(trace, text.as_slice()),
        None => Ok(()),
    }
}

/// What comes of a file.
fn outcome_of<F: Shelf>(alloc: Global, task: Task<'_>, shelf: &mut F) -> SatOutcome
    requires { F.admits shelf.old task.file.now }
    ensures means { let meant = task_of_words task.entry in
        ComesTo (F.held shelf.old meant.file) (F.faults shelf.old) (F.faults shelf.new) meant result }
    ensures held { (n : List ℕ) → F.held shelf.new n ≡ F.held shelf.old n }
    ensures admits { (n : List ℕ) → F.admits shelf.old n ↔ F.admits shelf.new n }
    ensures later { F.faults shelf.old ≤ F.faults shelf.new }
{
    match read_all(alloc, shelf, task.file, MOST_BYTES) {
        Ok(bytes) => solve_text(alloc, task.file, task.trace.is_some(), bytes.as_slice()),
        Err(ReadStop::Failed) => SatOutcome::ReadFault,
        Err(ReadStop::TooLong) => SatOutcome::NoMemory,
        Err(ReadStop::NoMemory) => SatOutcome::NoMemory,
    }
}
