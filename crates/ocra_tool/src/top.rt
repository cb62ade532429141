//! The top call: reads from the shelf what the words ask for, writes the answer to one sink and what went wrong to the
//! other. Main function: `run`. It touches what it is lent, and memory.

ghost use Rattle.std.specs.Prelude.{◌≡◌, ◌≢◌, ◌≤◌, ◌↔◌, ◌⊎◌, List, ℕ, Some, None, IfSome};
ghost use Rattle.std.specs.Io.KnownBytes.{Appends};
ghost use Rattle.oss_base.specs.declared.fault.Fault.{Fault};
ghost use Rattle.oss_io.specs.Outside.{AppendsFront, Rose, Says};
ghost use Rattle.spec_model.specs.declared.spec.Spec.{Spec};
ghost use Rattle.obligations.specs.Systems.{IsSafe};
ghost use Rattle.ocra_tool.specs.Answers.{IfHeld, IsQuiet, OfFile, OfFiles};
ghost use Rattle.ocra_tool.specs.Commands.{IsInRange, task_meant};
ghost use Rattle.ocra_tool.specs.Files.{IsSpecification};
ghost use Rattle.ocra_tool.specs.Lines.{no_memory_line, read_fault_line, usage_line, write_fault_line};
ghost use Rattle.ocra_tool.specs.Outcomes.{MayBeUnread, Means, fault_line_of};
ghost use Rattle.ocra_tool.specs.Statuses.{IsDone, IsStatus};
ghost use Rattle.ocra_tool.specs.Tasks.{AreSound, IsSound, HasFaultFor, HasSecondFaultFor};
ghost use Rattle.ocra_tool.specs.Tasks.{IsAnswerTo, IsFaultFor, IsSecondFaultFor, IsStatusOf, OfNames};
ghost use Rattle.ocra_tool.specs.Tasks.{SecondFault, first_file, second_bytes, second_fault_line, second_file};
ghost use Rattle.ocra_tool.specs.Words.{CheckFile, task_of};

use crate::check::check_file;
use crate::laws::sound_files_have_no_fault;
use crate::lines::{say_no_memory, say_read_fault, say_usage, say_write_fault};
use crate::outcome::Outcome;
use crate::printing::print_file;
use crate::replaying::replay_files;
use crate::words::{Command, parse_words};
use oss_io::{Failed, Shelf, Sink, say, write_all};
use std::alloc::Global;

/// Does what the words ask: reads from the shelf, writes the answer to `out` and a line on what went
/// wrong to `err`, and answers the status that the program ends with.
///
/// The statuses are 0 (done, nothing is refuted or undecided), 1 (done, something is refuted), 2 (done,
/// nothing is refuted and something is undecided), 3 (the file is refused), 4 (the words mean no command),
/// 5 (a file could not be read), 6 (the output could not be written), 7 (want of memory) and 8 (the second
/// file is refused).
pub fn run<F: Shelf, O: Sink, E: Sink>(
    alloc: Global,
    words: &[String],
    shelf: &mut F,
    out: &mut O,
    err: &mut E,
) -> u8
    // The shelf admits the files that the words name. Nothing is known of any other name, so no other
    // can be opened.
    requires admitted { IfSome (task_of words.now) (λ task. OfNames task (F.admits shelf.old)) }

    ensures statuses { IsStatus result }

    // 0, 1 and 2, done: `out` took a whole text, and `err` is untouched. FILE has no fault for the task, and
    // the task is answered by this text and this status. Of `check`: the file's bytes are a specification of
    // which the text is the report, what it says is proved is valid, and the status is 1 exactly where the
    // report has something refuted, 2 where it has none and something undecided. Of `replay`: the text is that
    // of the judgements, and the status is 0. Of `print`: the text is the canonical text of the file, and the
    // status is 0.
    ensures done { IsDone result → IfSome (task_of words.now) (λ task. IsStatusOf task result × (text : List ℕ) ×
        Appends (O.taken out.old) (O.taken out.new) text
        × IfSome (F.held shelf.old (first_file task)) (IsSound task)
        × IfHeld task (F.held shelf.old) (λ bytes second. IsAnswerTo task bytes second text result)) }
    ensures done_quiet { IsDone result → err.new ≡ err.old }

    // 0 of `check`: everything is proved, and the system is safe.
    ensures safe { result ≡ 0 → (file : List ℕ) (depth width : ℕ)
        → task_of words.now ≡ Some (CheckFile file depth width)
        → IfSome (F.held shelf.old file) (λ bytes. (spec : Spec) × IsSpecification width bytes spec × IsSafe spec) }

    // 3, refused: FILE's bytes have a fault, and the line says which one.
    ensures refused { result ≡ 3 → IfSome (task_of words.now) (λ task. (fault : Fault) ×
        Says (E.taken err.old) (E.taken err.new) (E.faults err.old) (E.faults err.new)
        (fault_line_of (first_file task) fault)
        × IfSome (F.held shelf.old (first_file task)) (λ bytes. IsFaultFor task bytes fault)) }

    // 8, the second file is refused: FILE has no fault, the second file has one, and the line says which one.
    ensures second_refused { result ≡ 8 → IfSome (task_of words.now) (λ task. (name : List ℕ) ×
        (second_file task ≡ Some name) × (fault : SecondFault) ×
        Says (E.taken err.old) (E.taken err.new) (E.faults err.old) (E.faults err.new) (second_fault_line name fault)
        × IfSome (F.held shelf.old (first_file task)) (IsSound task)
        × IfHeld task (F.held shelf.old) (λ bytes second. IsSecondFaultFor task bytes second fault)) }

    // 4 comes exactly where the words mean no command, and the shelf is untouched.
    ensures usage { (result ≡ 4) ↔ (task_of words.now ≡ None) }
    ensures usage_shelf { result ≡ 4 → shelf.new ≡ shelf.old }
    ensures usage_line { result ≡ 4 →
        Says (E.taken err.old) (E.taken err.new) (E.faults err.old) (E.faults err.new) usage_line }

    // 5 comes only where a call on the shelf failed. The name is FILE's, or the second file's where FILE
    // has no fault.
    ensures read_fault { result ≡ 5 → Rose (F.faults shelf.old) (F.faults shelf.new) }
    ensures read_fault_line { result ≡ 5 → IfSome (task_of words.now) (λ task. (name : List ℕ) ×
        MayBeUnread task (F.held shelf.old (first_file task)) name ×
        Says (E.taken err.old) (E.taken err.new) (E.faults err.old) (E.faults err.new) (read_fault_line name)) }

    // 6 comes only where a call on `out` failed. `out` took a front of the answer.
    ensures write_fault { result ≡ 6 → Rose (O.faults out.old) (O.faults out.new) }
    ensures write_fault_text { result ≡ 6 → IfSome (task_of words.now) (λ task. (text : List ℕ) × (status : ℕ) ×
        AppendsFront (O.taken out.old) (O.taken out.new) text
        × IfHeld task (F.held shelf.old) (λ bytes second. IsAnswerTo task bytes second text status)) }
    ensures write_fault_line { result ≡ 6 →
        Says (E.taken err.old) (E.taken err.new) (E.faults err.old) (E.faults err.new) write_fault_line }

    // 7, want of memory, is free, but comes neither at words that mean no command nor after the
    // first write.
    ensures no_memory_line { result ≡ 7 →
        Says (E.taken err.old) (E.taken err.new) (E.faults err.old) (E.faults err.new) no_memory_line }

    // `out` is written to at 0, 1, 2 and 6 alone.
    ensures out_untouched { result ≢ 0 → result ≢ 1 → result ≢ 2 → result ≢ 6 → out.new ≡ out.old }

    // Where the words mean a command and no call on the shelf or `out` failed, the answer is a status of
    // the task for files without a fault, 3 for a FILE that has one, 8 for a second file that has one
    // beside a FILE that has none, or want of memory. A fault of `err` changes nothing.
    ensures complete { task_of words.now ≢ None
        → IsQuiet (F.faults shelf.old) (F.faults shelf.new)
        → IsQuiet (O.faults out.old) (O.faults out.new)
        → IsDone result ⊎ (result ≡ 3) ⊎ (result ≡ 7) ⊎ (result ≡ 8) }
    ensures complete_sound { IsQuiet (F.faults shelf.old) (F.faults shelf.new)
        → IsQuiet (O.faults out.old) (O.faults out.new)
        → OfFiles (task_of words.now) (F.held shelf.old) (λ task bytes second.
        AreSound task bytes second → IsStatusOf task result ⊎ (result ≡ 7)) }
    ensures complete_refused { IsQuiet (F.faults shelf.old) (F.faults shelf.new)
        → OfFile (task_of words.now) (F.held shelf.old) (λ task bytes.
        HasFaultFor task bytes → (result ≡ 3) ⊎ (result ≡ 7)) }
    ensures complete_second_refused { IsQuiet (F.faults shelf.old) (F.faults shelf.new)
        → OfFiles (task_of words.now) (F.held shelf.old) (λ task bytes second.
        HasSecondFaultFor task bytes second → (result ≡ 8) ⊎ (result ≡ 7)) }

    // What the shelf holds and admits stays as it was, and no count of faults falls.
    ensures held { (n : List ℕ) → F.held shelf.new n ≡ F.held shelf.old n }
    ensures admits { (n : List ℕ) → F.admits shelf.old n ↔ F.admits shelf.new n }
    ensures shelf_later { F.faults shelf.old ≤ F.faults shelf.new }
    ensures out_later { O.faults out.old ≤ O.faults out.new }
    ensures err_later { E.faults err.old ≤ E.faults err.new }
{
    sound_files_have_no_fault();
    let Some(command) = parse_words(words) else {
        say_usage(err);
        return 4;
    };
    match outcome_of(alloc, command, shelf) {
        Outcome::Done(report) => match write_all(out, report.text.as_slice()) {
            Ok(()) => report.status,
            Err(Failed) => {
                say_write_fault(err);
                6
            }
        },
        Outcome::Refused(line) => {
            say(err, line.as_slice());
            3
        }
        Outcome::SecondRefused(line) => {
            say(err, line.as_slice());
            8
        }
        Outcome::ReadFault { file } => {
            say_read_fault(err, file);
            5
        }
        Outcome::NoMemory => {
            say_no_memory(err);
            7
        }
    }
}

/// What comes of a command.
fn outcome_of<'a, F: Shelf>(alloc: Global, command: Command<'a>, shelf: &mut F) -> Outcome<'a>
    requires admitted { OfNames (task_meant command) (F.admits shelf.old) }
    requires in_range { IsInRange command }

    ensures means { let task = task_meant command.entry in
        Means (F.held shelf.old (first_file task)) (second_bytes (second_file task) (F.held shelf.old))
        (F.faults shelf.old) (F.faults shelf.new) task result }

    ensures held { (n : List ℕ) → F.held shelf.new n ≡ F.held shelf.old n }
    ensures admits { (n : List ℕ) → F.admits shelf.old n ↔ F.admits shelf.new n }
    ensures later { F.faults shelf.old ≤ F.faults shelf.new }
{
    match command {
        Command::Check { file, depth, width } => check_file(alloc, file, depth, width, shelf),
        Command::Replay { file, lasso } => replay_files(alloc, file, lasso, shelf),
        Command::Print { file } => print_file(alloc, file, shelf),
    }
}
