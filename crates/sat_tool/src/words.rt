//! What the words of the command line ask for. Main function: `parse_words`. It touches nothing.

ghost use Rattle.std.specs.Prelude.{◌≡◌, ◌∷◌, [], option_map};
ghost use Rattle.sat_tool.specs.SatTasks.{asked, task_asked};
ghost use Rattle.sat_tool.specs.SatTellings.{task_of_words};

use oss_io::is_operand;

/// The file that is read, and the file that a trace is written to, if the words ask for one.
#[derive(Clone, Copy, Debug)]
pub struct Task<'a> {
    pub file: &'a str,
    pub trace: Option<&'a str>,
}

/// What the words ask for, None exactly where they ask for nothing.
pub fn parse_words(words: &[String]) -> Option<Task<'_>>
    ensures { option_map task_of_words result ≡ asked words.now }
{
    match words {
        [file] => without_trace(file.as_str()),
        [file, option, out] => with_trace(file.as_str(), option.as_str(), out.as_str()),
        _ => None,
    }
}

/// The task of a file alone.
fn without_trace(file: &str) -> Option<Task<'_>>
    ensures { option_map task_of_words result ≡ task_asked (file.now ∷ []) }
{
    if is_operand(file) {
        Some(Task { file, trace: None })
    } else {
        None
    }
}

/// The task of a file with a trace.
fn with_trace<'a>(file: &'a str, option: &str, out: &'a str) -> Option<Task<'a>>
    ensures { option_map task_of_words result ≡ task_asked (file.now ∷ option.now ∷ out.now ∷ []) }
{
    if is_operand(file) && option == "--trace" && is_operand(out) {
        Some(Task {
            file,
            trace: Some(out),
        })
    } else {
        None
    }
}
