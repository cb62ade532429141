//! Which command the words of a command line mean. Main function: `parse_words`. It touches nothing.

ghost use Rattle.std.specs.Prelude.{◌≡◌, option_map};
ghost use Rattle.ocra_tool.specs.Commands.{task_meant};
ghost use Rattle.ocra_tool.specs.Given.{arguments_meant};
ghost use Rattle.ocra_tool.specs.Words.{check_with as task_to_check, replay_with as task_to_replay, print_with as task_to_print};
ghost use Rattle.ocra_tool.specs.Words.{task_of, task_with};

use crate::given::{Given, Operands, given_by};

/// The depth and the width where no option gives another.
const DEFAULT_DEPTH: u8 = 8;

pub const DEFAULT_WIDTH: u8 = 2;

/// A command with its operands, lent by the words that mean it, and with the numbers of its options. The depth is from
/// 1 to 32, the width from 1 to 3.
#[derive(Clone, Copy, Debug)]
pub enum Command<'a> {
    Check { file: &'a str, depth: u8, width: u8 },
    Replay { file: &'a str, lasso: &'a str },
    Print { file: &'a str },
}

/// The command that the words mean, None exactly where they mean none. It takes no memory.
pub fn parse_words(words: &[String]) -> Option<Command<'_>>
    ensures { option_map task_meant result ≡ task_of words.now }
{
    match words {
        [command, words @ ..] => command_with(command.as_str(), given_by(words)?),
        [] => None,
    }
}

/// The command of this name with these arguments.
fn command_with<'a>(command: &str, given: Given<'a>) -> Option<Command<'a>>
    ensures { option_map task_meant result ≡ task_with command.now (arguments_meant given.entry) }
{
    match command {
        "check" => check_with(given),
        "replay" => replay_with(given),
        "print" => print_with(given),
        _ => None,
    }
}

/// `check` with these arguments: one operand.
fn check_with(given: Given<'_>) -> Option<Command<'_>>
    ensures { let a = arguments_meant given.entry in
        option_map task_meant result ≡ task_to_check a.operands a.depths a.widths }
{
    match given.operands {
        Operands::One(file) => Some(Command::Check {
            file,
            depth: given.depth.unwrap_or(DEFAULT_DEPTH),
            width: given.width.unwrap_or(DEFAULT_WIDTH),
        }),
        Operands::Zero | Operands::Two(..) => None,
    }
}

/// `replay` with these arguments: two operands and no option.
fn replay_with(given: Given<'_>) -> Option<Command<'_>>
    ensures { let a = arguments_meant given.entry in
        option_map task_meant result ≡ task_to_replay a.operands a.depths a.widths }
{
    match (given.operands, given.depth, given.width) {
        (Operands::Two(file, lasso), None, None) => Some(Command::Replay { file, lasso }),
        _ => None,
    }
}

/// `print` with these arguments: one operand and no option.
fn print_with(given: Given<'_>) -> Option<Command<'_>>
    ensures { let a = arguments_meant given.entry in
        option_map task_meant result ≡ task_to_print a.operands a.depths a.widths }
{
    match (given.operands, given.depth, given.width) {
        (Operands::One(file), None, None) => Some(Command::Print { file }),
        _ => None,
    }
}
