//! The words behind a command: its operands and the numbers of its options. Main function: `given_by`. It touches
//! nothing.

ghost use Rattle.std.specs.Prelude.{◌≡◌, ◌↔◌, ◌≤◌, ◌∷◌, ◌++◌, [], ℕ, List, Some, None, IsTrue, IfSome, IfNone};
ghost use Rattle.std.specs.Prelude.{codes, decimal, map, length, string_bytes, option_map, option_and_then};
ghost use Rattle.ocra_tool.specs.Given.{StepsTo, arguments_meant, operand_words, task_behind};
ghost use Rattle.ocra_tool.specs.Words.{arguments, number_up_to as number_of, task_with};

use itoa::Buffer;
use oss_io::is_operand;

const MOST_DEPTH: u8 = 32;

const MOST_WIDTH: u8 = 3;

/// At most two operands: no command has more.
#[derive(Clone, Copy, Debug)]
pub enum Operands<'a> {
    Zero,
    One(&'a str),
    Two(&'a str, &'a str),
}

/// What words gave so far: operands, and for each option its number.
#[derive(Clone, Copy, Debug)]
pub struct Given<'a> {
    pub operands: Operands<'a>,
    pub depth: Option<u8>,
    pub width: Option<u8>,
}

/// What is given, and the words that are left.
#[derive(Clone, Copy, Debug)]
struct Step<'a> {
    given: Given<'a>,
    left: &'a [String],
}

/// What the words behind a command give. Where it is None, no command has these words.
pub fn given_by(words: &[String]) -> Option<Given<'_>>
    ensures { (command : List ℕ) → option_and_then (task_with command) (option_map arguments_meant result)
        ≡ option_and_then (task_with command) (arguments (map string_bytes words.now)) }
{
    let nothing = Given {
        operands: Operands::Zero,
        depth: None,
        width: None,
    };
    given_behind(nothing, words)
}

/// What is given with these words behind it. It calls itself at most four times: each call adds an operand or an
/// option.
fn given_behind<'a>(given: Given<'a>, words: &'a [String]) -> Option<Given<'a>>
    ensures { (command : List ℕ) → option_and_then (task_with command) (option_map arguments_meant result)
        ≡ task_behind command (arguments_meant given.entry) (arguments (map string_bytes words.now)) }
{
    let Some((word, rest)) = words.split_first() else {
        return Some(given);
    };
    let step = next_step(given, word.as_str(), rest)?;
    given_behind(step.given, step.left)
}

/// What is given with this word. An option takes the next word with it.
fn next_step<'a>(given: Given<'a>, word: &'a str, rest: &'a [String]) -> Option<Step<'a>>
    ensures leads { StepsTo (arguments_meant given.entry) (word.now ∷ map string_bytes rest.now) result }
    ensures less { IfSome result (λ step. length step.left.now ≤ length rest.now) }
{
    if word == "--depth" {
        depth_step(given, rest)
    } else if word == "--width" {
        width_step(given, rest)
    } else {
        operand_step(given, word, rest)
    }
}

/// What is given with a depth, of which the next word is the number. There is at most one.
fn depth_step<'a>(given: Given<'a>, rest: &'a [String]) -> Option<Step<'a>>
    ensures leads { StepsTo (arguments_meant given.entry) (codes "--depth" ∷ map string_bytes rest.now) result }
    ensures less { IfSome result (λ step. length step.left.now ≤ length rest.now) }
{
    let (number, left) = counted(MOST_DEPTH, rest)?;
    match given.depth {
        None => {
            let given = Given {
                operands: given.operands,
                depth: Some(number),
                width: given.width,
            };
            Some(Step { given, left })
        }
        Some(_) => None,
    }
}

/// What is given with a width, of which the next word is the number. There is at most one.
fn width_step<'a>(given: Given<'a>, rest: &'a [String]) -> Option<Step<'a>>
    ensures leads { StepsTo (arguments_meant given.entry) (codes "--width" ∷ map string_bytes rest.now) result }
    ensures less { IfSome result (λ step. length step.left.now ≤ length rest.now) }
{
    let (number, left) = counted(MOST_WIDTH, rest)?;
    match given.width {
        None => {
            let given = Given {
                operands: given.operands,
                depth: given.depth,
                width: Some(number),
            };
            Some(Step { given, left })
        }
        Some(_) => None,
    }
}

/// What is given with this word as an operand, which it is where it isn't empty and doesn't begin with `-`.
fn operand_step<'a>(given: Given<'a>, word: &'a str, left: &'a [String]) -> Option<Step<'a>>
    requires no_depth { word.now ≡ codes "--depth" → ⊥ }
    requires no_width { word.now ≡ codes "--width" → ⊥ }
    ensures leads { StepsTo (arguments_meant given.entry) (word.now ∷ map string_bytes left.now) result }
    ensures less { IfSome result (λ step. length step.left.now ≤ length left.now) }
{
    if !is_operand(word) {
        return None;
    }
    let operands = with_operand(given.operands, word)?;
    let given = Given {
        operands,
        depth: given.depth,
        width: given.width,
    };
    Some(Step { given, left })
}

/// One operand more, None where there are two.
fn with_operand<'a>(operands: Operands<'a>, word: &'a str) -> Option<Operands<'a>>
    ensures some { IfSome result (λ more. operand_words more ≡ operand_words operands.entry ++ word.now ∷ []) }
    ensures none { IfNone result (length (operand_words operands.entry) ≡ 2) }
{
    match operands {
        Operands::Zero => Some(Operands::One(word)),
        Operands::One(first) => Some(Operands::Two(first, word)),
        Operands::Two(..) => None,
    }
}

/// The number up to `most` that the first of these words is, and the words behind it.
fn counted(most: u8, words: &[String]) -> Option<(u8, &[String])>
    ensures some { IfSome result (λ r. (next : List ℕ) × (number_of most next ≡ Some r.0)
        × (map string_bytes words.now ≡ next ∷ map string_bytes r.1.now)) }
    ensures less { IfSome result (λ r. length r.1.now ≤ length words.now) }
    ensures none { IfNone result ((next : List ℕ) (rest : List (List ℕ)) → map string_bytes words.now ≡ next ∷ rest
        → number_of most next ≡ None) }
{
    let (number, rest) = words.split_first()?;
    let number = number_up_to(most, number.as_str())?;
    Some((number, rest))
}

/// Whether a word is this number in decimal digits, without leading zeros.
fn is_numeral(number: u8, word: &str) -> bool
    ensures { IsTrue result ↔ (word.now ≡ decimal number) }
{
    let mut buffer = Buffer::new();
    buffer.format(number) == word
}

/// The number from 1 to `most` that a word is, in decimal digits without leading zeros.
fn number_up_to(most: u8, word: &str) -> Option<u8>
    ensures { result ≡ number_of most word.now }
{
    match word.parse::<u8>() {
        Ok(number) => {
            if 1 <= number && number <= most && is_numeral(number, word) {
                Some(number)
            } else {
                None
            }
        }
        Err(_) => None,
    }
}
