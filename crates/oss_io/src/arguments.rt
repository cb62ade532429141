//! The words of the command line, as the system hands them in: `argument_words`, of which nothing is a clause; and which
//! of them are operands: `is_operand`. They touch the words of the process and memory.

ghost use Rattle.std.specs.Prelude.{◌≡◌};
ghost use Rattle.oss_io.specs.Operands.{is_operand};

use port_types::NoMemory;
use std::alloc::Global;
use std::env::{Env, FillError};

/// The room for a word, which is doubled until the word fits.
const ROOM: usize = 256;

/// How often the room is doubled: no system hands a longer word to a program.
const DOUBLINGS: usize = 16;

/// The words behind the program's name. A word that can't be had, or that is not UTF-8, is handed
/// on as the empty word.
pub fn argument_words(alloc: Global, env: &impl Env) -> Result<Vec<String>, NoMemory> {
    let mut words = Vec::new(alloc);
    for place in 1..usize::MAX {
        match word(alloc, env, place)? {
            Some(word) => words.push(word)?,
            None => break,
        }
    }
    Ok(words)
}

/// The word at this place, None behind the last.
fn word(alloc: Global, env: &impl Env, place: usize) -> Result<Option<String>, NoMemory> {
    let mut room = ROOM;
    for _ in 0..DOUBLINGS {
        let mut bytes = vec![in alloc; 0u8; room]?;
        match env.arg(place, bytes.as_mut_slice()) {
            Ok(length) => {
                bytes.truncate(length);
                return Ok(Some(text(alloc, bytes)));
            }
            Err(FillError::NotPresent) => return Ok(None),
            Err(FillError::TooLong) => room = room.saturating_mul(2),
        }
    }
    Ok(Some(String::new(alloc)))
}

/// The text of these bytes, empty where they are not UTF-8.
fn text(alloc: Global, bytes: Vec<u8>) -> String {
    String::from_utf8(bytes).unwrap_or(String::new(alloc))
}

/// Whether a word stands for itself: it is not empty and doesn't begin with `-`.
pub fn is_operand(word: &str) -> bool
    ensures { result ≡ is_operand word.now }
{
    match word.as_bytes() {
        [] => false,
        [first, ..] => *first != b'-',
    }
}
