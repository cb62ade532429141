//! State lines: the values that the words of a line give the free ports. Main function: `read_state`. It touches memory
//! alone.

ghost use Rattle.std.specs.Prelude.{◌≡◌, ◌<◌, ℕ, List, Option, IfOk, IfSome, IfNone, length};
ghost use Rattle.std.specs.Prelude.{◌↔◌, IsTrue, codes, true, false, filter_map};
ghost use Rattle.port_types.specs.declared.types.Value.{Value as Given};
ghost use Rattle.replay.specs.TextLines.{words_of_line};
ghost use Rattle.replay.specs.LassoFiles.{Assigns, AreAssignments, IsStateLine};
ghost use Rattle.replay.specs.Reading.{TellsPlaces, SpeaksOf, GivesNew, GivesNothingNew, HaveGiven, slot_at, no_slots};

use crate::free_ports::FreePortTable;
use crate::lines::{Stop, next_word, run_len};
use crate::values::read_value;
use port_types::{NoMemory, Value};
use std::alloc::Global;
use typed_ltl::Valuation;

/// A word of a state line: the place of its port, and the text behind its `=`.
#[derive(Clone, Copy)]
struct Saying<'a> {
    place: usize,
    text: &'a [u8],
}

fn read_word<'a>(table: &FreePortTable, word: &'a [u8]) -> Option<Saying<'a>>
    requires { TellsPlaces table.now.names table.now.places }
    ensures some { IfSome result (λ s. SpeaksOf table.now.names word.now s.place s.text.now) }
    ensures none { IfNone result ((place : ℕ) (text : List ℕ) → SpeaksOf table.now.names word.now place text → ⊥) }
{
    let end = run_len(word, Stop::EqualsSign);
    if end == word.len() {
        return None;
    }
    match table.places.find(&word[..end]) {
        Some(place) => Some(Saying {
            place,
            text: &word[end + 1..],
        }),
        None => None,
    }
}

/// What a word gives: the place of its port, and a value of the port's type.
fn read_assignment(table: &FreePortTable, word: &[u8]) -> Result<Option<(usize, Value)>, NoMemory>
    requires places { TellsPlaces table.now.names table.now.places }
    requires kinds { length table.now.kinds ≡ length table.now.names }
    ensures some { IfOk result (λ r. IfSome r (λ a. Assigns table.now.names table.now.kinds word.now a.0 a.1)) }
    ensures none { IfOk result (λ r. IfNone r ((place : ℕ) (value : Given)
        → Assigns table.now.names table.now.kinds word.now place value → ⊥)) }
{
    let Some(saying) = read_word(table, word) else {
        return Ok(None);
    };
    match read_value(&table.kinds.as_slice()[saying.place], saying.text)? {
        Some(value) => Ok(Some((saying.place, value))),
        None => Ok(None),
    }
}

/// Notes the value that a word gives, and says whether it gives one to a port that has none.
fn note_word(
    table: &FreePortTable,
    slots: &mut Vec<Option<Value>>,
    word: &[u8],
) -> Result<bool, NoMemory>
    requires places { TellsPlaces table.now.names table.now.places }
    requires kinds { length table.now.kinds ≡ length table.now.names }
    requires size { length slots.old.items ≡ length table.now.names }
    ensures puts { IfOk result (λ r. r ≡ true
        → GivesNew table.now.names table.now.kinds word.now slots.old.items slots.new.items) }
    ensures nothing { IfOk result (λ r. r ≡ false
        → GivesNothingNew table.now.names table.now.kinds word.now slots.old.items) }
{
    let Some((place, value)) = read_assignment(table, word)? else {
        return Ok(false);
    };
    if slots[place].is_some() {
        return Ok(false);
    }
    slots[place] = Some(value);
    Ok(true)
}

/// Notes what the words of a line give, and says whether each gives a value to a port that has none.
fn note_words(
    table: &FreePortTable,
    slots: &mut Vec<Option<Value>>,
    words: &[u8],
) -> Result<bool, NoMemory>
    requires places { TellsPlaces table.now.names table.now.places }
    requires kinds { length table.now.kinds ≡ length table.now.names }
    requires empty { slots.old.items ≡ no_slots (length table.now.names) }
    ensures noted { IfOk result (λ r. r ≡ true
        → HaveGiven table.now.names table.now.kinds (words_of_line words.now) slots.new.items) }
    ensures breaks { IfOk result (λ r. r ≡ false → (values : List Given)
        → AreAssignments table.now.names table.now.kinds (words_of_line words.now) values → ⊥) }
{
    let mut rest = words;
    while let Some((word, after)) = next_word(rest) {
        if !note_word(table, slots, word)? {
            return Ok(false);
        }
        rest = after;
    }
    Ok(true)
}

fn empty_slots(alloc: Global, count: usize) -> Result<Vec<Option<Value>>, NoMemory>
    ensures { IfOk result (λ slots. slots.items ≡ no_slots count) }
{
    let mut slots = Vec::with_capacity(alloc, count)?;
    for _ in 0..count {
        slots.push(None)?;
    }
    Ok(slots)
}

/// Whether each port has a value.
fn are_all_given(slots: &[Option<Value>]) -> bool
    ensures all { result ≡ true → (place : ℕ) → place < length slots.now → slot_at slots.now place ≡ Option.None → ⊥ }
    ensures missing { result ≡ false
        → (place : ℕ) × (place < length slots.now) × (slot_at slots.now place ≡ Option.None) }
{
    for slot in slots {
        if slot.is_none() {
            return false;
        }
    }
    true
}

/// The values that are there.
fn given_values(alloc: Global, slots: Vec<Option<Value>>) -> Result<Valuation, NoMemory>
    ensures { IfOk result (λ values. values ≡ filter_map (λ slot. slot) slots.items) }
{
    let mut values = Valuation::new(alloc);
    for slot in slots {
        if let Some(value) = slot {
            values.push(value)?;
        }
    }
    Ok(values)
}

/// Whether a word is `state`.
fn is_state_word(word: &[u8]) -> bool
    ensures { IsTrue result ↔ (word.now ≡ codes "state") }
{
    word == b"state".as_slice()
}

/// The values that a state line gives the free ports, none where it is no state line.
pub fn read_state(
    alloc: Global,
    table: &FreePortTable,
    line: &[u8],
) -> Result<Option<Valuation>, NoMemory>
    requires places { TellsPlaces table.now.names table.now.places }
    requires kinds { length table.now.kinds ≡ length table.now.names }
    ensures some { IfOk result (λ r. IfSome r (λ values.
        IsStateLine table.now.names table.now.kinds (words_of_line line.now) values)) }
    ensures none { IfOk result (λ r. IfNone r ((values : List Given)
        → IsStateLine table.now.names table.now.kinds (words_of_line line.now) values → ⊥)) }
{
    let Some((keyword, words)) = next_word(line) else {
        return Ok(None);
    };
    if !is_state_word(keyword) {
        return Ok(None);
    }
    let mut slots = empty_slots(alloc, table.names.len())?;
    if !note_words(table, &mut slots, words)? {
        return Ok(None);
    }
    if !are_all_given(slots.as_slice()) {
        return Ok(None);
    }
    Ok(Some(given_values(alloc, slots)?))
}
