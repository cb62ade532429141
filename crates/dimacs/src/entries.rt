//! The words of clauses: literals, and the ends of clauses. Main function: `read_entry`. It allocates nothing.

ghost use Rattle.std.specs.Prelude.{◌≡◌, ◌+◌, ◌<◌, ◌≤◌, ◌∷◌, List, ℕ, IfOk, IfErr, IfSome, IfNone, decimal, true};
ghost use Rattle.std.specs.Prelude.{false};
ghost use Rattle.dimacs.specs.declared.entries.Entry.{Entry};
ghost use Rattle.dimacs.specs.Dimacs.{most_of_kind, literal_word};
ghost use Rattle.dimacs.specs.DimacsReading.{entry_word, IsEntryBelow};

use crate::numerals::read_numeral;
use crate::reading::Reason;
use cnf::Lit;

/// A word of the clauses.
#[derive(Clone, Copy, Debug, PartialEq, Eq)]
pub enum Entry {
    /// The end of a clause.
    End,
    /// A literal of the clause.
    Of(Lit),
}

/// What is behind a minus.
fn behind_minus(word: &[u8]) -> Option<&[u8]>
    ensures some { IfSome result (λ digits. word.now ≡ 45 ∷ digits.now) }
    ensures none { IfNone result ((digits : List ℕ) → word.now ≡ 45 ∷ digits → ⊥) }
{
    word.strip_prefix(b"-".as_slice())
}

/// The literal of the variable of this number, counted from 1.
fn literal_of(number: usize, positive: bool) -> Option<Lit>
    ensures var { IfSome result (λ lit. number ≡ lit.var + 1) }
    ensures sign { IfSome result (λ lit. lit.positive ≡ positive) }
    ensures none { IfNone result (number ≡ 0) }
{
    if number == 0 {
        return None;
    }
    Some(Lit {
        var: number - 1,
        positive,
    })
}

/// The literal whose word is a minus and these digits.
fn negative_literal(digits: &[u8]) -> Option<Lit>
    ensures some { IfSome result (λ lit. 45 ∷ digits.now ≡ literal_word lit) }
    ensures small { IfSome result (λ lit. lit.var < most_of_kind) }
    ensures none { IfNone result ((entry : Entry) → IsEntryBelow most_of_kind entry
        → 45 ∷ digits.now ≡ entry_word entry → ⊥) }
{
    match read_numeral(digits) {
        Some(number) => literal_of(number, false),
        None => None,
    }
}

/// The entry whose word is a minus and these digits.
fn negative_entry(digits: &[u8]) -> Option<Entry>
    ensures some { IfSome result (λ entry. 45 ∷ digits.now ≡ entry_word entry) }
    ensures small { IfSome result (λ entry. IsEntryBelow most_of_kind entry) }
    ensures none { IfNone result ((entry : Entry) → IsEntryBelow most_of_kind entry
        → 45 ∷ digits.now ≡ entry_word entry → ⊥) }
{
    match negative_literal(digits) {
        Some(lit) => Some(Entry::Of(lit)),
        None => None,
    }
}

/// What the word of a number stands for.
fn numbered_entry(number: usize) -> Entry
    ensures word { decimal number ≡ entry_word result }
    ensures small { number ≤ most_of_kind → IsEntryBelow most_of_kind result }
{
    match literal_of(number, true) {
        Some(lit) => Entry::Of(lit),
        None => Entry::End,
    }
}

/// What a word without a minus stands for.
fn plain_entry(word: &[u8]) -> Option<Entry>
    requires { (digits : List ℕ) → word.now ≡ 45 ∷ digits → ⊥ }
    ensures some { IfSome result (λ entry. word.now ≡ entry_word entry) }
    ensures small { IfSome result (λ entry. IsEntryBelow most_of_kind entry) }
    ensures none { IfNone result ((entry : Entry) → IsEntryBelow most_of_kind entry → word.now ≡ entry_word entry → ⊥) }
{
    match read_numeral(word) {
        Some(number) => Some(numbered_entry(number)),
        None => None,
    }
}

/// What a word stands for.
fn read_entry(word: &[u8]) -> Option<Entry>
    ensures some { IfSome result (λ entry. word.now ≡ entry_word entry) }
    ensures small { IfSome result (λ entry. IsEntryBelow most_of_kind entry) }
    ensures none { IfNone result ((entry : Entry) → IsEntryBelow most_of_kind entry → word.now ≡ entry_word entry → ⊥) }
{
    match behind_minus(word) {
        Some(digits) => negative_entry(digits),
        None => plain_entry(word),
    }
}

/// Whether the entry has a variable from so many on.
fn is_beyond(entry: Entry, vars: usize) -> bool
    ensures below { result ≡ false → IsEntryBelow vars entry }
    ensures beyond { result ≡ true → IsEntryBelow vars entry → ⊥ }
{
    match entry {
        Entry::End => false,
        Entry::Of(lit) => lit.var >= vars,
    }
}

/// What a word stands for among clauses over so many variables, of which there may be all.
pub fn judge(word: &[u8], vars: usize, full: bool) -> Result<Entry, Reason>
    requires { vars ≤ most_of_kind }
    ensures word { IfOk result (λ entry. word.now ≡ entry_word entry) }
    ensures known { IfOk result (λ entry. IsEntryBelow vars entry) }
    ensures room { IfOk result (λ _. full ≡ false) }
    ensures err { IfErr result (λ _. (entry : Entry) → IsEntryBelow vars entry → word.now ≡ entry_word entry
        → full ≡ true) }
{
    match read_entry(word) {
        None => Err(Reason::Entry),
        Some(entry) => {
            if is_beyond(entry, vars) {
                Err(Reason::Variable)
            } else if full {
                Err(Reason::Clauses)
            } else {
                Ok(entry)
            }
        }
    }
}
