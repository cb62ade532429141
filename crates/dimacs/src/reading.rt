//! Reads the clauses of a text in the DIMACS format. Main function: `read`. It touches memory alone.

ghost use Rattle.std.specs.Prelude.{◌≡◌, ◌≤◌, ◌<◌, ◌+◌, ◌^◌, ◌↔◌, ◌∷◌, ◌++◌, ℕ, List, [], length, decimal, IsTrue};
ghost use Rattle.std.specs.Prelude.{IfOk, IfErr, OnOk, All};
ghost use Rattle.std.specs.Prelude.{if◌then◌else◌, true, false};
ghost use Rattle.dimacs.specs.Dimacs.{header_words, most_of_kind, IsDimacs, CanGoOn, BreaksFormatAt};
ghost use Rattle.dimacs.specs.DimacsReading.{IsReadUpTo, BeginsWithLines, GoesOnWith, IsEntryBelow, entry_word};
ghost use Rattle.dimacs.specs.DimacsReading.{AreTaken};
ghost use Rattle.dimacs.specs.DimacsReading.{HasReason};

use crate::entries::{Entry, judge};
use crate::numerals::read_numeral;
use crate::words::{Ahead, WordAhead, next_told};
use cnf::{Clause, ClauseBase, Cnf};
use port_types::NoMemory;
use std::alloc::Global;

/// Why a word, or the end of a text, breaks the format.
#[derive(Clone, Copy, Debug, PartialEq, Eq)]
pub enum Reason {
    /// The first words are not `p`, `cnf` and two numbers.
    Header,
    /// A word of the clauses is neither a literal nor the end of a clause.
    Entry,
    /// A literal is of a variable beyond the number of them.
    Variable,
    /// There are more clauses than their number.
    Clauses,
    /// The text ends before the header, in a clause, or before the last clause.
    End,
}

/// Where a text breaks the format: the line, counted from 1, and why. A word that is missing is told at the line behind
/// the last.
#[derive(Clone, Copy, Debug, PartialEq, Eq)]
pub struct Fault {
    pub line: usize,
    pub reason: Reason,
}

/// Why a text could not be read.
#[derive(Clone, Copy, Debug, PartialEq, Eq)]
pub enum Stop {
    Broken(Fault),
    NoMemory,
}

/// The numbers of variables and clauses of a text, and what is left of it.
#[derive(Clone, Copy, Debug)]
struct Header<'a> {
    vars: usize,
    count: usize,
    ahead: Ahead<'a>,
}

fn is_wanted(word: &[u8], wanted: &[u8]) -> bool
    ensures { IsTrue result ↔ (word.now ≡ wanted.now) }
{
    word == wanted
}

/// Reads the word that has to come.
fn fixed_word<'a>(ahead: Ahead<'a>, wanted: &[u8]) -> Result<Ahead<'a>, Fault>
    requires { ahead.number + length ahead.behind.now < 2 ^ 63 }
    ensures word { IfOk result (λ after. (text : List ℕ) → (words : List (List ℕ))
        → IsReadUpTo text ahead.entry.number ahead.entry.rest.now ahead.entry.behind.now words
        → IsReadUpTo text after.number after.rest.now after.behind.now (words ++ wanted.now ∷ [])) }
    ensures further { IfOk result (λ after. after.number + length after.behind.now
        ≤ ahead.entry.number + length ahead.entry.behind.now) }
    ensures err { IfErr result (λ fault. (text : List ℕ) → (words : List (List ℕ))
        → IsReadUpTo text ahead.entry.number ahead.entry.rest.now ahead.entry.behind.now words
        → GoesOnWith words (λ word. word ≡ wanted.now) → CanGoOn words → BreaksFormatAt text fault.line) }
{
    match next_told(ahead.number, ahead.rest, ahead.behind) {
        Err(end) => Err(Fault {
            line: end.lines + 1,
            reason: Reason::End,
        }),
        Ok(found) => {
            if is_wanted(found.word, wanted) {
                Ok(found.ahead)
            } else {
                Err(Fault {
                    line: found.ahead.number,
                    reason: Reason::Header,
                })
            }
        }
    }
}

/// A number, and what is left of the text after it.
#[derive(Clone, Copy, Debug)]
struct NumberAhead<'a> {
    number: usize,
    ahead: Ahead<'a>,
}

/// Reads a number.
fn number_word(ahead: Ahead<'_>) -> Result<NumberAhead<'_>, Fault>
    requires { ahead.number + length ahead.behind.now < 2 ^ 63 }
    ensures word { IfOk result (λ after. (text : List ℕ) → (words : List (List ℕ))
        → IsReadUpTo text ahead.entry.number ahead.entry.rest.now ahead.entry.behind.now words
        → IsReadUpTo text after.ahead.number after.ahead.rest.now after.ahead.behind.now
        (words ++ decimal after.number ∷ [])) }
    ensures most { IfOk result (λ after. after.number ≤ most_of_kind) }
    ensures further { IfOk result (λ after. after.ahead.number + length after.ahead.behind.now
        ≤ ahead.entry.number + length ahead.entry.behind.now) }
    ensures err { IfErr result (λ fault. (text : List ℕ) → (words : List (List ℕ))
        → IsReadUpTo text ahead.entry.number ahead.entry.rest.now ahead.entry.behind.now words
        → GoesOnWith words (λ word. (n : ℕ) × (n ≤ most_of_kind) × (word ≡ decimal n)) → CanGoOn words
        → BreaksFormatAt text fault.line) }
{
    match next_told(ahead.number, ahead.rest, ahead.behind) {
        Err(end) => Err(Fault {
            line: end.lines + 1,
            reason: Reason::End,
        }),
        Ok(found) => match read_numeral(found.word) {
            Some(number) => Ok(NumberAhead {
                number,
                ahead: found.ahead,
            }),
            None => Err(Fault {
                line: found.ahead.number,
                reason: Reason::Header,
            }),
        },
    }
}

/// Reads the words before the clauses.
fn read_header(text: &[u8]) -> Result<Header<'_>, Fault>
    ensures words { IfOk result (λ header. IsReadUpTo text.now header.ahead.number header.ahead.rest.now
        header.ahead.behind.now (header_words header.vars header.count)) }
    ensures vars { IfOk result (λ header. header.vars ≤ most_of_kind) }
    ensures count { IfOk result (λ header. header.count ≤ most_of_kind) }
    ensures further { IfOk result (λ header. header.ahead.number + length header.ahead.behind.now < 2 ^ 63) }
    ensures err { IfErr result (λ fault. BreaksFormatAt text.now fault.line) }
{
    let start = Ahead {
        number: 0,
        rest: &[],
        behind: text,
    };
    let problem = match fixed_word(start, b"p") {
        Ok(problem) => problem,
        Err(fault) => return Err(fault),
    };
    let form = match fixed_word(problem, b"cnf") {
        Ok(form) => form,
        Err(fault) => return Err(fault),
    };
    let vars = match number_word(form) {
        Ok(vars) => vars,
        Err(fault) => return Err(fault),
    };
    match number_word(vars.ahead) {
        Ok(count) => Ok(Header {
            vars: vars.number,
            count: count.number,
            ahead: count.ahead,
        }),
        Err(fault) => Err(fault),
    }
}

/// Puts an entry to the clauses, and says whether a clause ended.
fn put(
    alloc: Global,
    cnf: &mut Cnf,
    unfinished: &mut Clause,
    entry: Entry,
) -> Result<bool, NoMemory>
    requires below { IsEntryBelow cnf.old.vars entry }
    requires known { All (λ lit. lit.var < cnf.old.vars) unfinished.old }
    ensures vars { cnf.new.vars ≡ cnf.old.vars }
    ensures ended { IfOk result (λ ended. length cnf.new.clauses ≡ length cnf.old.clauses + (if ended then 1 else 0)) }
    ensures taken { OnOk result ((words : List (List ℕ)) → (count : ℕ)
        → AreTaken words cnf.old.vars count cnf.old.clauses unfinished.old → length cnf.old.clauses < count
        → AreTaken (words ++ entry_word entry ∷ []) cnf.old.vars count cnf.new.clauses unfinished.new) }
{
    match entry {
        Entry::End => {
            cnf.add(unfinished.as_slice())?;
            *unfinished = Clause::new(alloc);
            Ok(true)
        }
        Entry::Of(lit) => {
            unfinished.push(lit)?;
            Ok(false)
        }
    }
}

/// Whether all clauses have ended.
fn are_ended(ended: usize, count: usize) -> bool
    ensures { IsTrue result ↔ (ended ≡ count) }
{
    ended == count
}

/// Takes a word, behind which this is left of the text, and answers how many clauses have ended.
fn take_word(
    alloc: Global,
    header: Header<'_>,
    found: WordAhead<'_>,
    ended: usize,
    cnf: &mut Cnf,
    unfinished: &mut Clause,
) -> Result<usize, Stop>
    requires vars { header.vars ≤ most_of_kind }
    requires count { header.count ≤ most_of_kind }
    requires known { cnf.old.vars ≡ header.vars }
    requires ended { ended ≡ length cnf.old.clauses }
    requires few { ended ≤ header.count }
    requires unfinished { All (λ lit. lit.var < header.vars) unfinished.old }
    ensures vars { cnf.new.vars ≡ cnf.old.vars }
    ensures ended { IfOk result (λ n. n ≡ length cnf.new.clauses) }
    ensures taken { OnOk result ((words : List (List ℕ))
        → AreTaken words header.entry.vars header.entry.count cnf.old.clauses unfinished.old
        → AreTaken (words ++ found.entry.word.now ∷ []) header.entry.vars header.entry.count cnf.new.clauses
        unfinished.new) }
    ensures err { IfErr result (λ stop. (text : List ℕ) → (words : List (List ℕ))
        → IsReadUpTo text found.entry.ahead.number found.entry.ahead.rest.now found.entry.ahead.behind.now
        (words ++ found.entry.word.now ∷ [])
        → BeginsWithLines text found.entry.ahead.number words
        → AreTaken words header.entry.vars header.entry.count cnf.old.clauses unfinished.old
        → HasReason text stop) }
{
    match judge(found.word, header.vars, are_ended(ended, header.count)) {
        Ok(entry) => match put(alloc, cnf, unfinished, entry) {
            Ok(true) => Ok(ended + 1),
            Ok(false) => Ok(ended),
            Err(NoMemory) => Err(Stop::NoMemory),
        },
        Err(reason) => Err(Stop::Broken(Fault {
            line: found.ahead.number,
            reason,
        })),
    }
}

/// Whether nothing is missing.
fn are_whole(unfinished: &Clause, ended: usize, count: usize) -> bool
    ensures { IsTrue result ↔ ((unfinished.now ≡ []) × (ended ≡ count)) }
{
    unfinished.is_empty() && ended == count
}

/// Reads the clauses behind a header.
fn read_clauses(alloc: Global, text: &[u8], header: Header<'_>, cnf: &mut Cnf) -> Result<(), Stop>
    requires words { IsReadUpTo text.now header.ahead.number header.ahead.rest.now header.ahead.behind.now
        (header_words header.vars header.count) }
    requires vars { header.vars ≤ most_of_kind }
    requires count { header.count ≤ most_of_kind }
    requires further { header.ahead.number + length header.ahead.behind.now < 2 ^ 63 }
    requires known { cnf.old.vars ≡ header.vars }
    requires none { cnf.old.clauses ≡ [] }
    ensures ok { OnOk result (IsDimacs text.now cnf.new.vars cnf.new.clauses) }
    ensures err { IfErr result (HasReason text.now) }
{
    let mut ahead = header.ahead;
    let mut unfinished = Clause::new(alloc);
    let mut ended = 0usize;
    'words: loop {
        match next_told(ahead.number, ahead.rest, ahead.behind) {
            Err(end) => {
                if are_whole(&unfinished, ended, header.count) {
                    return Ok(());
                }
                return Err(Stop::Broken(Fault {
                    line: end.lines + 1,
                    reason: Reason::End,
                }));
            }
            Ok(found) => match take_word(alloc, header, found, ended, cnf, &mut unfinished) {
                Ok(more) => {
                    ended = more;
                    ahead = found.ahead;
                }
                Err(stop) => return Err(stop),
            },
        }
    }
}

/// So many variables, and no clauses.
fn with_vars(alloc: Global, vars: usize) -> Result<Cnf, NoMemory>
    ensures vars { IfOk result (λ cnf. cnf.vars ≡ vars) }
    ensures none { IfOk result (λ cnf. cnf.clauses ≡ []) }
{
    let mut cnf = Cnf::new(alloc);
    for _ in 0..vars {
        cnf.new_var()?;
    }
    Ok(cnf)
}

/// The clauses that a text stands for.
pub fn read(alloc: Global, text: &[u8]) -> Result<Cnf, Stop>
    ensures ok { IfOk result (λ cnf. IsDimacs text.now cnf.vars cnf.clauses) }
    ensures err { IfErr result (HasReason text.now) }
{
    let header = match read_header(text) {
        Ok(header) => header,
        Err(fault) => return Err(Stop::Broken(fault)),
    };
    let mut cnf = match with_vars(alloc, header.vars) {
        Ok(cnf) => cnf,
        Err(NoMemory) => return Err(Stop::NoMemory),
    };
    match read_clauses(alloc, text, header, &mut cnf) {
        Ok(()) => Ok(cnf),
        Err(stop) => Err(stop),
    }
}
