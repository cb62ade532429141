//! The lasso that a text means: `read_lasso`. It touches memory alone.

ghost use Rattle.std.specs.Prelude.{◌≡◌, ◌+◌, ◌<◌, ◌≤◌, ◌^◌, ◌∷◌, ◌↔◌, ℕ, IfOk, OnOk, Err, IsTrue, length};
ghost use Rattle.replay.specs.TextLines.{words_of_line};
ghost use Rattle.replay.specs.LassoFiles.{IsLasso, IsBreak, IsBlock, LinesBreak, AreStateLines, BreaksAfterHeader};
ghost use Rattle.replay.specs.LassoFiles.{IsEndLine};
ghost use Rattle.replay.specs.Reading.{TellsPlaces, lines_ahead, line_behind, numbered, IsBlockEnd, EndBreaks};

use crate::free_ports::{FreePortTable, free_port_table};
use crate::header::read_header;
use crate::lines::{next_line, next_word};
use crate::named::{LassoStop, NamedLasso};
use crate::states::read_state;
use oss_base::MOST_BYTES;
use spec_model::Spec;
use std::alloc::Global;
use typed_ltl::{Lasso, Valuations};

/// Whether a line is the word `end` alone.
fn is_end(line: &[u8]) -> bool
    ensures { IsTrue result ↔ IsEndLine (words_of_line line.now) }
{
    match next_word(line) {
        Some((word, rest)) => word == b"end".as_slice() && next_word(rest).is_none(),
        None => false,
    }
}

/// Reads the line `end`, behind which no line counts.
fn read_end(bytes: &[u8], first: u32) -> Result<(), LassoStop>
    requires { first + length bytes.now < 2 ^ 32 }
    ensures end { OnOk result (IsBlockEnd (lines_ahead bytes.now first)) }
    ensures stops { (line : ℕ) → result ≡ Err (LassoStop.Fault line)
        → EndBreaks (line_behind bytes.now first) (lines_ahead bytes.now first) line }
{
    match next_line(bytes, first) {
        Ok(ahead) => {
            if !is_end(ahead.line) {
                return Err(LassoStop::Fault { line: ahead.number });
            }
            match next_line(ahead.rest, ahead.number + 1) {
                Ok(more) => Err(LassoStop::Fault { line: more.number }),
                Err(_) => Ok(()),
            }
        }
        Err(end) => Err(LassoStop::Fault { line: end.number }),
    }
}

/// Reads so many state lines, and the line `end`.
fn read_states(
    alloc: Global,
    table: &FreePortTable,
    count: usize,
    bytes: &[u8],
    first: u32,
) -> Result<Valuations, LassoStop>
    requires places { TellsPlaces table.now.names table.now.places }
    requires kinds { length table.now.kinds ≡ length table.now.names }
    requires size { first + length bytes.now < 2 ^ 32 }
    ensures count { IfOk result (λ states. length states ≡ count) }
    ensures states { IfOk result (λ states.
        AreStateLines table.now.names table.now.kinds states (lines_ahead bytes.now first)) }
    ensures stops { (line : ℕ) → result ≡ Err (LassoStop.Fault line)
        → BreaksAfterHeader table.now.names table.now.kinds (line_behind bytes.now first) count
        (lines_ahead bytes.now first) line }
{
    let mut states = Valuations::new(alloc);
    let mut rest = bytes;
    let mut number = first;
    for _ in 0..count {
        match next_line(rest, number) {
            Ok(ahead) => {
                match read_state(alloc, table, ahead.line)? {
                    Some(state) => states.push(state)?,
                    None => return Err(LassoStop::Fault { line: ahead.number }),
                }
                rest = ahead.rest;
                number = ahead.number + 1;
            }
            Err(end) => return Err(LassoStop::Fault { line: end.number }),
        }
    }
    match read_end(rest, number) {
        Ok(()) => Ok(states),
        Err(stop) => Err(stop),
    }
}

/// Reads a lasso whose first line has this number.
fn read_block(
    alloc: Global,
    spec: &Spec,
    number: u32,
    line: &[u8],
    rest: &[u8],
) -> Result<NamedLasso, LassoStop>
    requires { number + 1 + length rest.now < 2 ^ 32 }
    ensures lasso { IfOk result (λ named.
        IsBlock spec.now (numbered number line.now ∷ lines_ahead rest.now (number + 1)) named) }
    ensures stops { (at : ℕ) → result ≡ Err (LassoStop.Fault at)
        → LinesBreak spec.now (line_behind rest.now (number + 1))
        (numbered number line.now ∷ lines_ahead rest.now (number + 1)) at }
{
    let Some(header) = read_header(spec, line)? else {
        return Err(LassoStop::Fault { line: number });
    };
    let table = free_port_table(alloc, spec, header.component)?;
    match read_states(alloc, &table, header.states, rest, number + 1) {
        Ok(states) => Ok(NamedLasso {
            component: header.component,
            lasso: Lasso {
                states,
                loop_at: header.loop_at,
            },
        }),
        Err(stop) => Err(stop),
    }
}

/// The lasso that a text means for the components of a specification. Where it means none, the answer is the number of
/// its first line that breaks, counted from 1, or that behind its last line where lines are missing.
pub fn read_lasso(alloc: Global, bytes: &[u8], spec: &Spec) -> Result<NamedLasso, LassoStop>
    ensures lasso { IfOk result (λ named. IsLasso spec.now bytes.now named) }
    ensures stops { (line : ℕ) → result ≡ Err (LassoStop.Fault line) → IsBreak spec.now bytes.now line }
{
    if bytes.len() > MOST_BYTES {
        return Err(LassoStop::Fault { line: 1 });
    }
    match next_line(bytes, 1) {
        Ok(ahead) => read_block(alloc, spec, ahead.number, ahead.line, ahead.rest),
        Err(end) => Err(LassoStop::Fault { line: end.number }),
    }
}
