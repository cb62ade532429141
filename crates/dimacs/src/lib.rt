//! Clauses as text, in the DIMACS format: `read` takes the clauses from a text. `sat_text`, `unsat_text` and
//! `trace_text` write what a solver answers. All of it touches memory alone.
#![tactic(auto)]

mod entries;
mod laws;
mod numerals;
mod reading;
mod texts;
mod words;

pub use laws::texts_stand_for_one_list;
pub use reading::{Fault, Reason, Stop, read};
pub use texts::{sat_text, trace_text, unsat_text};
