//! The world outside as traits: a shelf of named files to read from, and a sink to write to; and the words of a
//! command line.
//!
//! Each has a count of faults that never falls. A call answers `Failed` only where the count rose in
//! that call, so code that is generic over the traits cannot give up by itself and call it a fault of
//! the outside.
#![tactic(auto)]

mod arguments;
mod lists;
mod outside;
mod reading;
mod real;
mod saying;
mod shelves;
mod sinks;
#[cfg(test)]
mod tests;
mod writing;

pub use arguments::{argument_words, is_operand};
pub use lists::{Files, Numbers};
pub use outside::{Failed, Shelf, Sink};
pub use reading::{ReadStop, read_all};
pub use real::{ErrSink, FileShelf, StdSink};
pub use saying::{say, say_two};
pub use shelves::{MemoryShelf, SteadyShelf};
pub use sinks::{CountingSink, MemorySink};
pub use writing::write_all;
