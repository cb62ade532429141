//! Solves the clauses of a DIMACS file, and says as the SAT competitions have it whether there is a model, and which
//! one. Where there is none it writes a trace of why, if the words ask for one.
//!
//! `run` is all of the program: what stands around it hands in the words, the files of the system, the standard output,
//! the standard error and the file of the trace.
#![tactic(auto)]

mod file_sink;
mod lines;
mod outcome;
mod solving;
mod top;
mod words;

use file_sink::FileSink;
use oss_io::{ErrSink, FileShelf, StdSink, argument_words};
use port_types::NoMemory;
use std::process::ExitCode;
pub use top::run;
pub use words::{Task, parse_words};

/// The name of the file of the trace, empty where none is asked for.
fn trace_name(words: &[String]) -> &str {
    match parse_words(words) {
        Some(task) => task.trace.unwrap_or(""),
        None => "",
    }
}

/// Where the words can't be had for want of memory, the status is that of want of memory.
fn main(rt: HostRuntime) -> ExitCode {
    let status = match argument_words(rt.alloc(), &rt) {
        Ok(words) => run(
            rt.alloc(),
            words.as_slice(),
            &mut FileShelf::new(&rt),
            &mut StdSink::new(&rt),
            &mut ErrSink::new(&rt),
            &mut FileSink::new(&rt, trace_name(words.as_slice())),
        ),
        Err(NoMemory) => 7,
    };
    ExitCode::from(status)
}
