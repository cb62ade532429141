//! Checks contract refinement of a system architecture, as the words of its command line ask.
//!
//! `run` is all of the program: what stands around it hands in the words, the files of the system,
//! the standard output and the standard error.
#![tactic(auto)]

mod check;
mod files;
mod given;
mod laws;
mod lines;
mod outcome;
mod printing;
mod replaying;
#[cfg(test)]
mod tests;
mod top;
mod words;

use oss_io::{ErrSink, FileShelf, StdSink, argument_words};
use port_types::NoMemory;
use std::process::ExitCode;
pub use top::run;
pub use words::{Command, parse_words};

/// Where the words can't be had for want of memory, the status is that of want of memory.
fn main(rt: HostRuntime) -> ExitCode {
    let status = match argument_words(rt.alloc(), &rt) {
        Ok(words) => run(
            rt.alloc(),
            words.as_slice(),
            &mut FileShelf::new(&rt),
            &mut StdSink::new(&rt),
            &mut ErrSink::new(&rt),
        ),
        Err(NoMemory) => 7,
    };
    ExitCode::from(status)
}
