//! The files and streams of the system as a shelf and sinks. This is the only file here that
//! touches them.

ghost use Rattle.std.specs.Prelude.{◌≡◌, [], length, None, IfOk};
ghost use Rattle.oss_io.specs.Outside.{HasCause, Takes};

use crate::outside::{Failed, Shelf, Sink};
use std::fs::File;
use std::io::{Read, Write};
use std::rt::{Stderr, Stdout};

/// The files of the system by their paths. It tells nothing of their content, and nothing proves
/// that a file gives back what was written to it.
///
/// Each error of the system raises the count and is answered as `Failed`, also one of a call that a
/// signal interrupted: nothing is tried again.
#[derive(Drop)]
pub struct FileShelf<'a> {
    rt: &'a HostRuntime,
    file: Option<File>,
    faults: u64,
}

impl<'a> FileShelf<'a> {
    ghost use Rattle.oss_io.specs.Real.{file_faults};

    /// The files of the system, of which none is open yet.
    pub fn new(rt: &'a HostRuntime) -> FileShelf<'a>
        ensures { file_faults result ≡ 0 }
    {
        FileShelf {
            rt,
            file: None,
            faults: 0,
        }
    }
}

impl<'a> Shelf for FileShelf<'a> {
    ghost held = { λ _ _. None };

    ghost left = { λ _. None };

    ghost faults = { λ s. s.faults };

    ghost admits = { λ _ _. Unit {0} };

    fn open(&mut self, name: &str) -> Result<(), Failed> {
        match File::open(self.rt, name) {
            Ok(file) => {
                self.file = Some(file);
                Ok(())
            }
            Err(_) => {
                self.file = None;
                self.faults = self.faults.saturating_add(1);
                Err(Failed)
            }
        }
    }

    fn read(&mut self, into: &mut [u8]) -> Result<usize, Failed> {
        let Some(file) = &mut self.file else {
            return Ok(0);
        };
        match file.read(into) {
            Ok(count) => Ok(count),
            Err(_) => {
                self.faults = self.faults.saturating_add(1);
                Err(Failed)
            }
        }
    }
}

// One write. That none of some bytes is taken counts as an error.
fn write_some<W: Write>(inner: &mut W, faults: &mut u64, piece: &[u8]) -> Result<usize, Failed>
    ensures count { IfOk result (λ n. Takes n (length piece.now)) }
    ensures cause { HasCause faults.old faults.new result }
    ensures empty { piece.now ≡ [] → result ≡ Ok 0 }
{
    if piece.is_empty() {
        return Ok(0);
    }
    match inner.write(piece) {
        Ok(count) if count > 0 => Ok(count),
        _ => {
            *faults = faults.saturating_add(1);
            Err(Failed)
        }
    }
}

/// The standard output, without a buffer. It tells nothing of what was taken.
#[derive(Drop)]
pub struct StdSink {
    out: Stdout,
    faults: u64,
}

impl StdSink {
    ghost use Rattle.oss_io.specs.Real.{out_faults};

    pub fn new(rt: &HostRuntime) -> StdSink
        ensures { out_faults result ≡ 0 }
    {
        StdSink {
            out: rt.stdout(),
            faults: 0,
        }
    }
}

impl Sink for StdSink {
    ghost taken = { λ _. None };

    ghost faults = { λ s. s.faults };

    fn write(&mut self, piece: &[u8]) -> Result<usize, Failed> {
        write_some(&mut self.out, &mut self.faults, piece)
    }
}

/// The standard error, without a buffer. It tells nothing of what was taken.
#[derive(Drop)]
pub struct ErrSink {
    err: Stderr,
    faults: u64,
}

impl ErrSink {
    ghost use Rattle.oss_io.specs.Real.{err_faults};

    pub fn new(rt: &HostRuntime) -> ErrSink
        ensures { err_faults result ≡ 0 }
    {
        ErrSink {
            err: rt.stderr(),
            faults: 0,
        }
    }
}

impl Sink for ErrSink {
    ghost taken = { λ _. None };

    ghost faults = { λ s. s.faults };

    fn write(&mut self, piece: &[u8]) -> Result<usize, Failed> {
        write_some(&mut self.err, &mut self.faults, piece)
    }
}
