//! A file to write to, as a sink: `FileSink`. It touches the file of its name.

ghost use Rattle.std.specs.Prelude.{◌≡◌, ◌≤◌, [], length, None, IfOk};
ghost use Rattle.oss_io.specs.Outside.{HasCause, Takes};

use oss_io::{Failed, Sink};
use std::fs::File;
use std::io::Write;

/// The file of this name, made anew at the first write. It tells nothing of what was taken.
#[derive(Drop)]
pub struct FileSink<'a> {
    rt: &'a HostRuntime,
    name: &'a str,
    file: Option<File>,
    faults: u64,
}

impl<'a> FileSink<'a> {
    pub fn new(rt: &'a HostRuntime, name: &'a str) -> FileSink<'a> {
        FileSink {
            rt,
            name,
            file: None,
            faults: 0,
        }
    }

    // Makes the file, unless it is made.
    fn make(&mut self)
        ensures { self.new.faults ≡ self.old.faults }
    {
        if self.file.is_none() {
            self.file = File::create(self.rt, self.name).ok();
        }
    }
}

// How many bytes a file took, 0 where there is none or the call failed.
fn count_taken(file: &mut Option<File>, piece: &[u8]) -> usize
    ensures { result ≤ length piece.now }
{
    match file {
        Some(file) => match file.write(piece) {
            Ok(count) => count,
            Err(_) => 0,
        },
        None => 0,
    }
}

// One write. That none of some bytes is taken counts as an error.
fn write_some(file: &mut Option<File>, faults: &mut u64, piece: &[u8]) -> Result<usize, Failed>
    ensures count { IfOk result (λ n. Takes n (length piece.now)) }
    ensures cause { HasCause faults.old faults.new result }
    ensures empty { piece.now ≡ [] → result ≡ Ok 0 }
{
    if piece.is_empty() {
        return Ok(0);
    }
    let count = count_taken(file, piece);
    if count > 0 {
        return Ok(count);
    }
    *faults = faults.saturating_add(1);
    Err(Failed)
}

impl<'a> Sink for FileSink<'a> {
    ghost taken = { λ _. None };

    ghost faults = { λ s. s.faults };

    fn write(&mut self, piece: &[u8]) -> Result<usize, Failed> {
        self.make();
        write_some(&mut self.file, &mut self.faults, piece)
    }
}
