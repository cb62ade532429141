//! `print FILE`: reads the file and makes its canonical text, or the line of its fault. Main function: `print_file`. It
//! reads the shelf and writes to no sink.

ghost use Rattle.std.specs.Prelude.{◌≡◌, ◌≤◌, ◌↔◌, [], List, ℕ, Some, length, IfOk};
ghost use Rattle.oss_base.specs.Limits.{most_bytes};
ghost use Rattle.oss_syntax.specs.Trees.{component_trees};
ghost use Rattle.ocra_tool.specs.Files.{IsSoleSpecification, IsSoleTreeOf};
ghost use Rattle.ocra_tool.specs.Outcomes.{Means};
ghost use Rattle.ocra_tool.specs.Prints.{IsPrintOf};
ghost use Rattle.ocra_tool.specs.Words.{PrintFile, default_width};

use crate::files::{SourceFile, described, refused, unread};
use crate::outcome::{Outcome, Report};
use crate::words::DEFAULT_WIDTH;
use oss_base::{MOST_BYTES, Stop};
use oss_io::{Shelf, read_all};
use oss_printer::print;
use port_types::{NoMemory, Text};
use std::alloc::Global;

/// What comes of `print FILE`.
pub fn print_file<'a, F: Shelf>(alloc: Global, file: &'a str, shelf: &mut F) -> Outcome<'a>
    requires { F.admits shelf.old file.now }

    ensures means { Means (F.held shelf.old file.now) (Some []) (F.faults shelf.old) (F.faults shelf.new)
        (PrintFile file.now) result }

    ensures held { (n : List ℕ) → F.held shelf.new n ≡ F.held shelf.old n }
    ensures admits { (n : List ℕ) → F.admits shelf.old n ↔ F.admits shelf.new n }
    ensures later { F.faults shelf.old ≤ F.faults shelf.new }
{
    match read_all(alloc, shelf, file, MOST_BYTES) {
        Ok(bytes) => print_bytes(alloc, file, bytes.as_slice()),
        Err(stop) => unread(alloc, file, stop),
    }
}

/// What comes of the bytes of a file of this name.
fn print_bytes<'a>(alloc: Global, file: &'a str, bytes: &[u8]) -> Outcome<'a>
    requires { length bytes.now ≤ most_bytes }
    ensures { (before now : ℕ) → Means (Some bytes.now) (Some []) before now (PrintFile file.now) result }
{
    match described(alloc, bytes, DEFAULT_WIDTH) {
        Ok(source) => print_source(alloc, file, bytes, &source),
        Err(Stop::Fault(fault)) => refused(alloc, file, fault),
        Err(Stop::NoMemory) => Outcome::NoMemory,
    }
}

/// What comes of a file without a fault.
fn print_source<'a>(alloc: Global, file: &'a str, bytes: &[u8], source: &SourceFile) -> Outcome<'a>
    requires tree { IsSoleTreeOf bytes.now (component_trees source.now.tree) }
    requires sole { IsSoleSpecification default_width bytes.now source.now.spec }
    ensures { (before now : ℕ) → Means (Some bytes.now) (Some []) before now (PrintFile file.now) result }
{
    match printed(alloc, bytes, source) {
        Ok(text) => Outcome::Done(Report { text, status: 0 }),
        Err(NoMemory) => Outcome::NoMemory,
    }
}

/// The canonical text of a file without a fault.
fn printed(alloc: Global, bytes: &[u8], source: &SourceFile) -> Result<Text, NoMemory>
    requires tree { IsSoleTreeOf bytes.now (component_trees source.now.tree) }
    requires sole { IsSoleSpecification default_width bytes.now source.now.spec }
    ensures { IfOk result (IsPrintOf bytes.now) }
{
    print(alloc, &source.tree)
}
