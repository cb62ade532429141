//! `check FILE`: reads the file and makes its report, or the line of its fault. Main function: `check_file`. It reads
//! the shelf and writes to no sink.

ghost use Rattle.std.specs.Prelude.{◌≡◌, ◌≤◌, ◌↔◌, [], List, ℕ, Some, None, length, IfOk};
ghost use Rattle.oss_base.specs.Limits.{most_bytes};
ghost use Rattle.levels.specs.Levels.{AreLevels};
ghost use Rattle.levels.specs.LevelFaults.{first_level_fault};
ghost use Rattle.level_verdicts.specs.Verdicts.{CanBeDecided};
ghost use Rattle.ocra_tool.specs.Decided.{IsChecked};
ghost use Rattle.ocra_tool.specs.Files.{IsSoleSpecification};
ghost use Rattle.ocra_tool.specs.Outcomes.{Means};
ghost use Rattle.ocra_tool.specs.Reporting.{Reports};
ghost use Rattle.ocra_tool.specs.Statuses.{IsDone};
ghost use Rattle.ocra_tool.specs.Words.{CheckFile};

use crate::files::{SourceFile, described, refused, unread};
use crate::laws::files_can_be_decided;
use crate::outcome::{Outcome, Report};
use levels::LevelList;
use oss_base::{MOST_BYTES, Stop};
use oss_io::{Shelf, read_all};
use port_types::NoMemory;
use report::{answer_levels, render_check, status_of};
use spec_model::Spec;
use std::alloc::Global;

/// What comes of `check FILE` with this depth and this width.
pub fn check_file<'a, F: Shelf>(
    alloc: Global,
    file: &'a str,
    depth: u8,
    width: u8,
    shelf: &mut F,
) -> Outcome<'a>
    requires admits { F.admits shelf.old file.now }
    requires deep { 1 ≤ depth }
    requires shallow { depth ≤ 32 }
    requires least { 1 ≤ width }
    requires most { width ≤ 3 }

    ensures means { Means (F.held shelf.old file.now) (Some []) (F.faults shelf.old) (F.faults shelf.new)
        (CheckFile file.now depth width) result }

    ensures held { (n : List ℕ) → F.held shelf.new n ≡ F.held shelf.old n }
    ensures admits { (n : List ℕ) → F.admits shelf.old n ↔ F.admits shelf.new n }
    ensures later { F.faults shelf.old ≤ F.faults shelf.new }
{
    match read_all(alloc, shelf, file, MOST_BYTES) {
        Ok(bytes) => check_bytes(alloc, file, bytes.as_slice(), depth, width),
        Err(stop) => unread(alloc, file, stop),
    }
}

/// What comes of the bytes of a file of this name.
fn check_bytes<'a>(alloc: Global, file: &'a str, bytes: &[u8], depth: u8, width: u8) -> Outcome<'a>
    requires short { length bytes.now ≤ most_bytes }
    requires deep { 1 ≤ depth }
    requires shallow { depth ≤ 32 }
    requires least { 1 ≤ width }
    requires most { width ≤ 3 }
    ensures { (before now : ℕ) → Means (Some bytes.now) (Some []) before now (CheckFile file.now depth width) result }
{
    match described(alloc, bytes, width) {
        Ok(source) => check_source(alloc, file, bytes, &source, depth, width),
        Err(Stop::Fault(fault)) => refused(alloc, file, fault),
        Err(Stop::NoMemory) => Outcome::NoMemory,
    }
}

/// What comes of the specification that the bytes are.
fn check_source<'a>(
    alloc: Global,
    file: &'a str,
    bytes: &[u8],
    source: &SourceFile,
    depth: u8,
    width: u8,
) -> Outcome<'a>
    requires sole { IsSoleSpecification width bytes.now source.now.spec }
    requires levels { AreLevels source.now.spec source.now.spec.items source.now.levels }
    requires deep { 1 ≤ depth }
    requires shallow { depth ≤ 32 }
    ensures { (before now : ℕ) → Means (Some bytes.now) (Some []) before now (CheckFile file.now depth width) result }
{
    match report_of(alloc, bytes, source, depth, width) {
        Ok(report) => Outcome::Done(report),
        Err(NoMemory) => Outcome::NoMemory,
    }
}

/// The report on the specification that the bytes are.
fn report_of(
    alloc: Global,
    bytes: &[u8],
    source: &SourceFile,
    depth: u8,
    width: u8,
) -> Result<Report, NoMemory>
    requires sole { IsSoleSpecification width bytes.now source.now.spec }
    requires levels { AreLevels source.now.spec source.now.spec.items source.now.levels }
    requires deep { 1 ≤ depth }
    requires shallow { depth ≤ 32 }
    ensures { IfOk result (λ report. IsDone report.status × IsChecked depth width bytes.now report.text report.status) }
{
    files_can_be_decided();
    level_verdicts::proved_is_valid();
    report::success_is_safe();
    report::answers_are_unique();
    reported(alloc, &source.spec, &source.levels, depth)
}

/// What is reported of a specification.
fn reported(alloc: Global, spec: &Spec, levels: &LevelList, depth: u8) -> Result<Report, NoMemory>
    requires decidable { CanBeDecided spec.now }
    requires levels { AreLevels spec.now spec.now.items levels.now }
    requires clear { (width : ℕ) × (first_level_fault width spec.now ≡ None) }
    requires deep { 1 ≤ depth }
    requires shallow { depth ≤ 32 }
    ensures { IfOk result (Reports spec.now depth) }
{
    let answers = answer_levels(alloc, spec, levels, depth)?;
    let text = render_check(alloc, spec, &answers)?;
    Ok(Report {
        text,
        status: status_of(&answers),
    })
}
