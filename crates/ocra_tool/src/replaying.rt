//! `replay FILE LASSO`: reads both files and makes the text of what the lasso says of the contracts, or the line of the
//! first fault. Main function: `replay_files`. It reads the shelf and writes to no sink.

ghost use Rattle.std.specs.Prelude.{◌≡◌, ◌≤◌, ◌↔◌, List, ℕ, Option, Some, Err, length, IfOk, IfSome};
ghost use Rattle.oss_base.specs.Limits.{most_bytes};
ghost use Rattle.replay.specs.LassoFiles.{IsLasso, IsBreak};
ghost use Rattle.replay.specs.declared.named.LassoStop.TheVariants as stops;
ghost use Rattle.ocra_tool.specs.Files.{IsSoleSpecification};
ghost use Rattle.ocra_tool.specs.Outcomes.{Means};
ghost use Rattle.ocra_tool.specs.Replays.{IsReplayOf};
ghost use Rattle.ocra_tool.specs.Words.{ReplayLasso, default_width};

use crate::files::{described, refused, unread};
use crate::laws::{replays_are_moderate, replays_have_one_text};
use crate::lines::lasso_break_line;
use crate::outcome::{Outcome, Report};
use crate::words::DEFAULT_WIDTH;
use oss_base::{MOST_BYTES, Stop};
use oss_io::{ReadStop, Shelf, read_all};
use port_types::{NoMemory, Text};
use replay::{LassoStop, NamedLasso, judge, read_lasso};
use report::render_judgements;
use spec_model::Spec;
use std::alloc::Global;

/// What comes of `replay FILE LASSO`. LASSO is opened only where FILE has no fault.
pub fn replay_files<'a, F: Shelf>(
    alloc: Global,
    file: &'a str,
    lasso: &'a str,
    shelf: &mut F,
) -> Outcome<'a>
    requires admits { F.admits shelf.old file.now }
    requires admits_lasso { F.admits shelf.old lasso.now }

    ensures means { Means (F.held shelf.old file.now) (F.held shelf.old lasso.now) (F.faults shelf.old)
        (F.faults shelf.new) (ReplayLasso file.now lasso.now) result }

    ensures held { (n : List ℕ) → F.held shelf.new n ≡ F.held shelf.old n }
    ensures admits { (n : List ℕ) → F.admits shelf.old n ↔ F.admits shelf.new n }
    ensures later { F.faults shelf.old ≤ F.faults shelf.new }
{
    match read_all(alloc, shelf, file, MOST_BYTES) {
        Ok(bytes) => replay_bytes(alloc, file, bytes.as_slice(), lasso, shelf),
        Err(stop) => unread(alloc, file, stop),
    }
}

/// What comes of the bytes of FILE.
fn replay_bytes<'a, F: Shelf>(
    alloc: Global,
    file: &'a str,
    bytes: &[u8],
    lasso: &'a str,
    shelf: &mut F,
) -> Outcome<'a>
    requires short { length bytes.now ≤ most_bytes }
    requires admits { F.admits shelf.old lasso.now }

    ensures means { Means (Some bytes.now) (F.held shelf.old lasso.now) (F.faults shelf.old) (F.faults shelf.new)
        (ReplayLasso file.now lasso.now) result }

    ensures held { (n : List ℕ) → F.held shelf.new n ≡ F.held shelf.old n }
    ensures admits { (n : List ℕ) → F.admits shelf.old n ↔ F.admits shelf.new n }
    ensures later { F.faults shelf.old ≤ F.faults shelf.new }
{
    match described(alloc, bytes, DEFAULT_WIDTH) {
        Ok(source) => replay_spec(alloc, bytes, &source.spec, lasso, shelf),
        Err(Stop::Fault(fault)) => refused(alloc, file, fault),
        Err(Stop::NoMemory) => Outcome::NoMemory,
    }
}

/// What comes of LASSO, where FILE has no fault.
fn replay_spec<'a, F: Shelf>(
    alloc: Global,
    bytes: &[u8],
    spec: &Spec,
    lasso: &'a str,
    shelf: &mut F,
) -> Outcome<'a>
    requires sole { IsSoleSpecification default_width bytes.now spec.now }
    requires admits { F.admits shelf.old lasso.now }

    ensures means { (file : List ℕ) → Means (Some bytes.now) (F.held shelf.old lasso.now) (F.faults shelf.old)
        (F.faults shelf.new) (ReplayLasso file lasso.now) result }

    ensures held { (n : List ℕ) → F.held shelf.new n ≡ F.held shelf.old n }
    ensures admits { (n : List ℕ) → F.admits shelf.old n ↔ F.admits shelf.new n }
    ensures later { F.faults shelf.old ≤ F.faults shelf.new }
{
    match read_all(alloc, shelf, lasso, MOST_BYTES) {
        Ok(second) => replay_lasso(alloc, bytes, spec, lasso, second.as_slice()),
        Err(ReadStop::TooLong) => lasso_refused(alloc, bytes, spec, lasso, 1),
        Err(ReadStop::Failed) => Outcome::ReadFault { file: lasso },
        Err(ReadStop::NoMemory) => Outcome::NoMemory,
    }
}

/// What comes of the bytes of LASSO.
fn replay_lasso<'a>(
    alloc: Global,
    bytes: &[u8],
    spec: &Spec,
    lasso: &'a str,
    second: &[u8],
) -> Outcome<'a>
    requires { IsSoleSpecification default_width bytes.now spec.now }
    ensures { (file : List ℕ) (before now : ℕ) → Means (Some bytes.now) (Some second.now) before now
        (ReplayLasso file lasso.now) result }
{
    match replay_text(alloc, bytes, spec, second) {
        Ok(text) => Outcome::Done(Report { text, status: 0 }),
        Err(LassoStop::Fault { line }) => lasso_refused(alloc, bytes, spec, lasso, line),
        Err(LassoStop::NoMemory) => Outcome::NoMemory,
    }
}

/// The refusal of LASSO, which breaks at this line.
fn lasso_refused<'a>(
    alloc: Global,
    bytes: &[u8],
    spec: &Spec,
    lasso: &'a str,
    line: u32,
) -> Outcome<'a>
    requires { IsSoleSpecification default_width bytes.now spec.now }
    ensures { (file : List ℕ) (other : Option (List ℕ)) (before now : ℕ)
        → IfSome other (λ second. IsBreak spec.now second line)
        → Means (Some bytes.now) other before now (ReplayLasso file lasso.now) result }
{
    match lasso_break_line(alloc, lasso, line) {
        Ok(text) => Outcome::SecondRefused(text),
        Err(NoMemory) => Outcome::NoMemory,
    }
}

/// What the lasso that the second bytes mean says of the contracts, as text, or the first line at which they break.
fn replay_text(alloc: Global, bytes: &[u8], spec: &Spec, second: &[u8]) -> Result<Text, LassoStop>
    requires { IsSoleSpecification default_width bytes.now spec.now }
    ensures text { IfOk result (IsReplayOf bytes.now second.now) }
    ensures stops { (line : ℕ) → result ≡ Err (stops.Fault line) → IsBreak spec.now second.now line }
{
    match read_lasso(alloc, second, spec) {
        Ok(named) => Ok(judged_text(alloc, bytes, spec, second, &named)?),
        Err(stop) => Err(stop),
    }
}

/// What this lasso says of the contracts, as text.
fn judged_text(
    alloc: Global,
    bytes: &[u8],
    spec: &Spec,
    second: &[u8],
    named: &NamedLasso,
) -> Result<Text, NoMemory>
    requires sole { IsSoleSpecification default_width bytes.now spec.now }
    requires lasso { IsLasso spec.now second.now named.now }
    ensures { IfOk result (IsReplayOf bytes.now second.now) }
{
    replays_are_moderate();
    replays_have_one_text();
    let judgements = judge(alloc, spec, named)?;
    render_judgements(alloc, spec, &judgements)
}
