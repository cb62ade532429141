//! FILE of a command: what its bytes are, and what comes of it where it can't be read or has a fault. Main functions:
//! `described`, `refused`, `unread`. It touches memory alone.

ghost use Rattle.std.specs.Prelude.{◌≡◌, ◌<◌, ◌≤◌, List, ℕ, Option, length, IfOk, OnOk, IfSome};
ghost use Rattle.oss_base.specs.Faults.{IfFault};
ghost use Rattle.oss_base.specs.Limits.{most_bytes};
ghost use Rattle.oss_io.specs.Outside.{Rose};
ghost use Rattle.oss_io.specs.declared.reading.ReadStop.TheVariants as stops;
ghost use Rattle.oss_syntax.specs.Trees.{component_trees};
ghost use Rattle.levels.specs.Levels.{AreLevels};
ghost use Rattle.ocra_tool.specs.Files.{at_start, IsFaultOf, IsSoleSpecification, IsSoleTreeOf, IsSpecOf};
ghost use Rattle.ocra_tool.specs.Outcomes.{Means};
ghost use Rattle.ocra_tool.specs.Tasks.{first_file, IsFaultFor};
ghost use Rattle.ocra_tool.specs.Words.{Task};

use crate::lines::fault_line;
use crate::outcome::Outcome;
use architecture::resolve;
use levels::{LevelList, levels};
use oss_base::{Fault, FaultKind, Place, Stop};
use oss_io::ReadStop;
use oss_lexer::lex;
use oss_reader::read_tree;
use oss_syntax::SpecTree;
use port_types::NoMemory;
use spec_model::Spec;
use std::alloc::Global;

/// The tree of the text that the bytes of a file are, the specification that it stands for, and its levels, in the order
/// of its items.
#[derive(Drop)]
pub struct SourceFile {
    pub tree: SpecTree,
    pub spec: Spec,
    pub levels: LevelList,
}

/// What the bytes of a file stand for, or their first fault of size, tokens, syntax, names, types, limits or levels.
pub fn described(alloc: Global, bytes: &[u8], width: u8) -> Result<SourceFile, Stop>
    requires short { length bytes.now ≤ most_bytes }
    requires least { 1 ≤ width }
    requires most { width ≤ 3 }
    ensures tree { IfOk result (λ source. IsSoleTreeOf bytes.now (component_trees source.tree)) }
    ensures sole { IfOk result (λ source. IsSoleSpecification width bytes.now source.spec) }
    ensures levels { IfOk result (λ source. AreLevels source.spec source.spec.items source.levels) }
    ensures fault { IfFault result (IsFaultOf width bytes.now) }
{
    let tree = tree_of(alloc, bytes)?;
    let spec = spec_of(alloc, bytes, &tree)?;
    let levels = levels_of(alloc, bytes, &tree, &spec, width)?;
    Ok(SourceFile { tree, spec, levels })
}

/// The tree of the text that the bytes are, or the first fault of its size, its tokens or its syntax.
fn tree_of(alloc: Global, bytes: &[u8]) -> Result<SpecTree, Stop>
    requires { length bytes.now ≤ most_bytes }
    ensures tree { IfOk result (λ tree. IsSoleTreeOf bytes.now (component_trees tree)) }
    ensures fault { (width : ℕ) → IfFault result (IsFaultOf width bytes.now) }
{
    oss_lexer::one_token_list();
    let tokens = lex(alloc, bytes)?;
    read_tree(alloc, bytes, &tokens)
}

/// The specification that a tree stands for, or the first fault of its names, types or limits.
fn spec_of(alloc: Global, bytes: &[u8], tree: &SpecTree) -> Result<Spec, Stop>
    requires sole { IsSoleTreeOf bytes.now (component_trees tree.now) }
    ensures spec { IfOk result (IsSpecOf bytes.now (component_trees tree.now)) }
    ensures fault { (width : ℕ) → IfFault result (IsFaultOf width bytes.now) }
{
    resolve(alloc, bytes, tree)
}

/// The levels of what a tree stands for, or the first fault of one that is too large.
fn levels_of(
    alloc: Global,
    bytes: &[u8],
    tree: &SpecTree,
    spec: &Spec,
    width: u8,
) -> Result<LevelList, Stop>
    requires sole { IsSoleTreeOf bytes.now (component_trees tree.now) }
    requires of { IsSpecOf bytes.now (component_trees tree.now) spec.now }
    requires least { 1 ≤ width }
    requires most { width ≤ 3 }
    ensures sole { OnOk result (IsSoleSpecification width bytes.now spec.now) }
    ensures levels { IfOk result (AreLevels spec.now spec.now.items) }
    ensures fault { IfFault result (IsFaultOf width bytes.now) }
{
    architecture::stands_is_unique();
    levels(alloc, spec, width)
}

/// A fault of this kind at the start of the text.
pub fn fault_at_start(kind: FaultKind) -> Fault
    ensures { result ≡ at_start kind }
{
    Fault {
        kind,
        place: Place { line: 1, column: 1 },
    }
}

/// The refusal of FILE for a fault that its bytes have.
pub fn refused<'a>(alloc: Global, file: &'a str, fault: Fault) -> Outcome<'a>
    ensures { (task : Task) (told other : Option (List ℕ)) (before now : ℕ) → first_file task ≡ file.now
        → IfSome told (λ bytes. IsFaultFor task bytes fault) → Means told other before now task result }
{
    match fault_line(alloc, file, fault) {
        Ok(line) => Outcome::Refused(line),
        Err(NoMemory) => Outcome::NoMemory,
    }
}

/// What comes of FILE where its bytes could not be had.
pub fn unread<'a>(alloc: Global, file: &'a str, stop: ReadStop) -> Outcome<'a>
    ensures { (task : Task) (told other : Option (List ℕ)) (before now : ℕ) → first_file task ≡ file.now
        → (stop ≡ stops.TooLong → IfSome told (λ bytes. most_bytes < length bytes))
        → (stop ≡ stops.Failed → Rose before now) → Means told other before now task result }
{
    match stop {
        ReadStop::TooLong => refused(alloc, file, fault_at_start(FaultKind::F1)),
        ReadStop::Failed => Outcome::ReadFault { file },
        ReadStop::NoMemory => Outcome::NoMemory,
    }
}
