//! Runs of the top call over shelves and sinks in memory, where chosen calls fail. What is printed for which file
//! stands in the worked cases beside the crates.

ghost use Rattle.std.specs.Prelude.{◌<◌};

use crate::top::run;
use oss_io::{Files, MemoryShelf, MemorySink, Numbers};
use port_types::{Bytes, Name, NoMemory};
use std::alloc::Global;
use std::test::Fail;

/// Two valves in series, whose system is safe.
const VALVES: &str = "COMPONENT Thr system
INTERFACE
INPUT PORT cmd: boolean;
OUTPUT PORT fire: boolean;
CONTRACT safe assume: true; guarantee: fire implies cmd;
REFINEMENT
SUB a: Valve;
SUB b: Valve;
CONNECTION a.open := cmd;
CONNECTION b.open := cmd;
CONNECTION fire := a.flow and b.flow;
CONTRACT safe REFINEDBY a.tight, b.tight;
COMPONENT Valve
INTERFACE
INPUT PORT open: boolean;
OUTPUT PORT flow: boolean;
CONTRACT tight assume: true; guarantee: flow implies open;
";

const EMPTY: &str = "COMPONENT S system INTERFACE";

const USAGE: &str =
    "usage: ocra_tool check|tree|certify FILE [--depth 1..32] [--width 1..3] | print FILE | replay FILE LASSO | recheck FILE CERT | sample N\n";

/// Command lines that mean nothing, each a line of words.
const MEANINGLESS: [&str; 18] = [
    "",
    "check",
    "check \"\"",
    "check -x",
    "check --",
    "check a b",
    "check x.oss --depth 8 --depth 8",
    "check x.oss --depth 08",
    "check x.oss --depth --width 3",
    "print x.oss --width 2",
    "tree x.oss",
    "replay x.oss",
    "replay x.oss \"\"",
    "replay x.oss l.txt -8",
    "replay x.oss l.txt --width 2",
    "Check x.oss",
    "--help",
    "\"\" x.oss",
];

/// A file held under a name, the number of the call on the shelf that fails, and the status. The first call opens the
/// file, the third is the second read. A name that isn't held, and a read that fails behind all bytes, are no end of
/// the file either.
const FAILING: [(&str, &str, u64, u8); 5] = [
    ("thr.oss", VALVES, 3, 5),
    ("thr.oss", VALVES, 1, 5),
    ("thr.oss", EMPTY, 4, 5),
    ("thr.oss", EMPTY, 5, 0),
    ("other.oss", EMPTY, 9, 5),
];

/// What one run answers: the status, and what the two sinks took.
#[derive(Drop)]
struct Answer {
    status: u8,
    out: MemorySink,
    err: MemorySink,
}

/// The words of a line, cut at its blanks. `""` stands for the empty word.
fn words_of(alloc: Global, line: &str) -> Result<Vec<String>, NoMemory> {
    let mut words = Vec::new(alloc);
    for word in line.split_ascii_whitespace() {
        let text = if word == "\"\"" { "" } else { word };
        words.push(String::from_str(alloc, text)?)?;
    }
    Ok(words)
}

fn numbers_of(alloc: Global, numbers: &[u64]) -> Result<Numbers, NoMemory> {
    Ok(Numbers::from_vec(Vec::from_slice(alloc, numbers)?))
}

/// A shelf with one file, which gives at most `piece` bytes at once, and on which these calls fail.
fn shelf_of(
    alloc: Global,
    name: &str,
    bytes: &[u8],
    failing: &[u64],
    piece: usize,
) -> Result<MemoryShelf, NoMemory>
    requires { 0 < piece }
{
    let mut files = Files::new(alloc);
    files.push((
        Name::new(alloc, name)?,
        Bytes::from_vec(Vec::from_slice(alloc, bytes)?),
    ))?;
    Ok(MemoryShelf::new(files, numbers_of(alloc, failing)?, piece))
}

/// Runs the line over a shelf with one file, with two sinks that take a piece of this size at once.
fn run_line(
    alloc: Global,
    line: &str,
    shelf: &mut MemoryShelf,
    out_fails: &[u64],
    err_fails: &[u64],
    piece: usize,
) -> Result<Answer, NoMemory>
    requires { 0 < piece }
{
    let words = words_of(alloc, line)?;
    let mut out = MemorySink::new(alloc, 1048576, numbers_of(alloc, out_fails)?, piece)?;
    let mut err = MemorySink::new(alloc, 1048576, numbers_of(alloc, err_fails)?, piece)?;
    let status = run(alloc, words.as_slice(), shelf, &mut out, &mut err);
    Ok(Answer { status, out, err })
}

#[test]
fn refuses_command_lines_that_mean_nothing(rt: HostRuntime) -> Result<(), Fail> {
    for line in MEANINGLESS {
        let mut shelf = shelf_of(rt.alloc(), "x.oss", EMPTY.as_bytes(), &[1], 16)?;
        let answer = run_line(rt.alloc(), line, &mut shelf, &[], &[], 4096)?;
        assert_eq!(rt; answer.status, 4, "{line}");
        assert_eq!(rt; answer.out.taken(), b"".as_slice(), "{line}");
        assert_eq!(rt; answer.err.taken(), USAGE.as_bytes(), "{line}");
    }
    Ok(())
}

#[test]
fn tells_a_read_fault_with_the_name(rt: HostRuntime) -> Result<(), Fail> {
    for (name, text, failing, status) in FAILING {
        let mut shelf = shelf_of(rt.alloc(), name, text.as_bytes(), &[failing], 16)?;
        let answer = run_line(rt.alloc(), "check thr.oss", &mut shelf, &[], &[], 4096)?;
        assert_eq!(rt; answer.status, status, "{name} {failing}");
        if status == 5 {
            assert_eq!(rt;
                answer.err.taken(),
                b"thr.oss: read fault\n".as_slice(),
                "{name} {failing}"
            );
            assert_eq!(rt; answer.out.taken(), b"".as_slice(), "{name} {failing}");
        }
    }
    Ok(())
}

#[test]
fn tells_a_write_fault_after_a_front_of_the_report(rt: HostRuntime) -> Result<(), Fail> {
    let mut shelf = shelf_of(rt.alloc(), "x.oss", VALVES.as_bytes(), &[], 16)?;
    let answer = run_line(rt.alloc(), "check x.oss", &mut shelf, &[3], &[], 1)?;
    assert_eq!(rt; answer.status, 6);
    assert_eq!(rt; answer.out.taken(), b"pr".as_slice());
    assert_eq!(rt; answer.err.taken(), b"write fault\n".as_slice());
    Ok(())
}

#[test]
fn a_fault_of_the_error_sink_changes_no_status(rt: HostRuntime) -> Result<(), Fail> {
    for (line, text, status, err) in [
        ("check --width 3 x.oss --depth 32", EMPTY, 0, ""),
        ("check x.oss", "COMPONENT", 3, "x.os"),
        ("check y.oss", EMPTY, 5, "y.os"),
        ("tree x.oss", EMPTY, 4, "usag"),
    ] {
        let mut shelf = shelf_of(rt.alloc(), "x.oss", text.as_bytes(), &[], 16)?;
        let answer = run_line(rt.alloc(), line, &mut shelf, &[], &[5], 1)?;
        assert_eq!(rt; answer.status, status, "{line}");
        assert_eq!(rt; answer.err.taken(), err.as_bytes(), "{line}");
    }
    Ok(())
}
