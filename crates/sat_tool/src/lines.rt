//! The lines that the program writes to `err`.

ghost use Rattle.std.specs.Prelude.{◌≡◌, IfOk};
ghost use Rattle.oss_io.specs.Outside.{Says};
ghost use Rattle.sat_tool.specs.SatAnswers.{break_line as line_of_break, reason_text as text_of_reason};
ghost use Rattle.sat_tool.specs.SatAnswers.{solver_usage, told_read_fault, told_write_fault, told_no_memory};

use dimacs::{Fault, Reason};
use itoa::Buffer;
use oss_io::{Sink, say};
use port_types::{NoMemory, Text};
use std::alloc::Global;

/// Says that the words ask for nothing.
#[tactic(auto, unfolding(crate::specs::SatAnswers::solver_usage))]
pub fn say_usage<E: Sink>(err: &mut E)
    ensures { Says (E.taken err.old) (E.taken err.new) (E.faults err.old) (E.faults err.new) solver_usage }
{
    say(err, b"usage: sat_tool FILE [--trace OUT]\n");
}

/// Says that the file could not be read.
#[tactic(auto, unfolding(crate::specs::SatAnswers::told_read_fault))]
pub fn say_read_fault<E: Sink>(err: &mut E)
    ensures { Says (E.taken err.old) (E.taken err.new) (E.faults err.old) (E.faults err.new) told_read_fault }
{
    say(err, b"read fault\n");
}

/// Says that an output could not be written.
#[tactic(auto, unfolding(crate::specs::SatAnswers::told_write_fault))]
pub fn say_write_fault<E: Sink>(err: &mut E)
    ensures { Says (E.taken err.old) (E.taken err.new) (E.faults err.old) (E.faults err.new) told_write_fault }
{
    say(err, b"write fault\n");
}

/// Says that memory was short.
#[tactic(auto, unfolding(crate::specs::SatAnswers::told_no_memory))]
pub fn say_no_memory<E: Sink>(err: &mut E)
    ensures { Says (E.taken err.old) (E.taken err.new) (E.faults err.old) (E.faults err.new) told_no_memory }
{
    say(err, b"want of memory\n");
}

fn reason_text(reason: Reason) -> &'static [u8]
    ensures { result.now ≡ text_of_reason reason }
{
    match reason {
        Reason::Header => b"the text does not begin with p cnf and two numbers",
        Reason::Entry => b"this is neither a literal nor the end of a clause",
        Reason::Variable => b"there are not so many variables",
        Reason::Clauses => b"there are more clauses than their number",
        Reason::End => b"the text ends too early",
    }
}

/// The line on a file that breaks the format.
pub fn break_line(alloc: Global, file: &str, fault: Fault) -> Result<Text, NoMemory>
    ensures { IfOk result (λ line. line ≡ line_of_break file.now fault.line fault.reason) }
{
    let mut number = Buffer::new();
    let mut line = Text::new(alloc);
    line.append(file.as_bytes())?;
    line.append(b":")?;
    line.append(number.format(fault.line).as_bytes())?;
    line.append(b": ")?;
    line.append(reason_text(fault.reason))?;
    line.append(b"\n")?;
    Ok(line)
}
