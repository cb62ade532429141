//! The lines that the program writes: to `err` what went wrong, and the line of a fault of a file.

ghost use Rattle.std.specs.Prelude.{◌≡◌, IfOk};
ghost use Rattle.oss_io.specs.Outside.{Says};
ghost use Rattle.ocra_tool.specs.Outcomes.{fault_line_of};
ghost use Rattle.ocra_tool.specs.Lines.{lasso_break_line as line_of_break, no_memory_line, read_fault_line, usage_line};
ghost use Rattle.ocra_tool.specs.Lines.{write_fault_line};

use itoa::Buffer;
use oss_base::Fault;
use oss_io::{Sink, say, say_two};
use port_types::{NoMemory, Text};
use std::alloc::Global;

const USAGE: &[u8] =
    b"usage: ocra_tool check|tree|certify FILE [--depth 1..32] [--width 1..3] | print FILE | replay FILE LASSO | recheck FILE CERT | sample N\n";

/// Says that the words mean no command.
pub fn say_usage<E: Sink>(err: &mut E)
    ensures { Says (E.taken err.old) (E.taken err.new) (E.faults err.old) (E.faults err.new) usage_line }
{
    say(err, USAGE);
}

/// Says that a file could not be read.
pub fn say_read_fault<E: Sink>(err: &mut E, file: &str)
    ensures { Says (E.taken err.old) (E.taken err.new) (E.faults err.old) (E.faults err.new)
        (read_fault_line file.now) }
{
    say_two(err, file.as_bytes(), b": read fault\n");
}

/// Says that the output could not be written.
pub fn say_write_fault<E: Sink>(err: &mut E)
    ensures { Says (E.taken err.old) (E.taken err.new) (E.faults err.old) (E.faults err.new) write_fault_line }
{
    say(err, b"write fault\n");
}

/// Says that memory was short.
pub fn say_no_memory<E: Sink>(err: &mut E)
    ensures { Says (E.taken err.old) (E.taken err.new) (E.faults err.old) (E.faults err.new) no_memory_line }
{
    say(err, b"want of memory\n");
}

/// The line on a lasso file that breaks at this line.
pub fn lasso_break_line(alloc: Global, name: &str, at: u32) -> Result<Text, NoMemory>
    ensures { IfOk result (λ line. line ≡ line_of_break name.now at) }
{
    let mut number = Buffer::new();
    let mut line = Text::new(alloc);
    line.append(name.as_bytes())?;
    line.append(b":")?;
    line.append(number.format(at).as_bytes())?;
    line.append(b": lasso text\n")?;
    Ok(line)
}

/// The line on a file that is refused for this fault.
pub fn fault_line(alloc: Global, file: &str, fault: Fault) -> Result<Text, NoMemory>
    ensures { IfOk result (λ line. line ≡ fault_line_of file.now fault) }
{
    let mut number = Buffer::new();
    let mut line = Text::new(alloc);
    line.append(file.as_bytes())?;
    line.append(b":")?;
    line.append(number.format(fault.place.line).as_bytes())?;
    line.append(b":")?;
    line.append(number.format(fault.place.column).as_bytes())?;
    line.append(b": F")?;
    line.append(number.format(fault.kind.number()).as_bytes())?;
    line.append(b" ")?;
    line.append(fault.kind.text().as_bytes())?;
    line.append(b"\n")?;
    Ok(line)
}
